//! Notes on the authorities of a trusted root.
ghost use Rattle.std.specs.Prelude.{◌≡◌, ◌≤◌, IfOk};
ghost use Rattle.std.specs.List.{AllZip, list_any};
ghost use Rattle.it_root_notes.specs.AuthorityMisses.{IsAuthorityShortfall};
ghost use Rattle.it_root_notes.specs.AuthorityText.{
  AreAuthorityNotes,
  authority_lines,
  authority_notes,
  is_usable,
};

use crate::authority::authority_shortfall;
use crate::authority_line::push_authority;
use crate::front::push_none_used;
use crate::shortfall::AuthorityShortfall;
use it_budget::Budget;
use it_trust_root::{Authority, TrustedRoot};
use std::alloc::{AllocError, Global};

/// The notes on the authorities of a trusted root: a line for each that cannot be used, with its
/// place among them, from 0, and the first condition that it misses; and one that no bundle vouches
/// for anybody where none of them can be used.
///
/// # Errors
///
/// `AllocError` where memory was refused, or where the budget has no check left.
pub fn notes_on_authorities(
    alloc: Global,
    budget: &mut Budget,
    root: &TrustedRoot,
) -> Result<Vec<u8>, AllocError>
    ensures answer { IfOk result (λ text. AreAuthorityNotes root.now text.items) }
    ensures most { budget.new.most ≡ budget.old.most }
    ensures grows { budget.old.checked ≤ budget.new.checked }
{
    let shortfalls = shortfalls_of(alloc, budget, root.authorities.as_slice())?;
    let text = notes_of(alloc, shortfalls.as_slice())?;
    Ok(text)
}

/// What each of the authorities misses, if it misses something.
fn shortfalls_of(
    alloc: Global,
    budget: &mut Budget,
    authorities: &[Authority],
) -> Result<Vec<Option<AuthorityShortfall>>, AllocError>
    ensures answer { IfOk result (λ shortfalls.
        AllZip IsAuthorityShortfall authorities.now shortfalls.items) }
    ensures most { budget.new.most ≡ budget.old.most }
    ensures grows { budget.old.checked ≤ budget.new.checked }
{
    let mut shortfalls = Vec::new(alloc);
    for authority in authorities {
        let missed = authority_shortfall(alloc, budget, authority)?;
        shortfalls.push(missed)?;
    }
    Ok(shortfalls)
}

/// A line for each that misses something, and one where each does.
fn notes_of(alloc: Global, shortfalls: &[Option<AuthorityShortfall>]) -> Result<Vec<u8>, AllocError>
    ensures { IfOk result (λ text. text.items ≡ authority_notes shortfalls.now) }
{
    let mut text = lines_of(alloc, shortfalls)?;
    if !has_usable(shortfalls) {
        push_none_used(&mut text, "certificateAuthorities")?;
    }
    Ok(text)
}

/// A line for each that misses something.
fn lines_of(alloc: Global, shortfalls: &[Option<AuthorityShortfall>]) -> Result<Vec<u8>, AllocError>
    ensures { IfOk result (λ text. text.items ≡ authority_lines shortfalls.now) }
{
    let mut text = Vec::new(alloc);
    for (place, missed) in shortfalls.iter().enumerate() {
        push_authority(&mut text, place, *missed)?;
    }
    Ok(text)
}

/// Whether one of them misses nothing.
fn has_usable(shortfalls: &[Option<AuthorityShortfall>]) -> bool
    ensures { result ≡ list_any is_usable shortfalls.now }
{
    for missed in shortfalls {
        if missed.is_none() {
            return true;
        }
    }
    false
}
