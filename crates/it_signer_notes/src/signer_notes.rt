//! Notes on identities that signed the provenance and are keys of no builder.
ghost use Rattle.std.specs.Prelude.{◌≡◌, ◌++◌, IfOk, OnOk};
ghost use Rattle.std.specs.List.{flat_map};
ghost use Rattle.it_signer_notes.specs.SignerText.{further_text, signer_notes, signer_text};
ghost use Rattle.it_signer_notes.specs.SignerText.{text_of_signers};
ghost use Rattle.it_signer_notes.specs.inside.Lent.{lent};

use crate::builder_keys::builder_keys;
use crate::signer_line::push_line;
use crate::signers::unlisted;
use it_docs::policy::Policy;
use it_dsse::key_object::KeyObject;
use it_identity::Identity;
use it_vouched::Vouched;
use std::alloc::{AllocError, Global};

/// How many lines of these notes there are at most.
const MOST_LINES: usize = 40;

/// How many of them are on an identity each, where there are more of these.
const MOST_SHOWN: usize = 39;

/// The notes on identities for which lines of provenance vouch and which are keys of no builder of
/// the policy: a line for each, once, in the order of the lines; where there are more than 40, the
/// last line says how many more there are. Which identities differ is found in a set; each of them
/// is compared with each key of the builders.
///
/// # Errors
///
/// `AllocError` where memory was refused.
pub fn notes_on_signers(
    alloc: Global,
    policy: &Policy,
    vouched: &[Vouched],
) -> Result<Vec<u8>, AllocError>
    ensures { IfOk result (λ text. text.items ≡ signer_notes policy.now vouched.now) }
{
    let keys = builder_keys(alloc, policy)?;
    let signers = unlisted(alloc, &keys, vouched)?;
    let text = text_of(alloc, &keys, &signers)?;
    Ok(text)
}

/// The notes on these identities.
fn text_of(alloc: Global, keys: &[&KeyObject], signers: &[&Identity]) -> Result<Vec<u8>, AllocError>
    ensures { IfOk result (λ text.
        text.items ≡ text_of_signers (lent keys.now) (lent signers.now)) }
{
    if signers.len() <= MOST_LINES {
        return lines_of(alloc, keys, signers);
    }
    let mut text = lines_of(alloc, keys, &signers[..MOST_SHOWN])?;
    push_further(&mut text, signers.len() - MOST_SHOWN)?;
    Ok(text)
}

/// A line for each.
fn lines_of(
    alloc: Global,
    keys: &[&KeyObject],
    signers: &[&Identity],
) -> Result<Vec<u8>, AllocError>
    ensures { IfOk result (λ text.
        text.items ≡ flat_map (signer_text (lent keys.now)) (lent signers.now)) }
{
    let mut text = Vec::new(alloc);
    for signer in signers {
        push_line(&mut text, keys, signer)?;
    }
    Ok(text)
}

/// Appends the line that says how many more there are.
fn push_further(text: &mut Vec<u8>, count: usize) -> Result<(), AllocError>
    ensures { OnOk result (text.new.items ≡ text.old.items ++ further_text count) }
{
    let alloc = *text.allocator();
    let line = format!(in alloc; "{count} further identities sign the provenance\n")?;
    text.extend_from_slice(line.as_bytes())
}
