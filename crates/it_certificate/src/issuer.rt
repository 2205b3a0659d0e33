//! The issuer of an identity, in the values of two extensions.
ghost use Rattle.std.specs.Prelude.{◌≡◌, ℕ, List, MatchOption};
ghost use Rattle.std.specs.Option.{option_copied};
ghost use Rattle.it_certificate.specs.Issuer.{IsIssuer};

use it_der::content_of;

const UTF8_STRING: u8 = 12;

/// The issuer that the values of the two extensions name: the text itself in the old form, a
/// UTF8String in the new one. `None` where there is neither, where the new one is no such text, or
/// where both are there and differ.
pub(crate) fn issuer_of<'b>(old: Option<&'b [u8]>, new: Option<&'b [u8]>) -> Option<&'b [u8]>
    ensures { MatchOption result
        ((issuer : List ℕ)
        → IsIssuer (option_copied old.entry) (option_copied new.entry) issuer → ⊥)
        (λ issuer. IsIssuer (option_copied old.entry) (option_copied new.entry) issuer.now) }
{
    let Some(new) = new else {
        return old;
    };
    let text = content_of(new, UTF8_STRING)?;
    match old {
        Some(old) => same_text(old, text),
        None => Some(text),
    }
}

fn same_text<'b>(old: &'b [u8], new: &[u8]) -> Option<&'b [u8]>
    ensures { MatchOption result (old.now ≡ new.now → ⊥)
        (λ text. (text.now ≡ old.now) × (old.now ≡ new.now)) }
{
    if old == new { Some(old) } else { None }
}
