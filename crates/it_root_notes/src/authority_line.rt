//! The line of a note on an authority.
ghost use Rattle.std.specs.Prelude.{◌≡◌, ◌++◌, OnOk};
ghost use Rattle.it_root_notes.specs.AuthorityText.{
  authority_text,
  barred_text,
  certificate_text,
  chain_phrase_of,
  phrase_of,
  unusable_text,
};
ghost use Rattle.it_root_notes.specs.declared.shortfall.AuthorityShortfall.TheVariants.{Unread};

use crate::front::push_front;
use crate::shortfall::{AuthorityShortfall, ChainShortfall};
use it_certificate::{CertificateShortfall, IssuingShortfall};
use it_vouches::unread_reason;
use std::alloc::AllocError;

/// Appends the line of a note on the authority at a place, which ends with a line feed, where the
/// authority misses a condition.
///
/// # Errors
///
/// `AllocError` where memory was refused; a part of the line may have been appended then.
pub(crate) fn push_authority(
    text: &mut Vec<u8>,
    place: usize,
    missed: Option<AuthorityShortfall>,
) -> Result<(), AllocError>
    ensures { OnOk result
        (text.new.items ≡ text.old.items ++ authority_text (place, missed)) }
{
    match missed {
        None => Ok(()),
        Some(missed) => push_unusable(text, place, missed),
    }
}

#[tactic(auto, unfolding(crate::specs::AuthorityText::unusable_text))]
fn push_unusable(
    text: &mut Vec<u8>,
    place: usize,
    missed: AuthorityShortfall,
) -> Result<(), AllocError>
    ensures { OnOk result (text.new.items ≡ text.old.items ++ unusable_text place missed) }
{
    push_front(text, "certificateAuthorities", place)?;
    push_phrase(text, missed)?;
    text.push(b'\n')?;
    Ok(())
}

/// Appends why an authority is not used.
fn push_phrase(text: &mut Vec<u8>, missed: AuthorityShortfall) -> Result<(), AllocError>
    ensures { OnOk result (text.new.items ≡ text.old.items ++ phrase_of missed) }
{
    match missed {
        AuthorityShortfall::Unread { place, reason } => push_unread(text, place, reason),
        AuthorityShortfall::Chain(missed) => push_chain_phrase(text, missed),
    }
}

/// Appends that a certificate is not read, and why.
fn push_unread(
    text: &mut Vec<u8>,
    place: usize,
    reason: CertificateShortfall,
) -> Result<(), AllocError>
    ensures { OnOk result (text.new.items ≡ text.old.items ++ phrase_of (Unread place reason)) }
{
    let alloc = *text.allocator();
    let said = unread_reason(reason);
    let words = format!(in alloc; "its certificate {place} is not read: {said}")?;
    text.extend_from_slice(words.as_bytes())
}

/// Appends what its certificates miss.
fn push_chain_phrase(text: &mut Vec<u8>, missed: ChainShortfall) -> Result<(), AllocError>
    ensures { OnOk result (text.new.items ≡ text.old.items ++ chain_phrase_of missed) }
{
    match missed {
        ChainShortfall::Empty => text.extend_from_slice(b"it has no certificate"),
        ChainShortfall::OtherIssuer(place) => {
            push_certificate(
                text,
                place,
                " has another issuer than the next one's subject",
            )
        }
        ChainShortfall::MayNotIssue { place, reason } => {
            push_certificate(text, place, barred_words(reason))
        }
        ChainShortfall::Unsigned(place) => {
            push_certificate(
                text,
                place,
                " is not signed by the next one with the digest for that one's key",
            )
        }
    }
}

/// Why a certificate may not issue others.
fn barred_words(reason: IssuingShortfall) -> &'static str
    ensures { result.now ≡ barred_text reason }
{
    match reason {
        IssuingShortfall::Authority => " is not that of an authority",
        IssuingShortfall::Length => " allows fewer certificates below it",
        IssuingShortfall::Usage => " is not for signing certificates",
        IssuingShortfall::Purpose => " is not for code signing",
    }
}

/// Appends a certificate by its place, and what is said of it.
fn push_certificate(text: &mut Vec<u8>, place: usize, after: &str) -> Result<(), AllocError>
    ensures { OnOk result
        (text.new.items ≡ text.old.items ++ certificate_text place after.now) }
{
    let alloc = *text.allocator();
    let words = format!(in alloc; "its certificate {place}{after}")?;
    text.extend_from_slice(words.as_bytes())
}
