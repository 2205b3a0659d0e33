//! The link in a file that counts for a step.
ghost use Rattle.std.specs.Prelude.{◌≡◌, Contains, IfOk, IfSome};
ghost use Rattle.it_docs.specs.Link.{LinkOf};
ghost use Rattle.it_dsse.specs.Signed.{IsSigner};
ghost use Rattle.it_rule_notes.specs.inside.CountingLink.{IsHeldLink};

use crate::link_file::LinkFile;
use it_base::text::Text;
use it_chain::held_file::HeldFile;
use it_chain::signers::Signer;
use it_chain::{candidate_in, is_claimed, link_in};
use it_docs::link::Link;
use it_dsse::checks::Checks;
use it_dsse::envelope::Envelope;
use it_dsse::is_signer;
use it_dsse::meter::Meter;
use std::alloc::{AllocError, Global};

/// The link for a step in a file, where a key of one of the signers signed it. The payload is read
/// once, however many of them signed it, and not at all where none did.
pub(crate) fn counting_link<C: Checks>(
    alloc: Global,
    file: &HeldFile,
    step: &str,
    signers: &[Signer],
    checks: &C,
) -> Result<Option<LinkFile>, AllocError>
    ensures { IfOk result (λ found. IfSome found
        (IsHeldLink (C.panel checks.now) step.now signers.now file.now)) }
{
    if !is_claimed(step, file.name()) {
        return Ok(None);
    }
    let Some(envelope) = candidate_in(file) else {
        return Ok(None);
    };
    let Some(signer) = signer_among(envelope, signers, checks)? else {
        return Ok(None);
    };
    let Some(link) = link_for(alloc, step, envelope.payload.as_slice())? else {
        return Ok(None);
    };
    let id = Text::copy(alloc, signer.id)?;
    let name = Text::copy(alloc, file.name())?;
    Ok(Some(LinkFile { id, name, link }))
}

/// The first of the signers whose key signed an envelope.
fn signer_among<'s, 'a, C: Checks>(
    envelope: &Envelope,
    signers: &'s [Signer<'a>],
    checks: &C,
) -> Result<Option<&'s Signer<'a>>, AllocError>
    ensures { IfOk result (λ found. IfSome found (λ signer. Contains signers.now signer.now
        × IsSigner (C.panel checks.now) envelope.now signer.now.object.now signer.now.id.now)) }
{
    let mut meter = Meter { asked: 0 };
    for signer in signers {
        let signed = is_signer(envelope, signer.id, signer.object, checks, &mut meter)?;
        if signed {
            return Ok(Some(signer));
        }
    }
    Ok(None)
}

/// The link that a payload is, if it has the step's name.
fn link_for(alloc: Global, step: &str, payload: &[u8]) -> Result<Option<Link>, AllocError>
    ensures { IfOk result (λ found. IfSome found
        (λ link. LinkOf payload.now link × (link.name ≡ step.now))) }
{
    match link_in(alloc, payload)? {
        Some(link) if link.name.as_str() == step => Ok(Some(link)),
        _ => Ok(None),
    }
}
