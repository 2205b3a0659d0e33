//! Whom a bundle vouches for, or why for nobody.
ghost use Rattle.std.specs.Prelude.{◌≡◌, ◌↔◌, ◌≤◌, IfOk, IsTrue};
ghost use Rattle.it_base.specs.Finds.{Finds};
ghost use Rattle.it_certificate.specs.Certificate.{facts_of};
ghost use Rattle.it_certificate_log.specs.Bare.{WasRead};
ghost use Rattle.it_dsse.specs.Signed.{message_of};
ghost use Rattle.it_issued.specs.Signature.{IsByP256, key_info};
ghost use Rattle.it_vouches.specs.Judged.{IsJudged};
ghost use Rattle.it_vouches.specs.Logged.{IsAbout};
ghost use Rattle.it_vouches.specs.Vouches.{Vouches};
ghost use Rattle.it_vouches.specs.inside.Brought.{brought_of};
ghost use Rattle.it_vouches.specs.inside.Shows.{ClaimShows};

use crate::attestation::Attestation;
use crate::attested::attestation_by;
use crate::claim::{Claim, claim_of, needs_proof};
use crate::judgement::Judged;
use crate::leaf_key::is_by_leaf;
use crate::question::Question;
use crate::shortfall::Shortfall;
use crate::trust::Trust;
use crate::voucher::Voucher;
use it_budget::Budget;
use it_bundle::SigstoreBundle;
use it_certificate::{Certificate, read_leaf};
use it_dsse::envelope::Envelope;
use it_dsse::pae;
use it_identity::Identity;
use it_log_entry::Logged;
use std::alloc::{AllocError, Global};

/// The identity that a bundle vouches for, by a trusted root; `None` where it vouches for none.
///
/// # Errors
///
/// `AllocError` where memory was refused, or where the budget has no check left.
pub fn vouched_identity(
    alloc: Global,
    budget: &mut Budget,
    trust: &Trust<'_>,
    bundle: &SigstoreBundle,
) -> Result<Option<Identity>, AllocError>
    ensures answer { IfOk result (Finds (Vouches trust.now bundle.now)) }
    ensures most { budget.new.most ≡ budget.old.most }
    ensures grows { budget.old.checked ≤ budget.new.checked }
{
    match judged(alloc, budget, trust, bundle)? {
        Judged::For(voucher) => Ok(Some(voucher.identity)),
        Judged::Misses(_) => Ok(None),
    }
}

/// Whom a bundle vouches for, by a trusted root, and by an entry of which time, or the first
/// condition that it misses. What costs no signature is looked at first; then the entries, the
/// leaf's issuer, its timestamps and last the signature of the envelope.
///
/// # Errors
///
/// `AllocError` where memory was refused, or where the budget has no check left.
pub fn judged(
    alloc: Global,
    budget: &mut Budget,
    trust: &Trust<'_>,
    bundle: &SigstoreBundle,
) -> Result<Judged, AllocError>
    ensures answer { IfOk result (IsJudged trust.now bundle.now) }
    ensures most { budget.new.most ≡ budget.old.most }
    ensures grows { budget.old.checked ≤ budget.new.checked }
{
    let claim = match claim_of(bundle) {
        Ok(claim) => claim,
        Err(missed) => return Ok(Judged::Misses(missed)),
    };
    let leaf = match read_leaf(alloc, claim.certificate)? {
        Ok(leaf) => leaf,
        Err(missed) => return Ok(Judged::Misses(Shortfall::Leaf(missed))),
    };
    let Some(identity) = Identity::of(alloc, leaf.identity.name, leaf.identity.issuer)? else {
        return Ok(Judged::Misses(Shortfall::Identity));
    };
    let claimed = Claimed { bundle, claim };
    let time = match attestation_of_claim(alloc, budget, trust, &claimed, &leaf.certificate)? {
        Attestation::NoEntry => return Ok(Judged::Misses(Shortfall::Entry)),
        Attestation::NoLog(missed) => return Ok(Judged::Misses(Shortfall::Log(missed))),
        Attestation::NoIssuer(missed) => return Ok(Judged::Misses(Shortfall::Issuer(missed))),
        Attestation::Attested(time) => time,
    };
    if !is_envelope_signed(alloc, budget, &claimed, &leaf.certificate)? {
        return Ok(Judged::Misses(Shortfall::Signature));
    }
    Ok(Judged::For(Voucher { identity, time }))
}

/// A bundle, and what it brings.
#[derive(Clone, Copy)]
struct Claimed<'b> {
    bundle: &'b SigstoreBundle,
    claim: Claim<'b>,
}

/// How far the entries and the authorities attest what a bundle claims.
fn attestation_of_claim(
    alloc: Global,
    budget: &mut Budget,
    trust: &Trust<'_>,
    claimed: &Claimed<'_>,
    leaf: &Certificate<'_>,
) -> Result<Attestation, AllocError>
    requires { WasRead leaf.now }
    ensures answer { IfOk result (ClaimShows trust.now claimed.now.bundle.now
        (brought_of claimed.now.claim) (facts_of leaf.now)) }
    ensures most { budget.new.most ≡ budget.old.most }
    ensures grows { budget.old.checked ≤ budget.new.checked }
{
    let bundle = claimed.bundle;
    let question = Question {
        logged: logged_of(&bundle.envelope, &claimed.claim),
        needs_proof: needs_proof(bundle.version),
        leaf,
    };
    attestation_by(alloc, budget, trust, &question, claimed.claim.entries)
}

/// Whether the signature of an envelope is by the key of a leaf.
fn is_envelope_signed(
    alloc: Global,
    budget: &mut Budget,
    claimed: &Claimed<'_>,
    leaf: &Certificate<'_>,
) -> Result<bool, AllocError>
    requires { WasRead leaf.now }
    ensures answer { IfOk result (λ is. IsTrue is
        ↔ IsByP256 (key_info leaf.now.key.curve leaf.now.key.coordinates.now)
        (message_of claimed.now.bundle.now.envelope) claimed.now.claim.signature.now) }
    ensures most { budget.new.most ≡ budget.old.most }
    ensures grows { budget.old.checked ≤ budget.new.checked }
{
    let envelope = &claimed.bundle.envelope;
    let message = pae(
        alloc,
        envelope.payload_type.as_str(),
        envelope.payload.as_slice(),
    )?;
    let signature = claimed.claim.signature;
    is_by_leaf(alloc, budget, leaf, message.as_slice(), signature)
}

/// What an entry is to be about: the signature of the envelope, and what it was made with.
fn logged_of<'b>(envelope: &'b Envelope, claim: &Claim<'b>) -> Logged<'b>
    ensures { IsAbout envelope.now claim.now.signature.now claim.now.certificate.now result }
{
    Logged {
        payload: envelope.payload.as_slice(),
        payload_type: envelope.payload_type.as_str(),
        signature: claim.signature,
        certificate: claim.certificate,
    }
}
