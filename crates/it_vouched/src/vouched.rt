//! What a line vouches for.
ghost use Rattle.std.specs.Prelude.{◌≡◌, ◌≤◌, [], ◌∷◌, IfOk, MatchOption, ℕ, List, map};
ghost use Rattle.it_base.specs.Finds.{Finds};
ghost use Rattle.it_dsse.specs.Signed.{message_of};
ghost use Rattle.it_vouched.specs.Line.{IsVouched};
ghost use Rattle.it_vouched.specs.Silent.{LineMisses, MissesNothing};

use it_base::sequence::Sequence;
use it_budget::Budget;
use it_bundle::{SigstoreBundle, read_bundle};
use it_dsse::envelope::{Envelope, Signature};
use it_dsse::pae;
use it_identity::Identity;
use it_vouches::{Judged, Shortfall, Trust, Voucher, judged};
use std::alloc::{AllocError, Global};

/// An identity that is vouched for, and with what.
#[derive(Drop)]
pub struct Vouched {
    /// The identity.
    pub identity: Identity,
    /// The message: the pre-authentication encoding of the envelope.
    pub message: Sequence<u8>,
    /// The envelope's one signature.
    pub signature: Sequence<u8>,
    /// The time of an entry of a transparency log by which the bundle vouches, in seconds since
    /// 1970.
    pub time: u64,
}

impl Vouched {
    /// A copy, in memory from `alloc`.
    fn copy(&self, alloc: Global) -> Result<Vouched, AllocError>
        ensures { IfOk result (λ copy. copy ≡ self.now) }
    {
        let identity = Identity {
            name: copied(alloc, &self.identity.name)?,
            issuer: copied(alloc, &self.identity.issuer)?,
        };
        Ok(Vouched {
            identity,
            message: copied(alloc, &self.message)?,
            signature: copied(alloc, &self.signature)?,
            time: self.time,
        })
    }
}

fn copied(alloc: Global, bytes: &Sequence<u8>) -> Result<Sequence<u8>, AllocError>
    ensures { IfOk result (λ copy. copy ≡ bytes.now) }
{
    Ok(Sequence::from(Vec::from_slice(alloc, bytes.as_slice())?))
}

/// What is judged of a line.
#[derive(Drop)]
pub(crate) struct LineJudged {
    /// What it vouches for; `None` where it is no bundle, or one that vouches for nobody.
    pub(crate) vouched: Option<Vouched>,
    /// The condition that it misses, where it is a bundle that vouches for nobody.
    pub(crate) shortfall: Option<Shortfall>,
}

impl LineJudged {
    /// A copy, in memory from `alloc`.
    pub(crate) fn copy(&self, alloc: Global) -> Result<LineJudged, AllocError>
        ensures { IfOk result (λ copy. copy ≡ self.now) }
    {
        let vouched = match &self.vouched {
            None => None,
            Some(vouched) => Some(vouched.copy(alloc)?),
        };
        Ok(LineJudged {
            vouched,
            shortfall: self.shortfall,
        })
    }
}

/// What is judged of a line, by a trusted root.
///
/// # Errors
///
/// `AllocError` where memory was refused, or where the budget has no check left.
pub(crate) fn judged_line(
    alloc: Global,
    budget: &mut Budget,
    trust: &Trust<'_>,
    line: &[u8],
) -> Result<LineJudged, AllocError>
    ensures vouched { IfOk result
        (λ judged. Finds (IsVouched trust.now line.now) judged.vouched) }
    ensures misses { IfOk result (λ judged. MatchOption judged.shortfall
        (MissesNothing trust.now line.now) (LineMisses trust.now line.now)) }
    ensures most { budget.new.most ≡ budget.old.most }
    ensures grows { budget.old.checked ≤ budget.new.checked }
{
    let Some(bundle) = read_bundle(alloc, line)? else {
        return Ok(LineJudged {
            vouched: None,
            shortfall: None,
        });
    };
    match judged(alloc, budget, trust, &bundle)? {
        Judged::For(voucher) => Ok(LineJudged {
            vouched: vouched_with(alloc, &bundle, voucher)?,
            shortfall: None,
        }),
        Judged::Misses(shortfall) => Ok(LineJudged {
            vouched: None,
            shortfall: Some(shortfall),
        }),
    }
}

/// What a bundle vouches for, with the message and the signature of its envelope.
fn vouched_with(
    alloc: Global,
    bundle: &SigstoreBundle,
    voucher: Voucher,
) -> Result<Option<Vouched>, AllocError>
    ensures { IfOk result (λ found. MatchOption found
        ((bytes : List ℕ) → map (λ s. s.sig) bundle.now.envelope.signatures ≡ bytes ∷ [] → ⊥)
        (λ v. (v.identity ≡ voucher.identity) × (v.time ≡ voucher.time)
        × (v.message ≡ message_of bundle.now.envelope)
        × (map (λ s. s.sig) bundle.now.envelope.signatures ≡ v.signature ∷ []))) }
{
    let Some(signature) = only_signature(alloc, bundle.envelope.signatures.as_slice())? else {
        return Ok(None);
    };
    let message = message_of(alloc, &bundle.envelope)?;
    Ok(Some(Vouched {
        identity: voucher.identity,
        message,
        signature,
        time: voucher.time,
    }))
}

/// The bytes of the signature, where there is one and no other.
fn only_signature(
    alloc: Global,
    signatures: &[Signature],
) -> Result<Option<Sequence<u8>>, AllocError>
    ensures { IfOk result (λ found. MatchOption found
        ((bytes : List ℕ) → map (λ s. s.sig) signatures.now ≡ bytes ∷ [] → ⊥)
        (λ bytes. map (λ s. s.sig) signatures.now ≡ bytes ∷ [])) }
{
    match signatures {
        [only] => Ok(Some(Sequence::from(Vec::from_slice(alloc, only.sig.as_slice())?))),
        _ => Ok(None),
    }
}

/// What the signatures of an envelope sign (DSSE v1.0, "Protocol", PAE).
fn message_of(alloc: Global, envelope: &Envelope) -> Result<Sequence<u8>, AllocError>
    ensures { IfOk result (λ message. message ≡ message_of envelope.now) }
{
    let kind = envelope.payload_type.as_str();
    let message = pae(alloc, kind, envelope.payload.as_slice())?;
    Ok(Sequence::from(message))
}
