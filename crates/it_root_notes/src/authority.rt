//! Whether an authority of a trusted root can be used, or which condition it misses.
ghost use Rattle.std.specs.Prelude.{◌≡◌, ◌≤◌, All, IfOk, map};
ghost use Rattle.it_certificate.specs.Authority.{AreAuthority};
ghost use Rattle.it_certificate.specs.Certificate.{facts_of};
ghost use Rattle.it_certificate_log.specs.Bare.{WasRead};
ghost use Rattle.it_issued.specs.Misses.{IsShortfall};
ghost use Rattle.it_issued.specs.Signature.{Signs};
ghost use Rattle.it_root_notes.specs.AuthorityMisses.{ChainMisses, IsAuthorityShortfall};

use crate::certificates::certificates_of;
use crate::chain::{first_barred, first_other_issuer, first_unsigned};
use crate::shortfall::{AuthorityShortfall, ChainShortfall};
use it_budget::Budget;
use it_certificate::Certificate;
use it_trust_root::Authority;
use std::alloc::{AllocError, Global};

/// The condition that an authority misses where it cannot be used. `None` where it can: where each
/// of its certificates reads, names the next one as its issuer, may issue others and is signed by
/// the key of the next one. Signatures are looked at last.
///
/// # Errors
///
/// `AllocError` where memory was refused, or where the budget has no check left.
pub fn authority_shortfall(
    alloc: Global,
    budget: &mut Budget,
    authority: &Authority,
) -> Result<Option<AuthorityShortfall>, AllocError>
    ensures answer { IfOk result (IsAuthorityShortfall authority.now) }
    ensures most { budget.new.most ≡ budget.old.most }
    ensures grows { budget.old.checked ≤ budget.new.checked }
{
    let certificates = match certificates_of(alloc, authority.certificates.as_slice())? {
        Ok(certificates) => certificates,
        Err(unread) => {
            return Ok(Some(AuthorityShortfall::Unread {
                place: unread.place,
                reason: unread.reason,
            }));
        }
    };
    match chain_shortfall(alloc, budget, certificates.as_slice())? {
        Some(missed) => Ok(Some(AuthorityShortfall::Chain(missed))),
        None => Ok(None),
    }
}

/// The condition that certificates miss to be those of an authority.
fn chain_shortfall(
    alloc: Global,
    budget: &mut Budget,
    certificates: &[Certificate<'_>],
) -> Result<Option<ChainShortfall>, AllocError>
    requires { All WasRead certificates.now }
    ensures answer { IfOk result (IsShortfall (AreAuthority Signs (map facts_of certificates.now))
        (ChainMisses (map facts_of certificates.now))) }
    ensures most { budget.new.most ≡ budget.old.most }
    ensures grows { budget.old.checked ≤ budget.new.checked }
{
    if certificates.is_empty() {
        return Ok(Some(ChainShortfall::Empty));
    }
    if let Some(place) = first_other_issuer(certificates) {
        return Ok(Some(ChainShortfall::OtherIssuer(place)));
    }
    if let Some(barred) = first_barred(certificates) {
        return Ok(Some(ChainShortfall::MayNotIssue {
            place: barred.place,
            reason: barred.reason,
        }));
    }
    match first_unsigned(alloc, budget, certificates)? {
        Some(place) => Ok(Some(ChainShortfall::Unsigned(place))),
        None => Ok(None),
    }
}
