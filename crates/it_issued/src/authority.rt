//! The authorities of a trusted root.
ghost use Rattle.std.specs.Prelude.{◌≡◌, ◌↔◌, ◌≤◌, List, MatchOption, IfOk, IsTrue, All, map};
ghost use Rattle.std.specs.List.{AllZip};
ghost use Rattle.it_certificate.specs.Authority.{AreSignedInTurn};
ghost use Rattle.it_certificate.specs.Certificate.{CertificateOf, Facts, facts_of};
ghost use Rattle.it_certificate_log.specs.Bare.{WasRead};
ghost use Rattle.it_issued.specs.Issued.{IsUsable};
ghost use Rattle.it_issued.specs.Signature.{Signs};

use crate::signature::is_signed_by;
use it_budget::Budget;
use it_certificate::{Certificate, is_chain, read_certificate};
use it_log::Window;
use it_trust_root::{Authority, RawBytes};
use std::alloc::{AllocError, Global};

/// An authority that may issue leaves.
#[derive(Drop)]
pub struct UsableAuthority<'b> {
    /// Its certificates: the one that issues leaves first, the one that is trusted as it is last.
    pub certificates: Vec<Certificate<'b>>,
    /// When the authority is trusted.
    pub window: Window,
}

/// The authority with its certificates. `None` where it cannot be used: where one of them does not
/// read or may not issue others, or where one is not issued and signed by the next. The signature
/// of the last one is not looked at.
///
/// # Errors
///
/// `AllocError` where memory was refused, or where the budget has no check left.
pub fn read_authority<'b>(
    alloc: Global,
    budget: &mut Budget,
    authority: &'b Authority,
) -> Result<Option<UsableAuthority<'b>>, AllocError>
    ensures answer { IfOk result (λ found. MatchOption found
        ((certificates : List Facts) → IsUsable authority.now certificates → ⊥)
        (λ usable. IsUsable authority.now (map facts_of usable.certificates.items)
        × All WasRead usable.certificates.items × (usable.window ≡ authority.now.window))) }
    ensures most { budget.new.most ≡ budget.old.most }
    ensures grows { budget.old.checked ≤ budget.new.checked }
{
    let Some(certificates) = certificates_of(alloc, authority.certificates.as_slice())? else {
        return Ok(None);
    };
    let all = certificates.as_slice();
    if !is_chain(all) {
        return Ok(None);
    }
    if !are_signed_in_turn(alloc, budget, all)? {
        return Ok(None);
    }
    Ok(Some(UsableAuthority {
        certificates,
        window: authority.window,
    }))
}

/// The certificates that the bytes are, each; `None` where one is none.
fn certificates_of(
    alloc: Global,
    listed: &[RawBytes],
) -> Result<Option<Vec<Certificate<'_>>>, AllocError>
    ensures { IfOk result (λ found. MatchOption found
        ((certificates : List Facts) → AllZip CertificateOf listed.now certificates → ⊥)
        (λ certificates. AllZip CertificateOf listed.now (map facts_of certificates.items)
        × All WasRead certificates.items)) }
{
    let mut certificates = Vec::new(alloc);
    for raw in listed {
        let Some(certificate) = read_certificate(alloc, raw.as_slice())? else {
            return Ok(None);
        };
        certificates.push(certificate)?;
    }
    Ok(Some(certificates))
}

/// Whether each certificate is signed by the key of the next.
fn are_signed_in_turn(
    alloc: Global,
    budget: &mut Budget,
    certificates: &[Certificate<'_>],
) -> Result<bool, AllocError>
    requires { All WasRead certificates.now }
    ensures answer { IfOk result (λ are. IsTrue are
        ↔ AreSignedInTurn Signs (map facts_of certificates.now)) }
    ensures most { budget.new.most ≡ budget.old.most }
    ensures grows { budget.old.checked ≤ budget.new.checked }
{
    for place in 1..certificates.len() {
        if !is_signed_by(
            alloc,
            budget,
            &certificates[place - 1],
            &certificates[place],
        )? {
            return Ok(false);
        }
    }
    Ok(true)
}
