//! Whether an authority issued a leaf, or which condition the leaf misses.
ghost use Rattle.std.specs.Prelude.{◌≡◌, ◌↔◌, ◌*◌, ◌≤◌, pos, IfOk, IsTrue, All, map};
ghost use Rattle.std.specs.List.{AllByRecursion};
ghost use Rattle.it_certificate.specs.Authority.{IsValidAt};
ghost use Rattle.it_certificate.specs.Certificate.{facts_of};
ghost use Rattle.it_certificate_log.specs.Bare.{WasRead};
ghost use Rattle.it_issued.specs.IssueMisses.{IsIssueShortfall};
ghost use Rattle.it_log.specs.Window.{LiesIn};

use crate::authority::UsableAuthority;
use crate::shortfall::IssueShortfall;
use crate::signature::is_signed_by;
use it_budget::Budget;
use it_certificate::Certificate;
use it_log::Window;
use std::alloc::{AllocError, Global};

/// Nanoseconds in a second.
const NANOSECONDS: i128 = 1_000_000_000;

/// The condition that a leaf misses where an authority did not issue it, at a moment in seconds
/// since 1970-01-01T00:00:00Z. `None` where the authority issued it: the first of its certificates
/// is named by the leaf and signed it, and at that moment the authority was trusted, and the leaf
/// and each of the certificates was valid. The signature is looked at last.
///
/// # Errors
///
/// `AllocError` where memory was refused, or where the budget has no check left.
pub fn issue_shortfall(
    alloc: Global,
    budget: &mut Budget,
    authority: &UsableAuthority<'_>,
    leaf: &Certificate<'_>,
    moment: u64,
) -> Result<Option<IssueShortfall>, AllocError>
    requires authority_read { All WasRead authority.now.certificates.items }
    requires leaf_read { WasRead leaf.now }
    ensures answer { IfOk result (IsIssueShortfall
        (map facts_of authority.now.certificates.items) authority.now.window (facts_of leaf.now)
        moment) }
    ensures most { budget.new.most ≡ budget.old.most }
    ensures grows { budget.old.checked ≤ budget.new.checked }
{
    let certificates = authority.certificates.as_slice();
    let Some(issuer) = certificates.first() else {
        return Ok(Some(IssueShortfall::Name));
    };
    if !is_named(leaf, issuer) {
        return Ok(Some(IssueShortfall::Name));
    }
    if !is_trusted(&authority.window, moment) {
        return Ok(Some(IssueShortfall::Window));
    }
    if !is_valid(leaf, moment) {
        return Ok(Some(IssueShortfall::LeafTime));
    }
    if !are_valid(certificates, moment) {
        return Ok(Some(IssueShortfall::AuthorityTime));
    }
    if !is_signed_by(alloc, budget, leaf, issuer)? {
        return Ok(Some(IssueShortfall::Signature));
    }
    Ok(None)
}

fn is_trusted(window: &Window, moment: u64) -> bool
    ensures { IsTrue result ↔ LiesIn window.now (pos (1_000_000_000 * moment)) }
{
    window.contains(NANOSECONDS * i128::from(moment))
}

/// Whether a certificate was valid at a moment.
fn is_valid(certificate: &Certificate<'_>, moment: u64) -> bool
    ensures { IsTrue result ↔ IsValidAt (pos moment) (facts_of certificate.now) }
{
    let moment = i128::from(moment);
    if moment < i128::from(certificate.validity.first.seconds) {
        return false;
    }
    moment <= i128::from(certificate.validity.last.seconds)
}

fn are_valid(certificates: &[Certificate<'_>], moment: u64) -> bool
    ensures { IsTrue result
        ↔ AllByRecursion (IsValidAt (pos moment)) (map facts_of certificates.now) }
{
    for certificate in certificates {
        if !is_valid(certificate, moment) {
            return false;
        }
    }
    true
}

/// Whether a certificate names another as its issuer.
fn is_named(certificate: &Certificate<'_>, issuer: &Certificate<'_>) -> bool
    ensures { IsTrue result ↔ (certificate.now.parts.issuer.now ≡ issuer.now.parts.subject.now) }
{
    certificate.parts.issuer == issuer.parts.subject
}
