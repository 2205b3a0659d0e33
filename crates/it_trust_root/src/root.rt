//! Trusted roots.
ghost use Rattle.std.specs.Prelude.{◌≡◌, ◌↔◌, IfErr, IfOk, IsTrue, MatchResult};
ghost use Rattle.it_borrowed.specs.Tree.{as_data};
ghost use Rattle.it_base.specs.Finds.{Finds};
ghost use Rattle.it_trust_root.specs.Root.{IsMediaType, IsRoot, RootOf};
ghost use Rattle.it_trust_root.specs.RootPart.{RootPartOf};
ghost use Rattle.it_trust_root.specs.inside.ListFaults.{IsRootFault};
ghost use Rattle.it_trust_root.specs.declared.root_part.RootPart.{RootPart as Part};

use crate::authority::Authority;
use crate::root_log::RootLog;
use crate::root_part::{RootFault, RootList, RootPart};
use crate::short_list::short_list;
use it_base::sequence::Sequence;
use it_borrowed::document::{is_object, read_document};
use it_borrowed::parts::{FromBorrowed, from_bytes};
use it_borrowed::text::has_text;
use json::{Scratch, Value};
use std::alloc::{AllocError, Global};

/// Who is trusted, and when.
#[derive(Drop)]
pub struct TrustedRoot {
    /// The logs of entries.
    pub logs: Sequence<RootLog>,
    /// The authorities, not looked at yet.
    pub authorities: Sequence<Authority>,
    /// The logs of certificates.
    pub certificate_logs: Sequence<RootLog>,
}

/// Reads a trusted root from all of the bytes; `None` where they are none.
///
/// # Errors
///
/// `AllocError` where memory was refused.
pub fn read_root(alloc: Global, bytes: &[u8]) -> Result<Option<TrustedRoot>, AllocError>
    ensures { IfOk result (Finds (RootOf bytes.now)) }
{
    from_bytes::<TrustedRoot>(alloc, bytes)
}

/// Reads a trusted root from all of the bytes, or says why they are none.
///
/// # Errors
///
/// `BadRoot` with the first part that fails, and `OutOfMemory` where memory was refused.
pub fn root_or_fault(alloc: Global, bytes: &[u8]) -> Result<TrustedRoot, RootFault>
    ensures ok { IfOk result (λ root. RootOf bytes.now root) }
    ensures bad { IfErr result (λ e. (part : Part) → e ≡ RootFault.BadRoot part
        → RootPartOf bytes.now part) }
{
    let mut scratch = Scratch::new(alloc);
    match read_document(alloc, bytes, &mut scratch)? {
        Some(document) => root_of(alloc, &document),
        None => Err(RootFault::BadRoot(RootPart::Json)),
    }
}

impl FromBorrowed for TrustedRoot {
    ghost is_of = { IsRoot };

    /// The trusted root, where no part of it fails.
    fn from_borrowed(alloc: Global, value: &Value<'_>) -> Result<Option<TrustedRoot>, AllocError> {
        match root_of(alloc, value) {
            Ok(root) => Ok(Some(root)),
            Err(RootFault::BadRoot(_)) => Ok(None),
            Err(RootFault::OutOfMemory) => Err(AllocError),
        }
    }
}

fn root_of(alloc: Global, document: &Value<'_>) -> Result<TrustedRoot, RootFault>
    ensures { MatchResult result (IsRoot (as_data document.now))
        (IsRootFault (as_data document.now)) }
{
    if !is_object(document) {
        return Err(RootFault::BadRoot(RootPart::Json));
    }
    if !has_media_type(document) {
        return Err(RootFault::BadRoot(RootPart::MediaType));
    }
    let logs = short_list::<RootLog>(alloc, document, RootList::Logs)?;
    let authorities = short_list::<Authority>(alloc, document, RootList::Authorities)?;
    let certificate_logs = short_list::<RootLog>(alloc, document, RootList::CertificateLogs)?;
    Ok(TrustedRoot {
        logs,
        authorities,
        certificate_logs,
    })
}

fn has_media_type(value: &Value<'_>) -> bool
    ensures { IsTrue result ↔ IsMediaType (as_data value.now) }
{
    if has_text(
        value,
        "mediaType",
        "application/vnd.dev.sigstore.trustedroot+json;version=0.1",
    ) {
        return true;
    }
    has_text(
        value,
        "mediaType",
        "application/vnd.dev.sigstore.trustedroot.v0.1+json",
    )
}
