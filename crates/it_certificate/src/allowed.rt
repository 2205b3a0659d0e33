//! The extensions of a certificate that is not refused for them.
ghost use Rattle.std.specs.Prelude.{IfOk, MatchResult, map};
ghost use Rattle.it_certificate.specs.Allowed.{AreAllowed};
ghost use Rattle.it_certificate.specs.CertificateMissed.{ExtensionsMiss};
ghost use Rattle.it_certificate.specs.Extension.{stated_of};

use crate::extension::Extension;
use crate::extensions::read_extensions;
use crate::known::{Known, known_in};
use crate::permitted::permitted_shortfall;
use crate::shortfall::ExtensionsShortfall;
use std::alloc::{AllocError, Global};

/// Extensions, and what is read of them.
#[derive(Drop)]
pub(crate) struct Allowed<'b> {
    pub(crate) all: Vec<Extension<'b>>,
    pub(crate) known: Known,
}

/// The extensions in the part of a certificate that has them, or the first condition that the part
/// misses.
///
/// # Errors
///
/// `AllocError` where memory was refused.
pub(crate) fn allowed_in(
    alloc: Global,
    content: &[u8],
) -> Result<Result<Allowed<'_>, ExtensionsShortfall>, AllocError>
    ensures { IfOk result (λ read. MatchResult read
        (λ a. AreAllowed content.now (map stated_of a.all.items) a.known)
        (ExtensionsMiss content.now)) }
{
    let Some(all) = read_extensions(alloc, content)? else {
        return Ok(Err(ExtensionsShortfall::Form));
    };
    if let Some(missed) = permitted_shortfall(alloc, &all)? {
        return Ok(Err(missed));
    }
    let Some(known) = known_in(alloc, &all)? else {
        return Ok(Err(ExtensionsShortfall::Values));
    };
    Ok(Ok(Allowed { all, known }))
}
