//! Which extensions a certificate may have.
ghost use Rattle.std.specs.Prelude.{◌≡◌, ◌↔◌, IfOk, IsTrue, MatchOption, map};
ghost use Rattle.std.specs.List.{IsDistinct, list_all};
ghost use Rattle.std.specs.Str.{bytes_eq};
ghost use Rattle.it_certificate.specs.CertificateMissed.{ListedMiss};
ghost use Rattle.it_certificate.specs.Extension.{stated_of};
ghost use Rattle.it_certificate.specs.Permitted.{ArePermitted, is_known_if_critical};

use crate::extension::Extension;
use crate::identifiers::{NAME_CONSTRAINTS, is_known};
use crate::shortfall::ExtensionsShortfall;
use crate::values::value_of;
use std::alloc::{AllocError, Global};
use std::collections::BTreeSet;

/// The first condition that extensions miss where a certificate may not have them; `None` where it
/// may.
///
/// # Errors
///
/// `AllocError` where memory was refused.
pub(crate) fn permitted_shortfall(
    alloc: Global,
    extensions: &[Extension<'_>],
) -> Result<Option<ExtensionsShortfall>, AllocError>
    ensures { IfOk result (λ missed. MatchOption missed
        (ArePermitted (map stated_of extensions.now))
        (ListedMiss (map stated_of extensions.now))) }
{
    if value_of(extensions, &NAME_CONSTRAINTS).is_some() {
        return Ok(Some(ExtensionsShortfall::NameConstraints));
    }
    if !are_known(extensions) {
        return Ok(Some(ExtensionsShortfall::Critical));
    }
    if !are_distinct(alloc, extensions)? {
        return Ok(Some(ExtensionsShortfall::Twice));
    }
    Ok(None)
}

/// Whether no two extensions have one identifier.
fn are_distinct(alloc: Global, extensions: &[Extension<'_>]) -> Result<bool, AllocError>
    ensures { IfOk result (λ b. IsTrue b
        ↔ IsDistinct bytes_eq (map (λ e. e.id) (map stated_of extensions.now))) }
{
    let mut seen = BTreeSet::new(alloc);
    for extension in extensions {
        if !seen.insert(extension.id)? {
            return Ok(false);
        }
    }
    Ok(true)
}

/// Whether each critical extension is known.
fn are_known(extensions: &[Extension<'_>]) -> bool
    ensures { result ≡ list_all is_known_if_critical (map stated_of extensions.now) }
{
    for extension in extensions {
        if extension.critical && !is_known(extension.id) {
            return false;
        }
    }
    true
}
