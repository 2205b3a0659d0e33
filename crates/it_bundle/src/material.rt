//! What a bundle holds besides its envelope.
ghost use Rattle.std.specs.Prelude.{IfOk};
ghost use Rattle.it_borrowed.specs.Tree.{as_data};
ghost use Rattle.it_bundle.specs.Material.{IsMaterial};

use crate::certificate::{BundleCertificate, certificate_of};
use crate::entries::{BundleEntries, entries_of};
use crate::version::BundleVersion;
use json::Value;
use std::alloc::{AllocError, Global};

/// The proof of who signed an envelope.
#[derive(Drop)]
pub struct Material {
    /// The certificate of who signed.
    pub certificate: BundleCertificate,
    /// The entries of transparency logs about the signature.
    pub entries: BundleEntries,
}

/// What is read of the material of a bundle of a version.
///
/// # Errors
///
/// `AllocError` where memory was refused.
pub(crate) fn material_of(
    alloc: Global,
    version: BundleVersion,
    value: &Value<'_>,
) -> Result<Material, AllocError>
    ensures { IfOk result (IsMaterial version (as_data value.now)) }
{
    Ok(Material {
        certificate: certificate_of(alloc, version, value)?,
        entries: entries_of(alloc, value)?,
    })
}
