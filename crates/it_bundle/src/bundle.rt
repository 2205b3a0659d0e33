//! Bundles.
ghost use Rattle.std.specs.Prelude.{IfOk, codes};
ghost use Rattle.it_borrowed.specs.Tree.{as_data};
ghost use Rattle.it_base.specs.Document.{member_at};
ghost use Rattle.it_base.specs.Finds.{Finds};
ghost use Rattle.it_base.specs.Table.{Stands};
ghost use Rattle.it_bundle.specs.Bundle.{BundleOf, IsSigstoreBundle};
ghost use Rattle.it_bundle.specs.Material.{IsMaterial};

use crate::material::{Material, material_of};
use crate::version::BundleVersion;
use it_borrowed::document::member;
use it_borrowed::parts::{FromBorrowed, from_bytes, part};
use it_dsse::envelope::Envelope;
use json::Value;
use std::alloc::{AllocError, Global};

/// A bundle: an envelope with proof of who signed it.
#[derive(Drop)]
pub struct SigstoreBundle {
    /// The version, by the media type.
    pub version: BundleVersion,
    /// The envelope.
    pub envelope: Envelope,
    /// The proof of who signed it, where there is any.
    pub material: Option<Material>,
}

/// Reads a bundle from all of the bytes, such as a line of provenance; `None` where they are none.
/// A document that is an envelope is no bundle.
///
/// # Errors
///
/// `AllocError` where memory was refused.
pub fn read_bundle(alloc: Global, bytes: &[u8]) -> Result<Option<SigstoreBundle>, AllocError>
    ensures { IfOk result (Finds (BundleOf bytes.now)) }
{
    from_bytes::<SigstoreBundle>(alloc, bytes)
}

impl FromBorrowed for SigstoreBundle {
    ghost is_of = { IsSigstoreBundle };

    fn from_borrowed(
        alloc: Global,
        value: &Value<'_>,
    ) -> Result<Option<SigstoreBundle>, AllocError> {
        let None = Envelope::from_borrowed(alloc, value)? else {
            return Ok(None);
        };
        let Some(version) = part::<BundleVersion>(alloc, value, "mediaType")? else {
            return Ok(None);
        };
        let Some(envelope) = part::<Envelope>(alloc, value, "dsseEnvelope")? else {
            return Ok(None);
        };
        let material = material_in(alloc, version, value)?;
        Ok(Some(SigstoreBundle {
            version,
            envelope,
            material,
        }))
    }
}

/// The material, or that there is none.
fn material_in(
    alloc: Global,
    version: BundleVersion,
    value: &Value<'_>,
) -> Result<Option<Material>, AllocError>
    ensures { IfOk result (Stands (IsMaterial version)
        (member_at (codes "verificationMaterial") (as_data value.now))) }
{
    match member(value, "verificationMaterial") {
        None => Ok(None),
        Some(found) => Ok(Some(material_of(alloc, version, found)?)),
    }
}
