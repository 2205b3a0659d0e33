//! Links: the materials and products of a step (in-toto 1.0 section 4.4).
ghost use Rattle.std.specs.Prelude.{◌≡◌, ◌↔◌, IfOk, IsErrOf, IsTrue};
ghost use Rattle.it_base.specs.Finds.{Finds};
ghost use Rattle.it_docs.specs.Link.{IsLink, LinkOf};

use crate::fault::DocumentFault;
use it_base::text::Text;
use it_borrowed::parts::{FromBorrowed, from_bytes, part, part_or};
use it_borrowed::text::has_text;
use it_digest::artifacts::Artifacts;
use json::Value;
use std::alloc::{AllocError, Global};

/// The materials and products of a step.
#[derive(Drop)]
pub struct Link {
    /// The name of the step.
    pub name: Text,
    /// The files that the step used, with their digests.
    pub materials: Artifacts,
    /// The files that the step made, with their digests.
    pub products: Artifacts,
}

/// Reads a link: the body of a link's envelope, or the record of an inspection. The command, the
/// byproducts and the environment are ignored.
///
/// # Errors
///
/// `BadDocument` where the bytes are not a link, and `OutOfMemory` where memory was refused.
pub fn read_link(alloc: Global, bytes: &[u8]) -> Result<Link, DocumentFault>
    ensures ok { IfOk result (λ link. LinkOf bytes.now link) }
    ensures bad { IsErrOf result DocumentFault.BadDocument
        → (link : _) → ¬ LinkOf bytes.now link }
{
    from_bytes::<Link>(alloc, bytes)?.ok_or(DocumentFault::BadDocument)
}

impl FromBorrowed for Link {
    ghost is_of = { IsLink };

    fn from_borrowed(alloc: Global, value: &Value<'_>) -> Result<Option<Link>, AllocError> {
        if !has_text(value, "_type", "link") {
            return Ok(None);
        }
        let Some(name) = part::<Text>(alloc, value, "name")? else {
            return Ok(None);
        };
        let Some(materials) = part_or(alloc, value, "materials", Artifacts::new(alloc))? else {
            return Ok(None);
        };
        let Some(products) = part_or(alloc, value, "products", Artifacts::new(alloc))? else {
            return Ok(None);
        };
        Ok(Some(Link {
            name,
            materials,
            products,
        }))
    }
}
