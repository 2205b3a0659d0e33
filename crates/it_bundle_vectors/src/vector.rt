//! A vector, as a line has it.
ghost use Rattle.serde_json.specs.View.{view};
ghost use Rattle.it_base.specs.Finds.{Finds};
ghost use Rattle.it_base.specs.Parts.{IsPart};
ghost use Rattle.it_tables.specs.Part.{IsBoolean};

use it_base::document::member;
use it_base::parts::{FromDocument, part};
use it_base::text::Text;
use serde_json::Value;
use std::alloc::{AllocError, Global};

/// A bundle, and whom it is to vouch for.
#[derive(Drop)]
pub(crate) struct Vector {
    /// The name, by which readers tell vectors apart.
    pub(crate) name: Text,
    /// The text of the trusted root.
    pub(crate) root: Text,
    /// The line that is to be a bundle.
    pub(crate) line: Text,
    /// The name of the identity.
    pub(crate) identity: Text,
    /// Its issuer.
    pub(crate) issuer: Text,
    /// Whether the bundle should vouch for the identity.
    pub(crate) vouches: bool,
}

impl FromDocument for Vector {
    ghost use Rattle.it_bundle_vectors.specs.Vector.{IsVector};

    ghost is_of = { IsVector };

    fn from_document(alloc: Global, document: &Value) -> Result<Option<Vector>, AllocError> {
        let Some(name) = part::<Text>(alloc, document, "name")? else {
            return Ok(None);
        };
        let Some(root) = part::<Text>(alloc, document, "root")? else {
            return Ok(None);
        };
        let Some(line) = part::<Text>(alloc, document, "line")? else {
            return Ok(None);
        };
        let Some(identity) = part::<Text>(alloc, document, "identity")? else {
            return Ok(None);
        };
        let Some(issuer) = part::<Text>(alloc, document, "issuer")? else {
            return Ok(None);
        };
        let Some(vouches) = boolean_part(document, "vouches") else {
            return Ok(None);
        };
        Ok(Some(Vector {
            name,
            root,
            line,
            identity,
            issuer,
            vouches,
        }))
    }
}

/// The truth value that a member is.
fn boolean_part(document: &Value, name: &str) -> Option<bool>
    ensures { Finds (IsPart IsBoolean name.now (view document.now)) result }
{
    member(document, name)?.as_bool()
}
