//! Which vectors of tables agree.
ghost use Rattle.std.specs.Prelude.{◌≡◌, ◌↔◌, IsTrue};
ghost use Rattle.it_bundle_vectors.specs.Agreement.{IsDifference};

use crate::found::is_vouched_for;
use crate::vector::Vector;
use it_base::parts::FromDocument;
use it_tables::{RowFault, Trial};
use serde_json::Value;
use std::alloc::Global;

/// Tries vectors.
pub(crate) struct Vectors;

impl Trial for Vectors {
    ghost is_difference = { IsDifference };

    fn difference(&self, alloc: Global, document: &Value) -> Result<Option<String>, RowFault> {
        let vector = Vector::from_document(alloc, document)?;
        let vector = vector.ok_or(RowFault::Malformed("vector"))?;
        let found = is_vouched_for(alloc, &vector)?;
        if agrees(found, &vector) {
            return Ok(None);
        }
        let name = vector.name.as_str();
        Ok(Some(format!(in alloc; "({name}) vouches: {found}")?))
    }
}

/// Whether what was found is what is wanted of a vector.
fn agrees(found: bool, vector: &Vector) -> bool
    ensures { IsTrue result ↔ (found ≡ vector.now.vouches) }
{
    found == vector.vouches
}
