//! Which vectors of tables agree.
ghost use Rattle.it_vectors.specs.Agreement.{IsDifference};

use crate::vector::Vector;
use it_base::parts::FromDocument;
use it_tables::{RowFault, Trial};
use serde_json::Value;
use std::alloc::Global;

/// Tries vectors.
pub(crate) struct Vectors;

impl Trial for Vectors {
    ghost is_difference = { IsDifference };

    fn difference(&self, alloc: Global, document: &Value) -> Result<Option<String>, RowFault> {
        let vector = Vector::from_document(alloc, document)?;
        let vector = vector.ok_or(RowFault::Malformed("vector"))?;
        let agrees = vector.agrees(alloc)?;
        if agrees {
            return Ok(None);
        }
        let name = vector.name.as_str();
        let given = if vector.wanted {
            "does not hold"
        } else {
            "holds"
        };
        Ok(Some(format!(in alloc; "({name}) {given}")?))
    }
}
