//! Which vectors of tables agree.
ghost use Rattle.it_leaf_vectors.specs.Agreement.{IsDifference};

use crate::found::find;
use crate::vector::Vector;
use it_base::parts::FromDocument;
use it_tables::{RowFault, Trial};
use serde_json::Value;
use std::alloc::Global;

/// Tries vectors.
pub(crate) struct Vectors;

impl Trial for Vectors {
    ghost is_difference = { IsDifference };

    fn difference(&self, alloc: Global, document: &Value) -> Result<Option<String>, RowFault> {
        let vector = Vector::from_document(alloc, document)?;
        let vector = vector.ok_or(RowFault::Malformed("vector"))?;
        let found = find(alloc, &vector)?;
        if found.agrees(vector.wanted) {
            return Ok(None);
        }
        let name = vector.name.as_str();
        let issued = found.issued;
        let logged = found.logged;
        Ok(Some(format!(in alloc; "({name}) issued: {issued}, logged: {logged}")?))
    }
}
