//! Which documents of tables agree: cases, and rows, which have a member `call`.
ghost use Rattle.itv_cases.specs.Agreement.{IsDifference};

use crate::{cases, verify};
use it_base::document::member;
use it_tables::comparison::compare;
use it_tables::row::text_in;
use it_tables::{RowFault, Trial};
use serde_json::Value;
use std::alloc::Global;

/// Tries cases, and rows by their calls.
pub(crate) struct Lines;

impl Trial for Lines {
    ghost is_difference = { IsDifference };

    fn difference(&self, alloc: Global, document: &Value) -> Result<Option<String>, RowFault> {
        if member(document, "call").is_none() {
            return cases::difference(alloc, document);
        }
        let given = verify::answer(alloc, text_in(document, "call")?, document)?;
        compare(alloc, document, given.as_str())
    }
}
