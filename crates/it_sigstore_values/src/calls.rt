//! What the calls of rows give. A row's member `call` names the call; the other members are what it
//! takes, and `gives` is what it must give.
ghost use Rattle.it_tables.specs.Comparison.{IsRowDifference};

use crate::values;
use it_tables::comparison::compare;
use it_tables::row::text_in;
use it_tables::{RowFault, Trial};
use serde_json::Value;
use std::alloc::Global;

/// Tries rows by their calls.
pub(crate) struct Calls;

impl Trial for Calls {
    ghost is_difference = { IsRowDifference };

    fn difference(&self, alloc: Global, row: &Value) -> Result<Option<String>, RowFault> {
        let given = values::answer(alloc, text_in(row, "call")?, row)?;
        compare(alloc, row, given.as_str())
    }
}
