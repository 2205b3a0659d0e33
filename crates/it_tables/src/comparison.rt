//! Whether a row gets what it wants.
ghost use Rattle.std.specs.Prelude.{IfOk};
ghost use Rattle.serde_json.specs.View.{view};
ghost use Rattle.it_tables.specs.Comparison.{IsComparison};

use crate::row::text_in;
use crate::row_fault::RowFault;
use serde_json::Value;
use std::alloc::Global;

/// How what is given differs from what a row wants, its member `gives`, in words, or `None` where
/// the two are the same.
///
/// # Errors
///
/// `BadMember` where there is no such member, or it is no text; `OutOfMemory` where memory was
/// refused.
pub fn compare(alloc: Global, row: &Value, given: &str) -> Result<Option<String>, RowFault>
    ensures { IfOk result (IsComparison (view row.now) given.now) }
{
    let wanted = text_in(row, "gives")?;
    if given == wanted {
        return Ok(None);
    }
    Ok(Some(format!(in alloc; "gives {given:?} in place of {wanted:?}")?))
}
