//! Cases: whole verifications, each with the answer that is wanted.
ghost use Rattle.std.specs.Prelude.{IfOk};
ghost use Rattle.serde_json.specs.View.{view};
ghost use Rattle.itv_cases.specs.Agreement.{IsCaseDifference};

mod answer;
pub(crate) mod case;
mod difference_text;
pub(crate) mod links;
pub(crate) mod parts;
mod run;
mod wanted;

use crate::cases::case::Case;
use crate::cases::difference_text::difference_text;
use it_tables::RowFault;
use serde_json::Value;
use std::alloc::Global;

/// What a verification gives in place of what its case wants, in words, or `None` if it gives what
/// is wanted.
///
/// # Errors
///
/// `BadMember` with the name of the first member that is missing or malformed, `OutOfMemory` where
/// memory was refused.
pub(crate) fn difference(alloc: Global, document: &Value) -> Result<Option<String>, RowFault>
    ensures { IfOk result (IsCaseDifference (view document.now)) }
{
    let case = Case::read(alloc, document)?;
    let run = case.run(alloc)?;
    if run.agrees() {
        return Ok(None);
    }
    Ok(Some(difference_text(alloc, &run)?))
}
