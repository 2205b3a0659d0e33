//! What a case wants of a verification.
ghost use Rattle.std.specs.Prelude.{IfOk};
ghost use Rattle.serde_json.specs.View.{view};

use crate::cases::parts::number_part;
use it_base::sequence::Sequence;
use it_tables::RowFault;
use it_tables::row::bytes_part;
use serde_json::Value;
use std::alloc::Global;

/// The report and the status that are wanted.
#[derive(Drop)]
pub(crate) struct Wanted {
    /// The bytes of the report.
    pub(crate) report: Sequence<u8>,
    /// The exit status.
    pub(crate) status: u8,
}

impl Wanted {
    ghost use Rattle.itv_cases.specs.Reading.{WantedOf};

    /// What the document of a case wants.
    ///
    /// # Errors
    ///
    /// `BadMember` with the name of the first member that is missing or malformed, `OutOfMemory`
    /// where memory was refused.
    pub(crate) fn of_case(alloc: Global, case: &Value) -> Result<Wanted, RowFault>
        ensures { IfOk result (WantedOf (view case.now)) }
    {
        Ok(Wanted {
            report: bytes_part(alloc, case, "report")?,
            status: number_part(case, "status")?,
        })
    }
}
