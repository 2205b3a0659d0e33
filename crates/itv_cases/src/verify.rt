//! The outcomes of rules, folders of links, chains, provenance and whole verifications. What whole
//! verifications report is in the cases.
mod chains;
mod cuts;
mod folders;
mod inputs;
mod provenance;
mod rules;
mod trusting;
mod verifications;
mod written;

use it_tables::RowFault;
use serde_json::Value;
use std::alloc::Global;

/// What a call of the libraries of verifications answers.
pub(crate) fn answer(alloc: Global, call: &str, row: &Value) -> Result<String, RowFault> {
    match call {
        "front" => rules::front(alloc, row),
        "rules" => rules::first_fault(alloc, row),
        "folder" => folders::has_folder(alloc, row),
        "second folder" => folders::second_folder(alloc, row),
        "chain" => chains::chain(alloc, row),
        "provenance" => provenance::provenance(alloc, row),
        "asked" => verifications::asked(alloc, row),
        "trusting" => trusting::report_beside_ring(alloc, row),
        "cuts" => cuts::answer_of_cuts(alloc, row),
        "written" => written::written_in_each_room(alloc, row),
        _ => Err(RowFault::UnknownCall),
    }
}
