//! What the libraries of Sigstore's documents answer. The call of a row begins with its subject.
mod bundles;
mod identities;
mod roots;

use it_tables::RowFault;
use serde_json::Value;
use std::alloc::Global;

/// What a call answers, by its subject.
pub(crate) fn answer(alloc: Global, call: &str, row: &Value) -> Result<String, RowFault> {
    match call {
        "bundle read" => bundles::read(alloc, row),
        "identity read" => identities::read(alloc, row),
        "identity name" => identities::name(alloc, row),
        "root read" => roots::read(alloc, row),
        _ => Err(RowFault::UnknownCall),
    }
}
