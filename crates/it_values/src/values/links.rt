//! How links are read.
use crate::values::artifacts;
use it_docs::link::{Link, read_link};
use it_tables::RowFault;
use it_tables::row::member_in;
use serde_json::Value;
use std::alloc::{AllocError, Global};

/// What a call on the link in the document of a row answers.
pub(crate) fn answer(alloc: Global, call: &str, row: &Value) -> Result<String, RowFault> {
    let text = member_in(row, "document")?.to_string(alloc)?;
    match call {
        "reads" => Ok(read_link(alloc, text.as_bytes()).is_ok().to_string(alloc)?),
        "read" => read(alloc, text.as_bytes()),
        _ => Err(RowFault::UnknownCall),
    }
}

fn read(alloc: Global, bytes: &[u8]) -> Result<String, RowFault> {
    match read_link(alloc, bytes) {
        Ok(link) => Ok(told(alloc, &link)?),
        Err(fault) => Ok(format!(in alloc; "{fault:?}")?),
    }
}

/// The name of a link, its materials and its products.
fn told(alloc: Global, link: &Link) -> Result<String, AllocError> {
    let name = link.name.as_str();
    let materials = artifacts::told(alloc, &link.materials)?;
    let products = artifacts::told(alloc, &link.products)?;
    format!(in alloc; "{name} from ({materials}) to ({products})")
}
