//! How Statements are read.
use crate::values::digests;
use crate::values::trees::members_told;
use it_digest::compare::DigestSet;
use it_docs::statement::{Provenance, Statement, read_statement};
use it_tables::RowFault;
use it_tables::row::member_in;
use serde_json::Value;
use std::alloc::{AllocError, Global};

/// What a call on the Statement in the document of a row answers.
pub(crate) fn answer(alloc: Global, call: &str, row: &Value) -> Result<String, RowFault> {
    let text = member_in(row, "document")?.to_string(alloc)?;
    match call {
        "reads" => Ok(
            read_statement(alloc, text.as_bytes())
                .is_ok()
                .to_string(alloc)?,
        ),
        "read" => read(alloc, text.as_bytes()),
        _ => Err(RowFault::UnknownCall),
    }
}

fn read(alloc: Global, bytes: &[u8]) -> Result<String, RowFault> {
    match read_statement(alloc, bytes) {
        Ok(statement) => Ok(told(alloc, &statement)?),
        Err(fault) => Ok(format!(in alloc; "{fault:?}")?),
    }
}

/// The digests of the subjects of a Statement, its predicate type, and its provenance.
fn told(alloc: Global, statement: &Statement) -> Result<String, AllocError> {
    let subjects = subjects_told(alloc, statement.subjects.as_slice())?;
    let kind = statement.predicate_type.as_str();
    match &statement.provenance {
        Some(provenance) => {
            let provenance = provenance_told(alloc, provenance)?;
            format!(in alloc; "({subjects}) {kind} {provenance}")
        }
        None => format!(in alloc; "({subjects}) {kind} none"),
    }
}

fn subjects_told(alloc: Global, subjects: &[DigestSet]) -> Result<String, AllocError> {
    let mut text = String::new(alloc);
    for digests in subjects {
        write!(text, "{};", digests::told(alloc, digests)?)?;
    }
    Ok(text)
}

/// The kind of build, the builder and the parameters of provenance.
fn provenance_told(alloc: Global, provenance: &Provenance) -> Result<String, AllocError> {
    let kind = provenance.build_type.as_str();
    let builder = provenance.builder.as_str();
    let parameters = members_told(alloc, &provenance.parameters)?;
    format!(in alloc; "built as {kind} by {builder} with ({parameters})")
}
