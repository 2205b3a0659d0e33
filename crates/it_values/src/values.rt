//! What the libraries of patterns, digests, envelopes and documents answer. The call of a row
//! begins with its subject.
mod artifacts;
mod codes;
mod digests;
mod documents;
mod envelopes;
mod layouts;
mod links;
mod parts;
mod patterns;
mod policies;
mod rings;
mod rules;
mod signers;
mod signing_ring;
mod statements;
mod told;
mod trees;
mod writing;

use it_tables::RowFault;
use serde_json::Value;
use std::alloc::Global;

/// What a call answers, by its subject.
pub(crate) fn answer(alloc: Global, call: &str, row: &Value) -> Result<String, RowFault> {
    let (subject, call) = call.split_once(' ').ok_or(RowFault::UnknownCall)?;
    match subject {
        "pattern" => patterns::answer(alloc, call, row),
        "document" => documents::answer(alloc, call, row),
        "part" => parts::answer(alloc, call, row),
        "writing" => writing::answer(alloc, call, row),
        "digest" => digests::answer(alloc, call, row),
        "artifacts" => artifacts::answer(alloc, call, row),
        "envelope" => envelopes::answer(alloc, call, row),
        "code" => codes::answer(alloc, call, row),
        "ring" => rings::answer(alloc, call, row),
        "signers" => signers::answer(alloc, call, row),
        "rule" => rules::answer(alloc, call, row),
        "link" => links::answer(alloc, call, row),
        "layout" => layouts::answer(alloc, call, row),
        "policy" => policies::answer(alloc, call, row),
        "statement" => statements::answer(alloc, call, row),
        "tree" => trees::answer(alloc, call, row),
        _ => Err(RowFault::UnknownCall),
    }
}
