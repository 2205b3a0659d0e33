//! Statements as texts (in-toto Attestation, Statement v1).
ghost use Rattle.std.specs.Prelude.{◌≡◌, IfOk};
ghost use Rattle.serde_json.specs.View.{view};
ghost use Rattle.it_making.specs.StatementOutput.{IsWritten, typed_document};

use serde_json::{Value, json};
use std::alloc::{AllocError, Global};

/// The text of a Statement (in-toto Attestation, Statement v1) about these `subjects`, with a
/// `predicate` of this type, and a line feed: compact JSON on one line, with the members of each
/// object in their order. What is written reads back as the same document, where it nests no deeper
/// than a document may.
///
/// # Errors
///
/// `AllocError` where memory was refused.
pub fn statement_line(
    alloc: Global,
    subjects: Value,
    predicate_type: &str,
    predicate: Value,
) -> Result<Vec<u8>, AllocError>
    ensures { IfOk result (λ text. IsWritten text.items
        (typed_document predicate_type.now (view subjects) (view predicate))) }
{
    let value = statement_value(alloc, subjects, predicate_type, predicate)?;
    let mut text = value.to_vec(alloc)?;
    text.push(b'\n')?;
    Ok(text)
}

fn statement_value(
    alloc: Global,
    subjects: Value,
    predicate_type: &str,
    predicate: Value,
) -> Result<Value, AllocError>
    ensures { IfOk result (λ value. view value
        ≡ typed_document predicate_type.now (view subjects) (view predicate)) }
{
    json!(in alloc; {
        "_type": "https://in-toto.io/Statement/v1",
        "predicate": predicate,
        "predicateType": predicate_type,
        "subject": subjects
    })
}
