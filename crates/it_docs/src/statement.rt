//! Statements and their provenance (in-toto Attestation Statement v1, SLSA Provenance v1).
ghost use Rattle.std.specs.Prelude.{◌≡◌, IfOk, IsErrOf};
ghost use Rattle.json.specs.Value.{items_view};
ghost use Rattle.it_borrowed.specs.Tree.{as_data, data_of_items};
ghost use Rattle.it_base.specs.Finds.{Finds};
ghost use Rattle.it_base.specs.Parts.{IsPart};
ghost use Rattle.it_base.specs.Sequence.{AreEach, IsList};
ghost use Rattle.it_docs.specs.Statement.{IsBuilder, IsProvenance, IsProvenanceOf, IsStatement};
ghost use Rattle.it_docs.specs.Statement.{IsSubject, IsSubjects, StatementOf};

use crate::fault::DocumentFault;
use it_base::sequence::Sequence;
use it_base::text::Text;
use it_base::tree::Members;
use it_borrowed::document::{is_object, member};
use it_borrowed::items::items_of;
use it_borrowed::parts::{FromBorrowed, from_bytes, part, part_or};
use it_borrowed::text::has_text;
use it_digest::compare::DigestSet;
use it_digest::digest::digest_set;
use json::Value;
use std::alloc::{AllocError, Global};

/// How an artifact was built.
#[derive(Drop)]
pub struct Provenance {
    /// The kind of build.
    pub build_type: Text,
    /// The id of the builder.
    pub builder: Text,
    /// The external parameters.
    pub parameters: Members,
}

/// A statement about some artifacts.
#[derive(Drop)]
pub struct Statement {
    /// The digests of the subjects, in order.
    pub subjects: Sequence<DigestSet>,
    /// The kind of predicate.
    pub predicate_type: Text,
    /// The provenance, where the predicate is provenance.
    pub provenance: Option<Provenance>,
}

/// Reads a Statement. The names of subjects are ignored.
///
/// # Errors
///
/// `BadDocument` where the bytes are not a Statement, and `OutOfMemory` where memory was refused. A
/// predicate that is not provenance is not an error: the Statement then has none.
pub fn read_statement(alloc: Global, bytes: &[u8]) -> Result<Statement, DocumentFault>
    ensures ok { IfOk result (λ statement. StatementOf bytes.now statement) }
    ensures bad { IsErrOf result DocumentFault.BadDocument
        → (statement : _) → ¬ StatementOf bytes.now statement }
{
    from_bytes::<Statement>(alloc, bytes)?.ok_or(DocumentFault::BadDocument)
}

impl FromBorrowed for Statement {
    ghost is_of = { IsStatement };

    fn from_borrowed(alloc: Global, value: &Value<'_>) -> Result<Option<Statement>, AllocError> {
        if !has_text(value, "_type", "https://in-toto.io/Statement/v1") {
            return Ok(None);
        }
        let Some(subjects) = subjects_of(alloc, value)? else {
            return Ok(None);
        };
        let Some(predicate_type) = part::<Text>(alloc, value, "predicateType")? else {
            return Ok(None);
        };
        let provenance = read_provenance(alloc, value)?;
        Ok(Some(Statement {
            subjects,
            predicate_type,
            provenance,
        }))
    }
}

impl FromBorrowed for Provenance {
    ghost is_of = { IsProvenance };

    fn from_borrowed(alloc: Global, value: &Value<'_>) -> Result<Option<Provenance>, AllocError> {
        let Some(definition) = member(value, "buildDefinition") else {
            return Ok(None);
        };
        let Some(build_type) = part::<Text>(alloc, definition, "buildType")? else {
            return Ok(None);
        };
        let no_parameters = Members::new(alloc);
        let Some(parameters) = part_or(alloc, definition, "externalParameters", no_parameters)?
        else {
            return Ok(None);
        };
        let Some(builder) = builder_id(alloc, value)? else {
            return Ok(None);
        };
        Ok(Some(Provenance {
            build_type,
            builder,
            parameters,
        }))
    }
}

fn builder_id(alloc: Global, value: &Value<'_>) -> Result<Option<Text>, AllocError>
    ensures { IfOk result (Finds (IsBuilder (as_data value.now))) }
{
    let Some(details) = member(value, "runDetails") else {
        return Ok(None);
    };
    let Some(builder) = member(details, "builder") else {
        return Ok(None);
    };
    part::<Text>(alloc, builder, "id")
}

fn read_provenance(alloc: Global, value: &Value<'_>) -> Result<Option<Provenance>, AllocError>
    ensures { IfOk result (Finds (IsProvenanceOf (as_data value.now))) }
{
    if !has_text(value, "predicateType", "https://slsa.dev/provenance/v1") {
        return Ok(None);
    }
    part::<Provenance>(alloc, value, "predicate")
}

fn subjects_of(alloc: Global, value: &Value<'_>) -> Result<Option<Sequence<DigestSet>>, AllocError>
    ensures { IfOk result (Finds (IsSubjects (as_data value.now))) }
{
    match member(value, "subject").and_then(items_of) {
        None => Ok(None),
        Some(items) => read_subjects(alloc, items),
    }
}

fn read_subjects(
    alloc: Global,
    items: &Vec<Value<'_>>,
) -> Result<Option<Sequence<DigestSet>>, AllocError>
    ensures { IfOk result (Finds (AreEach IsSubject (data_of_items (items_view items.now.items)))) }
{
    let mut subjects = Vec::new(alloc);
    for item in items {
        let Some(digests) = subject(item) else {
            return Ok(None);
        };
        subjects.push(digests)?;
    }
    Ok(Some(Sequence::from(subjects)))
}

/// The digests of a subject, empty where it has no digest set.
fn subject(value: &Value<'_>) -> Option<DigestSet>
    ensures { Finds (IsSubject (as_data value.now)) result }
{
    if !is_object(value) {
        return None;
    }
    match member(value, "digest") {
        None => Some(DigestSet {
            sha256: None,
            sha384: None,
            sha512: None,
        }),
        Some(found) => digest_set(found),
    }
}
