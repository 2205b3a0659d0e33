//! The subjects of a Statement (in-toto Attestation, Statement v1).
ghost use Rattle.std.specs.Prelude.{◌≡◌, IfOk};
ghost use Rattle.std.specs.FinMap.{entries, values};
ghost use Rattle.serde_json.specs.View.{view};
ghost use Rattle.it_base.specs.Sequence.{IsList};
ghost use Rattle.it_digest.specs.Digest.{IsDigestSet};
ghost use Rattle.it_docs.specs.Statement.{IsSubject};
ghost use Rattle.it_making.specs.ArtifactDocuments.{digest_set_document};
ghost use Rattle.it_making.specs.StatementOutput.{subject_document, subjects_document};

use crate::digest_sets::digest_set_value;
use it_digest::artifacts::Artifacts;
use it_digest::compare::DigestSet;
use serde_json::{Value, json};
use std::alloc::{AllocError, Global};

/// The JSON list of the files of a map, in the order of their paths' bytes: an object for each,
/// with its path as name, and its digest set.
pub(crate) fn subjects_value(alloc: Global, artifacts: &Artifacts) -> Result<Value, AllocError>
    ensures document { IfOk result (λ value. view value ≡ subjects_document artifacts.now) }
    ensures reads_back { IfOk result
        (λ _. IsList IsSubject (subjects_document artifacts.now) (values artifacts.now)) }
{
    let mut subjects = Vec::new(alloc);
    for (path, digests) in artifacts.iter() {
        subjects.push(subject_value(alloc, path.as_str(), &digests.set())?)?;
    }
    Ok(Value::from(subjects))
}

/// A subject of a Statement (in-toto Attestation, Statement v1) as a JSON object: a file's path as
/// its name, and its digest set, in lower-case hexadecimal digits. What is made reads back as a
/// subject with that digest set.
///
/// # Errors
///
/// `AllocError` where memory was refused.
pub fn subject_value(alloc: Global, path: &str, digests: &DigestSet) -> Result<Value, AllocError>
    ensures document { IfOk result
        (λ value. view value ≡ subject_document (path.now, digests.now)) }
    ensures reads_back { IfOk result
        (λ _. IsDigestSet (digest_set_document digests.now) digests.now) }
{
    let digest = digest_set_value(alloc, digests)?;
    json!(in alloc; {"digest": digest, "name": path})
}
