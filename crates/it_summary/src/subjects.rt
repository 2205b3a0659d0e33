//! The delivered files as the subjects of a Statement (in-toto Attestation, Statement v1).
ghost use Rattle.std.specs.Prelude.{◌≡◌, IfOk};
ghost use Rattle.serde_json.specs.View.{view};
ghost use Rattle.it_base.specs.Sequence.{IsList};
ghost use Rattle.it_docs.specs.Statement.{IsSubject};
ghost use Rattle.it_summary.specs.Summary.{digests_of, subjects_document};

use it_json_report::evidence::FileEvidence;
use it_making::subject_value;
use serde_json::Value;
use std::alloc::{AllocError, Global};

/// The JSON list of the delivered files, in their order: an object for each, with its path as name,
/// and its digest set.
pub(crate) fn subjects_value(alloc: Global, files: &[FileEvidence]) -> Result<Value, AllocError>
    ensures document { IfOk result (λ value. view value ≡ subjects_document files.now) }
    ensures reads_back { IfOk result
        (λ _. IsList IsSubject (subjects_document files.now) (digests_of files.now)) }
{
    let mut subjects = Vec::new(alloc);
    for file in files {
        subjects.push(subject_value(alloc, file.path.as_str(), &file.digests)?)?;
    }
    Ok(Value::from(subjects))
}
