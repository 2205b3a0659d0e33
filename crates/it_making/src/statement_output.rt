//! `itv statement`: a Statement that carries provenance (in-toto Attestation, Statement v1; SLSA
//! Provenance v1).
ghost use Rattle.std.specs.Prelude.{◌≡◌, ◌≢◌, IfErr, IfOk, IsErrOf};
ghost use Rattle.std.specs.Io.KnownBytes.{Appends};
ghost use Rattle.std.specs.Option.{option_copied};
ghost use Rattle.serde_json.specs.View.{view};
ghost use Rattle.it_base.specs.Writing.{AppendsBeginning};
ghost use Rattle.it_making.specs.StatementOutput.{AreSubjects, IsStatementFault, IsStatementOutput};
ghost use Rattle.it_making.specs.StatementOutput.{provenance_document};
ghost use Rattle.it_making.specs.inside.StatementParts.{IsSubjectsFault};

use crate::parameters::parameters_of;
use crate::statement_text::statement_line;
use crate::subjects::subjects_value;
use it_digest::artifacts::Artifacts;
use it_digest::sums::{SumsFault, read_sums};
use it_outcome::output::put_text;
use it_outcome::{RunFault, Status};
use serde_json::{Value, json};
use std::alloc::{AllocError, Global};
use std::io::Write;

/// The predicate type of provenance (SLSA Provenance v1).
const PROVENANCE: &str = "https://slsa.dev/provenance/v1";

/// What a Statement is made of.
#[derive(Clone, Copy)]
pub struct StatementParts<'a> {
    /// The bytes of a digest list, with a line for each subject.
    pub subjects: &'a [u8],
    /// The kind of build.
    pub build_type: &'a str,
    /// The id of the builder.
    pub builder: &'a str,
    /// The external parameters, as the bytes of a JSON object; `None` if there are none.
    pub parameters: Option<&'a [u8]>,
}

/// Writes a Statement that carries provenance (in-toto Attestation, Statement v1; SLSA Provenance
/// v1) and a line feed: compact JSON with the members in the order of their bytes, the subjects in
/// the order of their paths' bytes with SHA-256 in lower-case hexadecimal digits, and the external
/// parameters as they were read: a number with a fraction, an exponent or more than 64 bits is
/// written as the 64-bit floating-point number that it was read as, so that `1.10` becomes `1.1`.
/// What is written reads back as that very Statement. The answer is `Good`.
///
/// # Errors
///
/// `BadSubjects` with the first bad line of the subjects, and, where they are good, `NoSubjects`
/// where there is none, and then `BadParameters` where the parameters are not a JSON object, or
/// nest deeper than 124 levels; `OutOfMemory` where memory was refused. Nothing went out in these
/// cases. `Write` where the output could not be written; a beginning of it went out.
pub fn run_statement<W: Write>(
    alloc: Global,
    parts: &StatementParts<'_>,
    out: &mut W,
) -> Result<Status, RunFault>
    ensures ok { IfOk result (λ status. (status ≡ Status.Good) × (text : _)
        × IsStatementOutput parts.now.subjects.now parts.now.build_type.now parts.now.builder.now
        (option_copied parts.now.parameters) text
        × Appends (W.contents out.old) (W.contents out.new) text) }
    ensures write { IsErrOf result RunFault.Write → (text : _)
        × IsStatementOutput parts.now.subjects.now parts.now.build_type.now parts.now.builder.now
        (option_copied parts.now.parameters) text
        × AppendsBeginning (W.contents out.old) (W.contents out.new) text }
    ensures nothing { IfErr result (λ fault. fault ≢ RunFault.Write → out.new ≡ out.old) }
    ensures faults { IfErr result
        (IsStatementFault parts.now.subjects.now (option_copied parts.now.parameters)) }
{
    let text = statement_text(alloc, parts)?;
    put_text(out, text.as_slice())
}

fn statement_text(alloc: Global, parts: &StatementParts<'_>) -> Result<Vec<u8>, RunFault>
    ensures ok { IfOk result (λ text. IsStatementOutput parts.now.subjects.now
        parts.now.build_type.now parts.now.builder.now (option_copied parts.now.parameters)
        text.items) }
    ensures err { IfErr result (λ fault. (fault ≢ RunFault.Write)
        × IsStatementFault parts.now.subjects.now (option_copied parts.now.parameters) fault) }
{
    let subjects = subjects_of(alloc, parts.subjects)?;
    let parameters = parameters_of(alloc, parts.parameters)?;
    let predicate = provenance_value(alloc, parts.build_type, parts.builder, parameters)?;
    let listed = subjects_value(alloc, &subjects)?;
    let text = statement_line(alloc, listed, PROVENANCE, predicate)?;
    Ok(text)
}

/// The subjects of a digest list, at least one.
fn subjects_of(alloc: Global, bytes: &[u8]) -> Result<Artifacts, RunFault>
    ensures ok { IfOk result (AreSubjects bytes.now) }
    ensures err { IfErr result (IsSubjectsFault bytes.now) }
{
    match read_sums(alloc, bytes) {
        Ok(sums) if sums.is_empty() => Err(RunFault::NoSubjects),
        Ok(sums) => Ok(sums),
        Err(SumsFault::BadSums(line)) => Err(RunFault::BadSubjects(line)),
        Err(SumsFault::OutOfMemory) => Err(RunFault::OutOfMemory),
    }
}

fn provenance_value(
    alloc: Global,
    build_type: &str,
    builder: &str,
    parameters: Value,
) -> Result<Value, AllocError>
    ensures { IfOk result (λ value. view value
        ≡ provenance_document build_type.now builder.now (view parameters)) }
{
    json!(in alloc; {
        "buildDefinition": {"buildType": build_type, "externalParameters": parameters},
        "runDetails": {"builder": {"id": builder}}
    })
}
