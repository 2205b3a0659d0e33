//! What stands for each delivered file (SLSA v1.0, verifying artifacts).
ghost use Rattle.std.specs.Prelude.{◌≡◌, IfOk, List, length, ℕ};
ghost use Rattle.std.specs.FinMap.{entries};
ghost use Rattle.std.specs.List.{AllZip};
ghost use Rattle.it_digest.specs.Sums.{lines_of};
ghost use Rattle.it_prov.specs.Held.{AreHeld};
ghost use Rattle.it_prov.specs.ProvenanceLines.{AreLinesOf, AreReadFrom};
ghost use Rattle.it_verify.specs.Grounds.{AreGrounds};
ghost use Rattle.it_verify.specs.declared.inputs.Inputs.{Inputs};
ghost use Rattle.it_file_evidence.specs.FileEvidence.{AreFileEvidence, IsFileEvidence};
ghost use Rattle.it_file_evidence.specs.inside.Proven.{AreEvidence};

use crate::evidence_of::evidence_of;
use crate::known_lines::KnownLines;
use it_base::optional::push_some;
use it_digest::artifacts::Artifacts;
use it_dsse::checks::Checks;
use it_json_report::evidence::FileEvidence;
use it_prov::asked_builders::AskedBuilders;
use it_prov::attestations::Attestations;
use it_verify::grounds::Grounds;
use it_vouched::Vouched;
use std::alloc::{AllocError, Global};

/// What stands for each delivered file of a verification that has provenance (SLSA v1.0, verifying
/// artifacts), in the order of the bytes of the paths: for every delivered file where the delivery
/// is accepted. The `grounds` hold what the inputs read as, and the lines of their provenance.
///
/// The line is the first of the provenance, from 1, that meets the expectation which speaks of the
/// file. The builder is the one that the provenance in this line names. The level is the greatest
/// that the expectation gives a builder of this id whose key signed the line. The signer is the
/// identity of a builder of this id that signed it by the first of the lines that vouches for this,
/// where one of those that are `vouched` does.
///
/// # Errors
///
/// `AllocError` where memory was refused, or where the checks refuse to check more signatures.
pub fn file_evidence<C: Checks>(
    alloc: Global,
    grounds: &Grounds,
    checks: &C,
    vouched: &[Vouched],
) -> Result<Vec<FileEvidence>, AllocError>
    requires { (provenance : List ℕ) × AreLinesOf provenance grounds.now.lines }
    ensures files { (inputs : Inputs) → AreLinesOf inputs.provenance grounds.now.lines
        → IfOk result (λ found. AreFileEvidence (C.panel checks.now) vouched.now inputs
        grounds.now.documents found.items) }
    ensures made { (inputs : Inputs) → AreGrounds (C.panel checks.now) inputs grounds.now
        → IfOk result (λ found. AllZip (IsFileEvidence (C.panel checks.now) vouched.now
        (lines_of inputs.provenance) grounds.now.documents.policy.expectations)
        (entries grounds.now.documents.delivered) found.items) }
{
    let documents = &grounds.documents;
    let read = &grounds.lines;
    let asked = AskedBuilders::of(alloc, documents.policy.expectations.as_slice())?;
    let attestations = Attestations::of(alloc, read.envelopes.as_slice(), &asked, checks)?;
    let lines = KnownLines {
        places: read.places.as_slice(),
        vouched,
    };
    evidence_among(alloc, &documents.delivered, &lines, &attestations)
}

/// What stands for each delivered file, by what envelopes attest and by what is known of the lines.
fn evidence_among<C: Checks>(
    alloc: Global,
    delivered: &Artifacts,
    lines: &KnownLines<'_>,
    attestations: &Attestations<C>,
) -> Result<Vec<FileEvidence>, AllocError>
    requires held { AreHeld (C.panel attestations.now.checks.now)
        attestations.now.expectations.now attestations.now.envelopes.now
        attestations.now.held.items }
    requires places { length lines.now.places.now ≡ length attestations.now.envelopes.now }
    ensures { IfOk result (λ found. (texts : List (List ℕ))
        → AreReadFrom 1 texts attestations.now.envelopes.now lines.now.places.now
        → AreEvidence (C.panel attestations.now.checks.now) attestations.now.expectations.now
        lines.now.vouched.now texts attestations.now.envelopes.now (entries delivered.now)
        found.items) }
{
    let mut found = Vec::new(alloc);
    for (path, digests) in delivered.iter() {
        let one = evidence_of(alloc, path.as_str(), digests.set(), lines, attestations)?;
        push_some(&mut found, one)?;
    }
    Ok(found)
}
