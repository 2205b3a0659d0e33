//! The delivered file that has no provenance, and where it is looked for.
use it_digest::compare::DigestSet;
use it_docs::policy::Expectation;
use it_prov::provenance_lines::ProvenanceLines;

/// A delivered file for which no line of the provenance is provenance.
#[derive(Clone, Copy)]
pub struct Delivery<'a> {
    /// The digests of the file.
    pub digests: DigestSet,
    /// The expectation that speaks of the file.
    pub expectation: &'a Expectation,
    /// The bytes of the provenance, one envelope per line.
    pub provenance: &'a [u8],
    /// The lines of the provenance that are envelopes.
    pub lines: &'a ProvenanceLines,
}
