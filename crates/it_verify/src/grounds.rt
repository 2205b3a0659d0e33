//! What a verification rests on where it accepts, and what it had read or found where it refuses.
use crate::documents::Documents;
use crate::evidence::Evidence;
use it_base::sequence::Sequence;
use it_chain::chain::StepResult;
use it_docs::policy::Policy;
use it_dsse::envelope::Envelope;
use it_prov::provenance_lines::ProvenanceLines;
use it_report::refusal::Refusal;

/// What shows that delivered files were made as the owners prescribed.
#[derive(Drop)]
pub struct Grounds {
    /// What the inputs read as.
    pub documents: Documents,
    /// What the layout's steps and inspections recorded.
    pub evidence: Evidence,
    /// The lines of the provenance that are envelopes.
    pub lines: ProvenanceLines,
}

/// What a verification had read where it refused what the layout's envelope holds: a payload of
/// another type than in-toto's, one that an owner did not sign, or one that is no layout.
#[derive(Drop)]
pub struct Begun {
    /// The policy.
    pub policy: Policy,
    /// The layout's envelope.
    pub envelope: Envelope,
}

/// What a verification had found before it refused.
#[derive(Drop)]
pub struct Found {
    /// What the inputs read as; every owner of the policy signed the layout.
    pub documents: Documents,
    /// The records of the layout's steps, in its order, or `None` where something other than rules
    /// over them kept the steps from having any.
    pub steps: Option<Sequence<StepResult>>,
    /// The lines of the provenance that are envelopes, or `None` where something before the
    /// provenance was refused.
    pub lines: Option<ProvenanceLines>,
}

/// What a verification had before it refused.
#[derive(Drop)]
pub enum Before {
    /// Nothing: what comes before the payload of the layout's envelope does not read, or no file is
    /// delivered.
    Nothing,
    /// The policy and the layout's envelope: it refused what the envelope holds.
    Begun(Begun),
    /// All documents, and that every owner signed the layout.
    Found(Found),
}

/// What a verification comes to.
#[derive(Drop)]
pub enum Outcome {
    /// The delivered files were made as the owners prescribed, which this shows.
    Made(Grounds),
    /// They are refused.
    Refused {
        /// The first thing that does not hold.
        refusal: Refusal,
        /// What was read and found before it.
        before: Before,
    },
}
