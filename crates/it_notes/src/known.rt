//! What the verification read and found, from which the notes are made.
ghost use Rattle.std.specs.Prelude.{◌≡◌, IfOk, IfSome};
ghost use Rattle.it_dsse.specs.Panel.{Panel};
ghost use Rattle.it_report.specs.declared.refusal.Fault.{Fault};
ghost use Rattle.it_verify.specs.Grounds.{IsBefore, IsFound};
ghost use Rattle.it_verify.specs.Made.{IsMadeBy};
ghost use Rattle.it_member_notes.specs.MemberNotes.{TellsPolicyMembers};
ghost use Rattle.it_notes.specs.Known.{IsBasis, IsKnown, IsTold, LinesAreKnown};
ghost use Rattle.it_notes.specs.FoundInDocuments.{AreFoundInDocuments};

use crate::fault_level::FaultLevel;
use crate::found_in_documents::FoundInDocuments;
use it_digest::artifacts::Artifacts;
use it_docs::policy::Policy;
use it_member_notes::member_notes::MemberNotes;
use it_member_notes::policy_notes;
use it_prov::provenance_lines::ProvenanceLines;
use it_report::verdict::Verdict;
use it_step_notes::signed_layout::SignedLayout;
use it_verify::documents::Documents;
use it_verify::grounds::{Before, Begun, Found, Grounds};
use it_verify::inputs::Inputs;
use it_verify::opened::Opened;
use it_verify::verdict_of;
use std::alloc::{AllocError, Global};

/// What the verification read and found, where the documents read and every owner signed the
/// layout.
#[derive(Drop)]
pub struct Known<'a> {
    /// What was verified.
    pub inputs: &'a Inputs,
    /// The policy.
    pub policy: Policy,
    /// The delivered files.
    pub delivered: Artifacts,
    /// The outermost layout.
    pub top: FaultLevel<'a>,
    /// The lines of the provenance that are envelopes, or `None` where something before the
    /// provenance was refused.
    pub lines: Option<ProvenanceLines>,
}

/// What notes are made from, beside the inputs themselves.
#[derive(Drop)]
pub enum Basis<'a> {
    /// Nothing was read.
    Nothing,
    /// The policy and the layout's envelope, where what the envelope holds was refused.
    Begun(Begun),
    /// All that was read and found.
    Known(Known<'a>),
}

/// A verdict, and what was read and found before it.
#[derive(Drop)]
pub struct Told<'a> {
    /// The verdict.
    pub verdict: Verdict,
    /// What was read and found.
    pub basis: Basis<'a>,
    /// The notes on the members of the policy, or `None` where memory was refused for them.
    pub noted: Option<MemberNotes>,
    /// Where the verdict accepts, what is found in the policy, in the layout and in the sublayouts
    /// all the same, or `None` where memory was refused for that.
    pub found: Option<FoundInDocuments>,
}

/// The verdict that accepts, what was read and found before it, what is noted on the policy, and
/// what is found all the same.
///
/// # Errors
///
/// `AllocError` where memory was refused.
pub fn made_told(
    alloc: Global,
    inputs: &Inputs,
    grounds: Grounds,
    noted: Option<MemberNotes>,
    all_the_same: Option<FoundInDocuments>,
) -> Result<Told<'_>, AllocError>
    requires { IfSome noted (TellsPolicyMembers inputs.now.policy) }
    ensures { (panel : Panel) → IsMadeBy panel inputs.now grounds.documents grounds.evidence
        → IfSome all_the_same (AreFoundInDocuments panel inputs.now)
        → IfOk result (IsTold panel inputs.now) }
{
    let verdict = verdict_of(alloc, &grounds)?;
    let found = Found {
        documents: grounds.documents,
        steps: None,
        lines: None,
    };
    Ok(Told {
        verdict,
        basis: Basis::Known(known_in(inputs, found)),
        noted,
        found: all_the_same,
    })
}

/// The notes on the members of the policy of opened inputs, or `None` where memory was refused for
/// them.
pub fn noted_on(alloc: Global, opened: &Opened<'_>) -> Option<MemberNotes>
    ensures { IfSome result (TellsPolicyMembers opened.now.inputs.now.policy) }
{
    policy_notes(alloc, &opened.policy).ok()
}

/// What was read and found before a refusal of the inputs.
pub fn basis_of(inputs: &Inputs, before: Before) -> Basis<'_>
    ensures basis { (panel : Panel) (fault : Fault) → IsBefore panel inputs.now fault before
        → IsBasis panel inputs.now result }
    ensures lines { (panel : Panel) (fault : Fault) → IsBefore panel inputs.now fault before
        → LinesAreKnown fault result }
{
    match before {
        Before::Nothing => Basis::Nothing,
        Before::Begun(begun) => Basis::Begun(begun),
        Before::Found(found) => Basis::Known(known_in(inputs, found)),
    }
}

/// What was found, over the links.
fn known_in(inputs: &Inputs, found: Found) -> Known<'_>
    ensures known { (panel : Panel) → IsFound panel inputs.now found
        → IsKnown panel inputs.now result }
    ensures lines { result.lines ≡ found.lines }
{
    let Found {
        documents,
        steps,
        lines,
    } = found;
    let Documents {
        policy,
        delivered,
        moment,
        envelope,
        layout,
    } = documents;
    let signed = SignedLayout {
        payload: envelope.payload,
        layout,
    };
    Known {
        inputs,
        policy,
        delivered,
        top: FaultLevel {
            signed,
            links: &inputs.links,
            moment,
            steps,
        },
        lines,
    }
}
