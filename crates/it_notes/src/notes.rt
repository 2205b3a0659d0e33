//! The notes on a verification.
ghost use Rattle.std.specs.Prelude.{IfOk, IfSome};
ghost use Rattle.it_dsse.specs.Panel.{Panel};
ghost use Rattle.it_verify.specs.declared.inputs.Inputs.{Inputs};
ghost use Rattle.it_member_notes.specs.MemberNotes.{TellsPolicyMembers};
ghost use Rattle.it_notes.specs.KeyNotes.{TellsKeys};
ghost use Rattle.it_notes.specs.Known.{IsBasis, IsTold, LinesAreTold};
ghost use Rattle.it_notes.specs.Notes.{AreTrue, TellsLayout, TellsVerdict, TellsWhere};

use crate::file_detail::DetailedNote;
use crate::key_notes::key_notes;
use crate::known::{Basis, Told};
use crate::layout_envelope::EnvelopeNote;
use crate::layout_notes::LayoutNotes;
use crate::place_notes::{PlaceNotes, place_notes};
use crate::record_note::RecordNote;
use crate::refusal_notes::refusal_notes;
use it_digest::sums::ListAlgorithm;
use it_dsse::checks::Checks;
use it_key_notes::unknown_key::UnknownKey;
use it_member_notes::member_notes::MemberNotes;
use it_part_notes::moment_note::MomentNote;
use it_part_notes::part_note::PartNote;
use it_part_notes::sum_line_note::SumLineNote;
use it_prov_notes::note::ProvenanceNote;
use it_prov_notes::patterns::PatternsNote;
use it_report::refusal::Fault;
use it_report::verdict::Verdict;
use it_rule_notes::disagree_note::DisagreeNote;
use it_rule_notes::expiry_note::ExpiryNote;
use it_rule_notes::judged_note::JudgedNote;
use it_rule_notes::met_note::MetNote;
use it_rule_notes::owner_note::OwnerNote;
use it_rule_notes::payloads_note::PayloadsNote;
use it_rule_notes::rule_note::RuleNote;
use it_verify::inputs::Inputs;
use std::alloc::{AllocError, Global};

/// The notes for people on a verification. Each note is true.
#[derive(Drop)]
pub struct Notes<'t> {
    /// The place of the sublayout that the refusal is about.
    pub place: Option<PlaceNotes>,
    /// Why the delivery was refused.
    pub refusal: RefusalNotes,
    /// The key objects that the refusal depends on and no check knows.
    pub keys: Vec<UnknownKey>,
    /// The members of the policy that are not looked at, or that may not be meant.
    pub policy: &'t MemberNotes,
    /// What is odd about the layout and the policy's rules that see it, where the owners are known
    /// to have signed it.
    pub layout: Option<LayoutNotes>,
}

/// Why a delivery was refused, by the fault that its report names.
#[derive(Drop)]
pub enum RefusalNotes {
    /// There is nothing to say.
    Nothing,
    /// On the part of the policy or the layout that fails.
    Part(PartNote),
    /// On what was given as the envelope of the layout.
    Envelope(EnvelopeNote),
    /// On the line of a digest list that is bad.
    Line(SumLineNote),
    /// On the moment that is none.
    Moment(MomentNote),
    /// The digest lists are empty.
    NoLine,
    /// On the step for which too few keys signed, and on its files.
    Step(Vec<DetailedNote>),
    /// On the owners of the policy.
    Owners(Vec<OwnerNote>),
    /// On the layout that has expired.
    Expiry(ExpiryNote),
    /// On the bodies of one key id that differ.
    Payloads(PayloadsNote),
    /// On the links of a step that differ.
    Disagreement(DisagreeNote),
    /// On the artifact rule that failed.
    Rule(RuleNotes),
    /// On why no provenance meets the expectation for the file.
    Provenance(Vec<ProvenanceNote>),
    /// The provenance is one envelope over several lines.
    LaidOut,
    /// The provenance is empty, as where none was given.
    EmptyProvenance,
    /// On the files of which the policy's expectations speak, where none speaks of a file.
    Patterns(PatternsNote),
    /// On the record of an inspection that is missing, or no link of its name.
    Record(RecordNote),
}

/// An artifact rule that failed.
#[derive(Drop)]
pub struct RuleNotes {
    /// The words of the rule.
    pub rule: RuleNote,
    /// What a rule of a step met.
    pub met: Option<MetNote>,
    /// What a rule on what is delivered met, and why.
    pub delivery: Option<JudgedNote>,
    /// The digest list, if any, whose first line ends with a carriage return; said only of a rule
    /// on what is delivered.
    pub returns: Option<ListAlgorithm>,
}

impl<'t> Notes<'t> {
    /// The notes on what the verification of the `inputs` told. Signatures are checked by the
    /// `checks` again, but only after a refusal.
    ///
    /// # Errors
    ///
    /// `AllocError` where memory was refused, also for what was told to be noted on the policy.
    pub fn of<C: Checks>(
        alloc: Global,
        inputs: &Inputs,
        told: &'t Told,
        checks: &C,
    ) -> Result<Notes<'t>, AllocError>
        requires { IsTold (C.panel checks.now) inputs.now told.now }
        ensures { IfOk result (AreTrue (C.panel checks.now) inputs.now told.now.verdict) }
    {
        let policy = noted_policy(told)?;
        let layout = signed_layout_notes(alloc, told)?;
        let place = told_place(alloc, told, checks)?;
        let keys = told_keys(alloc, told, checks)?;
        Ok(Notes {
            place,
            refusal: told_refusal(alloc, inputs, told, checks)?,
            keys,
            policy,
            layout,
        })
    }
}

/// The notes on the members of the policy. Where memory was refused for them, it is refused here.
fn noted_policy<'t>(told: &'t Told) -> Result<&'t MemberNotes, AllocError>
    ensures { (inputs : Inputs) → IfSome told.now.noted (TellsPolicyMembers inputs.policy)
        → IfOk result (λ noted. TellsPolicyMembers inputs.policy noted.now) }
{
    match &told.noted {
        Some(noted) => Ok(noted),
        None => Err(AllocError),
    }
}

/// Why the verdict refuses, if it does.
fn told_refusal<C: Checks>(
    alloc: Global,
    inputs: &Inputs,
    told: &Told,
    checks: &C,
) -> Result<RefusalNotes, AllocError>
    requires basis { IsBasis (C.panel checks.now) inputs.now told.now.basis }
    requires lines { LinesAreTold told.now.verdict told.now.basis }
    ensures { IfOk result (TellsVerdict (C.panel checks.now) inputs.now told.now.verdict) }
{
    match &told.verdict {
        Verdict::Accepted { .. } => Ok(RefusalNotes::Nothing),
        Verdict::Refused(refusal) => refusal_notes(alloc, inputs, &told.basis, refusal, checks),
    }
}

/// The key objects that the verdict depends on and no check knows, if it refuses.
fn told_keys<C: Checks>(
    alloc: Global,
    told: &Told,
    checks: &C,
) -> Result<Vec<UnknownKey>, AllocError>
    requires { (inputs : Inputs) × IsBasis (C.panel checks.now) inputs told.now.basis }
    ensures { (inputs : Inputs) → IsBasis (C.panel checks.now) inputs told.now.basis
        → IfOk result (λ notes.
        TellsKeys (C.panel checks.now) inputs told.now.verdict notes.items) }
{
    match &told.verdict {
        Verdict::Accepted { .. } => Ok(Vec::new(alloc)),
        Verdict::Refused(refusal) => key_notes(alloc, &told.basis, refusal, checks),
    }
}

/// The place of the sublayout that the verdict is about, if any.
fn told_place<C: Checks>(
    alloc: Global,
    told: &Told,
    checks: &C,
) -> Result<Option<PlaceNotes>, AllocError>
    requires { (inputs : Inputs) × IsTold (C.panel checks.now) inputs told.now }
    ensures { (inputs : Inputs) → IsTold (C.panel checks.now) inputs told.now
        → IfOk result (λ found. IfSome found
        (TellsWhere (C.panel checks.now) inputs told.now.verdict)) }
{
    match (&told.verdict, &told.basis) {
        (Verdict::Refused(refusal), Basis::Known(known)) => {
            place_notes(alloc, known, refusal, checks)
        }
        _ => Ok(None),
    }
}

/// What is odd about the layout and the policy's rules that see it. A layout that the owners are
/// not known to have signed is not read.
fn signed_layout_notes(alloc: Global, told: &Told) -> Result<Option<LayoutNotes>, AllocError>
    ensures { (panel : Panel) (inputs : Inputs) → IsBasis panel inputs told.now.basis
        → IfOk result (λ found. IfSome found (TellsLayout inputs)) }
{
    match &told.basis {
        Basis::Known(known) => Ok(Some(LayoutNotes::of(alloc, known)?)),
        Basis::Begun(begun) if is_no_layout(&told.verdict) => {
            Ok(Some(LayoutNotes::of_unread(alloc, &begun.envelope)?))
        }
        _ => Ok(None),
    }
}

/// Whether the owners signed something that is no layout.
fn is_no_layout(verdict: &Verdict) -> bool {
    match verdict {
        Verdict::Accepted { .. } => false,
        Verdict::Refused(refusal) => matches!(&refusal.fault, Fault::BadLayout(_)),
    }
}
