//! The answer to what was handed in: an output, and what was told before it.
ghost use Rattle.std.specs.Prelude.{◌≡◌, ◌≤◌, IfOk, IfSome};
ghost use Rattle.it_report.specs.declared.verdict.Verdict.TheVariants.{Refused};
ghost use Rattle.it_verify.specs.Grounds.{AreGrounds, IsBefore};
ghost use Rattle.it_verify.specs.RefusedFor.{RefusedFor};
ghost use Rattle.it_verify.specs.Verdict.{OnAccepted};
ghost use Rattle.it_member_notes.specs.MemberNotes.{TellsPolicyMembers};
ghost use Rattle.it_notes.specs.FoundInDocuments.{AreFoundInDocuments};
ghost use Rattle.it_notes.specs.Known.{IsTold};
ghost use Rattle.it_verify_command.specs.FullOutput.{IsTextIn};
ghost use Rattle.it_verify_command.specs.inside.Answer.{IsAnswer, IsBehindIn, before_notes};

use crate::before_notes::text_before_notes;
use crate::behind::behind_in;
use crate::output_text::text_in;
use crate::verification::Verification;
use it_dsse::checks::Checks;
use it_json_report::evidence::Evidence;
use it_member_notes::member_notes::MemberNotes;
use it_notes::found_in_documents::{FoundInDocuments, found_in_documents};
use it_notes::known::{Told, basis_of, made_told, noted_on};
use it_outcome::output::Output;
use it_report::refusal::Refusal;
use it_report::verdict::Verdict;
use it_verify::grounds::{Before, Grounds, Outcome};
use it_verify::opened::Opened;
use it_verify::{status_of, verify_grounds};
use json::Scratch;
use std::alloc::{AllocError, Global};

/// An output, and what was told before it.
#[derive(Drop)]
pub(crate) struct Answer<'a> {
    /// The verdict, and what was read and found before it.
    pub(crate) told: Told<'a>,
    /// The output on the verdict, and the status that goes with it.
    pub(crate) output: Output,
    /// Whether the notes follow elsewhere.
    pub(crate) noted: bool,
    /// What goes before them.
    pub(crate) before_notes: Vec<u8>,
}

/// The answer to delivered files, as is asked.
pub(crate) fn answer_to<'a, C: Checks>(
    alloc: Global,
    asked: &Verification<'a, C>,
) -> Result<Answer<'a>, AllocError>
    requires { asked.now.inputs.now.depth ≤ 8 }
    ensures { IfOk result
        (IsAnswer asked.now.form.now (C.panel asked.now.checks.now)
        asked.now.vouched.now asked.now.inputs.now) }
{
    let mut scratch = Scratch::new(alloc);
    let opened = Opened::read(alloc, asked.inputs, &mut scratch)?;
    let outcome = verify_grounds(alloc, &opened, asked.checks)?;
    let noted = noted_on(alloc, &opened);
    match outcome {
        Outcome::Made(grounds) => {
            let found = found_in_documents(alloc, &opened, &grounds, asked.checks).ok();
            made_answer(alloc, asked, grounds, noted, found)
        }
        Outcome::Refused { refusal, before } => {
            refused_answer(alloc, asked, refusal, before, noted)
        }
    }
}

/// The answer that accepts on these grounds, where this is noted on the policy and found in the
/// documents, or memory was refused for that.
pub(crate) fn made_answer<'a, C: Checks>(
    alloc: Global,
    asked: &Verification<'a, C>,
    grounds: Grounds,
    noted: Option<MemberNotes>,
    found: Option<FoundInDocuments>,
) -> Result<Answer<'a>, AllocError>
    requires noted { IfSome noted (TellsPolicyMembers asked.now.inputs.now.policy) }
    requires grounds { AreGrounds (C.panel asked.now.checks.now) asked.now.inputs.now grounds }
    requires found { IfSome found
        (AreFoundInDocuments (C.panel asked.now.checks.now) asked.now.inputs.now) }
    ensures { IfOk result
        (IsAnswer asked.now.form.now (C.panel asked.now.checks.now)
        asked.now.vouched.now asked.now.inputs.now) }
{
    let behind = behind_in(alloc, asked, &grounds)?;
    let told = made_told(alloc, asked.inputs, grounds, noted, found)?;
    answer_on(alloc, asked, told, behind)
}

/// The answer that refuses, for the first thing that does not hold and after what was read and
/// found, where this is noted on the policy, or memory was refused for that.
pub(crate) fn refused_answer<'a, C: Checks>(
    alloc: Global,
    asked: &Verification<'a, C>,
    refusal: Refusal,
    before: Before,
    noted: Option<MemberNotes>,
) -> Result<Answer<'a>, AllocError>
    requires noted { IfSome noted (TellsPolicyMembers asked.now.inputs.now.policy) }
    requires refused { RefusedFor (C.panel asked.now.checks.now) asked.now.inputs.now refusal }
    requires before { IsBefore (C.panel asked.now.checks.now) asked.now.inputs.now refusal.fault
        before }
    ensures answer { IfOk result
        (IsAnswer asked.now.form.now (C.panel asked.now.checks.now)
        asked.now.vouched.now asked.now.inputs.now) }
    ensures refuses { IfOk result (λ answer. answer.told.verdict ≡ Refused refusal) }
{
    let told = Told {
        verdict: Verdict::Refused(refusal),
        basis: basis_of(asked.inputs, before),
        noted,
        found: None,
    };
    answer_on(alloc, asked, told, None)
}

/// The answer on what was told, with what stands behind it.
fn answer_on<'a, C: Checks>(
    alloc: Global,
    asked: &Verification<C>,
    told: Told<'a>,
    behind: Option<Evidence>,
) -> Result<Answer<'a>, AllocError>
    requires told { IsTold (C.panel asked.now.checks.now) asked.now.inputs.now told }
    requires behind { OnAccepted told.verdict (IsBehindIn asked.now.form.now
        (C.panel asked.now.checks.now) asked.now.vouched.now asked.now.inputs.now behind) }
    ensures answer { IfOk result
        (IsAnswer asked.now.form.now (C.panel asked.now.checks.now)
        asked.now.vouched.now asked.now.inputs.now) }
    ensures verdict { IfOk result (λ answer. answer.told.verdict ≡ told.entry.verdict) }
{
    let Texts { text, before_notes } = texts_on(alloc, asked, &told, behind)?;
    let status = status_of(&told.verdict);
    Ok(Answer {
        told,
        output: Output { text, status },
        noted: asked.form.is_noted(),
        before_notes,
    })
}

/// The texts of an answer.
#[derive(Drop)]
struct Texts {
    /// The output on the verdict.
    text: Vec<u8>,
    /// What goes before the notes.
    before_notes: Vec<u8>,
}

/// The texts of the answer on what was told.
fn texts_on<C: Checks>(
    alloc: Global,
    asked: &Verification<C>,
    told: &Told,
    behind: Option<Evidence>,
) -> Result<Texts, AllocError>
    requires told { IsTold (C.panel asked.now.checks.now) asked.now.inputs.now told.now }
    requires behind { OnAccepted told.now.verdict (IsBehindIn asked.now.form.now
        (C.panel asked.now.checks.now) asked.now.vouched.now asked.now.inputs.now behind) }
    ensures text { IfOk result (λ texts. IsTextIn asked.now.form.now
        (C.panel asked.now.checks.now) asked.now.vouched.now asked.now.inputs.now
        told.now.verdict texts.text.items) }
    ensures before { IfOk result (λ texts.
        texts.before_notes.items ≡ before_notes asked.now.form.now told.now.verdict) }
{
    Ok(Texts {
        text: text_in(alloc, asked, told, behind)?,
        before_notes: text_before_notes(alloc, &told.verdict, asked.form)?,
    })
}
