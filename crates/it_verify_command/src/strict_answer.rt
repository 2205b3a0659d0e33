//! The answer of a strict verification.
ghost use Rattle.std.specs.Prelude.{◌≡◌, ◌≤◌, IfOk};
ghost use Rattle.it_strict.specs.Found.{AreFound};
ghost use Rattle.it_verify.specs.Grounds.{AreGrounds};
ghost use Rattle.it_verify_command.specs.Strictly.{IsFoundIn};
ghost use Rattle.it_verify_command.specs.inside.Answer.{IsStrictAnswer};

use crate::answer::{Answer, made_answer, refused_answer};
use crate::verification::Verification;
use it_dsse::checks::Checks;
use it_notes::found_in_documents::FoundInDocuments;
use it_notes::known::noted_on;
use it_strict::found::{Found, found_in};
use it_verify::grounds::{Grounds, Outcome};
use it_verify::opened::Opened;
use it_verify::verify_grounds;
use json::Scratch;
use std::alloc::{AllocError, Global};

/// What a strict verification comes to.
#[derive(Drop)]
pub(crate) enum StrictAnswer<'a> {
    /// The verdict refuses, or it accepts and nothing is found.
    Stands(Answer<'a>),
    /// The verdict would accept, and this is found.
    Against(Found),
}

/// The answer to delivered files, as is asked, or what is found in what would be accepted.
pub(crate) fn strict_answer<'a, C: Checks>(
    alloc: Global,
    asked: &Verification<'a, C>,
) -> Result<StrictAnswer<'a>, AllocError>
    requires { asked.now.inputs.now.depth ≤ 8 }
    ensures { IfOk result
        (IsStrictAnswer asked.now.form.now (C.panel asked.now.checks.now)
        asked.now.vouched.now asked.now.inputs.now) }
{
    let mut scratch = Scratch::new(alloc);
    let opened = Opened::read(alloc, asked.inputs, &mut scratch)?;
    answer_on(alloc, asked, &opened)
}

/// The same, for what is asked as it was opened.
fn answer_on<'a, C: Checks>(
    alloc: Global,
    asked: &Verification<'a, C>,
    opened: &Opened<'_>,
) -> Result<StrictAnswer<'a>, AllocError>
    requires shallow { asked.now.inputs.now.depth ≤ 8 }
    requires opened { opened.now.inputs.now ≡ asked.now.inputs.now }
    ensures { IfOk result
        (IsStrictAnswer asked.now.form.now (C.panel asked.now.checks.now)
        asked.now.vouched.now asked.now.inputs.now) }
{
    match verify_grounds(alloc, opened, asked.checks)? {
        Outcome::Made(grounds) => {
            let found = found_in(alloc, opened, &grounds, asked.checks)?;
            judged(alloc, asked, opened, grounds, found)
        }
        Outcome::Refused { refusal, before } => {
            let noted = noted_on(alloc, opened);
            let answer = refused_answer(alloc, asked, refusal, before, noted)?;
            Ok(StrictAnswer::Stands(answer))
        }
    }
}

/// The answer to delivered files that were made as the owners prescribed, where this is found.
fn judged<'a, C: Checks>(
    alloc: Global,
    asked: &Verification<'a, C>,
    opened: &Opened<'_>,
    grounds: Grounds,
    found: Found,
) -> Result<StrictAnswer<'a>, AllocError>
    requires opened { opened.now.inputs.now ≡ asked.now.inputs.now }
    requires grounds { AreGrounds (C.panel asked.now.checks.now) asked.now.inputs.now grounds }
    requires found { AreFound (C.panel asked.now.checks.now) asked.now.inputs.now grounds.documents
        grounds.evidence found }
    ensures { IfOk result
        (IsStrictAnswer asked.now.form.now (C.panel asked.now.checks.now)
        asked.now.vouched.now asked.now.inputs.now) }
{
    if !found.is_nothing() {
        return Ok(StrictAnswer::Against(found));
    }
    let nothing = FoundInDocuments {
        of_documents: Vec::new(alloc),
        below: found.of_sublayouts.into_vec(),
    };
    let noted = noted_on(alloc, opened);
    let answer = made_answer(alloc, asked, grounds, noted, Some(nothing))?;
    Ok(StrictAnswer::Stands(answer))
}
