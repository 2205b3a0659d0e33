//! What is wrong with a part of a document.
ghost use Rattle.std.specs.Prelude.{◌≡◌, IfOk, IfSome, IsTrue, is_some, map, true};
ghost use Rattle.it_borrowed.specs.Tree.{as_data};
ghost use Rattle.it_base.specs.Document.{member_at};
ghost use Rattle.it_part_notes.specs.Members.{shown};
ghost use Rattle.it_part_notes.specs.PartNotes.{IsWhole, TellsFault, TellsPart, TellsProblem};

use crate::bad_rule::bad_rule;
use crate::fit::is_fit;
use crate::flaw::{Flaw, flaw_of};
use crate::item_at::object_at;
use crate::member::{Kind, Member};
use crate::part_note::{Fault, PartNote, PartPlace, Problem};
use crate::shape::shape_of;
use it_borrowed::base64_text::base64_part;
use it_borrowed::document::{is_object, member};
use it_borrowed::document_text::DocumentText;
use json::Value;
use std::alloc::{AllocError, Global};

/// The note on the object at a place of a document: on the first of these members that is wrong.
///
/// # Errors
///
/// `AllocError` where memory was refused.
pub(crate) fn part_note(
    alloc: Global,
    text: &DocumentText<'_>,
    place: PartPlace,
    members: &[Member],
) -> Result<Option<PartNote>, AllocError>
    ensures { IfOk result (λ found.
        IfSome found (TellsPart text.now place (map shown members.now))) }
{
    let Some(document) = text.document() else {
        let flaw = flaw_of(alloc, text.bytes())?;
        return Ok(no_document(place, flaw));
    };
    let Some(object) = object_at(document, place) else {
        return Ok(None);
    };
    let Some(problem) = problem_of(alloc, object, members)? else {
        return Ok(None);
    };
    Ok(Some(PartNote { place, problem }))
}

/// The note on a whole document, for bytes that are not one.
fn no_document(place: PartPlace, flaw: Option<Flaw>) -> Option<PartNote>
    ensures { IfSome result (λ note.
        (note.place ≡ place) × IsWhole note.place × (note.problem ≡ Problem.NoDocument flaw)) }
{
    match place {
        PartPlace::Policy | PartPlace::Layout | PartPlace::Envelope | PartPlace::Link => {
            let problem = Problem::NoDocument(flaw);
            Some(PartNote { place, problem })
        }
        _ => None,
    }
}

fn problem_of(
    alloc: Global,
    object: &Value<'_>,
    members: &[Member],
) -> Result<Option<Problem>, AllocError>
    ensures { IfOk result (λ found.
        IfSome found (TellsProblem (map shown members.now) (as_data object.now))) }
{
    if !is_object(object) {
        return Ok(Some(Problem::NoObject(shape_of(object))));
    }
    for member in members {
        if let Some(fault) = fault_of(alloc, object, *member)? {
            return Ok(Some(Problem::Member(*member, fault)));
        }
    }
    Ok(None)
}

fn fault_of(alloc: Global, object: &Value<'_>, looked: Member) -> Result<Option<Fault>, AllocError>
    ensures { IfOk result (λ found.
        IfSome found (TellsFault (as_data object.now) (shown looked))) }
{
    let Some(value) = member(object, looked.name()) else {
        return Ok(missing(looked));
    };
    if !is_fit(alloc, value, looked.kind())? {
        return Ok(Some(Fault::Unfit));
    }
    match looked.kind() {
        Kind::Rules => rule_fault(alloc, object, looked),
        Kind::Base64 => base64_fault(alloc, object, looked),
        _ => Ok(None),
    }
}

/// The fault of a missing member, if it must be there.
fn missing(looked: Member) -> Option<Fault>
    ensures { IfSome result (λ fault.
        (fault ≡ Fault.Missing) × ((shown looked).is_needed ≡ true)) }
{
    if looked.is_needed() {
        Some(Fault::Missing)
    } else {
        None
    }
}

fn rule_fault(
    alloc: Global,
    object: &Value<'_>,
    looked: Member,
) -> Result<Option<Fault>, AllocError>
    requires { (shown looked).kind ≡ Kind.Rules }
    ensures { IfOk result (λ found.
        IfSome found (TellsFault (as_data object.now) (shown looked))) }
{
    let Some(bad) = bad_rule(alloc, object, looked.name())? else {
        return Ok(None);
    };
    Ok(Some(Fault::NoRule(bad)))
}

/// The fault of a member that is there, if it is not a text in base64.
fn base64_fault(
    alloc: Global,
    object: &Value<'_>,
    looked: Member,
) -> Result<Option<Fault>, AllocError>
    requires kind { (shown looked).kind ≡ Kind.Base64 }
    requires there { IsTrue (is_some (member_at (shown looked).name (as_data object.now))) }
    ensures { IfOk result (λ found.
        IfSome found (TellsFault (as_data object.now) (shown looked))) }
{
    match base64_part(alloc, object, looked.name())? {
        Some(_) => Ok(None),
        None => Ok(Some(Fault::Unfit)),
    }
}
