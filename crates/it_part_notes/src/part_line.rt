//! Notes on a part of a document, as lines for people.
ghost use Rattle.std.specs.Prelude.{◌≡◌, ◌++◌, OnOk, decimal};
ghost use Rattle.std.specs.List.{flat_map};
ghost use Rattle.it_part_notes.specs.Members.{shown};
ghost use Rattle.it_part_notes.specs.PartLines.{document_form, fault_form, member_form};
ghost use Rattle.it_part_notes.specs.PartLines.{instead_form, no_object_form, object_form};
ghost use Rattle.it_part_notes.specs.PartLines.{part_line, place_form, problem_form, rule_form};
ghost use Rattle.it_part_notes.specs.PartLines.{unfit_form, word_form, words_form};

use crate::flaw_words::{instead_words, push_flaw, push_shape};
use crate::instead::Instead;
use crate::member::{Kind, Member};
use crate::part_note::{BadRule, Fault, PartNote, PartPlace, Problem};
use it_base::sequence::Sequence;
use it_base::text::Text;
use it_report::name::push_cut_name;
use std::alloc::AllocError;

impl PartNote {
    /// Appends the note as a line for people, which ends with a line feed. A note on an envelope or
    /// a link is to follow the name of its file. The words of a rule are written as `push_cut_name`
    /// writes names.
    ///
    /// # Errors
    ///
    /// `AllocError` where memory was refused; a part of the line may have been appended then.
    pub fn push_line(&self, text: &mut Vec<u8>) -> Result<(), AllocError>
        ensures { OnOk result (text.new.items ≡ text.old.items ++ part_line self.now) }
    {
        push_text(text, document_of(self.place))?;
        push_problem(text, self.place, &self.problem)?;
        push_text(text, "\n")
    }
}

fn document_of(place: PartPlace) -> &'static str
    ensures { result.now ≡ document_form place }
{
    match place {
        PartPlace::Policy | PartPlace::Expectation(_) => "policy: ",
        PartPlace::Layout | PartPlace::Step(_) | PartPlace::Inspection(_) => "layout: ",
        PartPlace::Envelope | PartPlace::Link => "",
    }
}

fn push_problem(text: &mut Vec<u8>, place: PartPlace, problem: &Problem) -> Result<(), AllocError>
    ensures { OnOk result (text.new.items
        ≡ text.old.items ++ problem_form place problem.now) }
{
    match problem {
        Problem::NoDocument(flaw) => {
            push_no_object(text, place)?;
            push_flaw(text, *flaw)
        }
        Problem::NoObject(shape) => {
            push_no_object(text, place)?;
            push_shape(text, *shape)
        }
        Problem::Instead(instead) => push_instead(text, place, *instead),
        Problem::Member(member, fault) => push_fault(text, place, *member, fault),
    }
}

fn push_instead(text: &mut Vec<u8>, place: PartPlace, instead: Instead) -> Result<(), AllocError>
    ensures { OnOk result (text.new.items
        ≡ text.old.items ++ object_form place ++ instead_form instead) }
{
    push_object(text, place)?;
    push_text(text, instead_words(instead))
}

fn push_no_object(text: &mut Vec<u8>, place: PartPlace) -> Result<(), AllocError>
    ensures { OnOk result (text.new.items
        ≡ text.old.items ++ no_object_form place) }
{
    push_object(text, place)?;
    push_text(text, " is no JSON object")
}

fn push_object(text: &mut Vec<u8>, place: PartPlace) -> Result<(), AllocError>
    ensures { OnOk result (text.new.items ≡ text.old.items ++ object_form place) }
{
    match place {
        PartPlace::Policy | PartPlace::Layout | PartPlace::Envelope => push_text(text, "it"),
        PartPlace::Link => push_text(text, "its payload"),
        PartPlace::Expectation(_) | PartPlace::Step(_) | PartPlace::Inspection(_) => {
            push_place(text, "", place)
        }
    }
}

fn push_fault(
    text: &mut Vec<u8>,
    place: PartPlace,
    member: Member,
    fault: &Fault,
) -> Result<(), AllocError>
    ensures { OnOk result (text.new.items
        ≡ text.old.items ++ fault_form place (shown member) fault.now) }
{
    match fault {
        Fault::Missing => push_missing(text, place, member),
        Fault::Unfit => push_unfit(text, place, member),
        Fault::NoRule(bad) => push_bad_rule(text, place, member, bad),
    }
}

fn push_missing(text: &mut Vec<u8>, place: PartPlace, member: Member) -> Result<(), AllocError>
    ensures { OnOk result (text.new.items
        ≡ text.old.items ++ fault_form place (shown member) Fault.Missing) }
{
    push_member(text, place, member)?;
    push_text(text, " is missing")
}

fn push_unfit(text: &mut Vec<u8>, place: PartPlace, member: Member) -> Result<(), AllocError>
    ensures { OnOk result (text.new.items
        ≡ text.old.items ++ fault_form place (shown member) Fault.Unfit) }
{
    push_member(text, place, member)?;
    push_text(text, unfit_words(member.kind()))
}

fn push_member(text: &mut Vec<u8>, place: PartPlace, member: Member) -> Result<(), AllocError>
    ensures { OnOk result (text.new.items
        ≡ text.old.items ++ member_form place (shown member).name) }
{
    push_text(text, "the member ")?;
    push_text(text, member.name())?;
    push_place(text, " of ", place)
}

fn unfit_words(kind: Kind) -> &'static str
    ensures { result.now ≡ unfit_form kind }
{
    match kind {
        Kind::Text => " is not a text",
        Kind::Word => " is not the text layout",
        Kind::Moment => " is not a moment such as 2030-01-01T00:00:00Z",
        Kind::Threshold => " is not a whole number of at least 1",
        Kind::Level => " is not a whole number from 0 to 3",
        Kind::Texts => " is not a list of texts",
        Kind::Keys => " is not an object of key objects",
        Kind::SomeKey => " has no member",
        Kind::Builders => " is not a list of builders",
        Kind::Object => " is not an object",
        Kind::Items | Kind::Rules => " is not a list",
        Kind::Base64 => " is not a text in base64",
        Kind::Signatures => " is not a list of signatures",
        Kind::LinkWord => " is not the text link",
        Kind::Artifacts => " is not an object of digest sets",
    }
}

fn push_bad_rule(
    text: &mut Vec<u8>,
    place: PartPlace,
    member: Member,
    bad: &BadRule,
) -> Result<(), AllocError>
    ensures { OnOk result (text.new.items
        ≡ text.old.items ++ rule_form place (shown member).name bad.now) }
{
    push_number(text, "rule ", bad.number)?;
    push_text(text, " of ")?;
    push_text(text, member.name())?;
    push_place(text, " of ", place)?;
    push_words(text, &bad.words)
}

fn push_words(text: &mut Vec<u8>, words: &Option<Sequence<Text>>) -> Result<(), AllocError>
    ensures { OnOk result (text.new.items ≡ text.old.items ++ words_form words.now) }
{
    let Some(words) = words else {
        return push_text(text, " is no list of texts");
    };
    if words.as_slice().is_empty() {
        return push_text(text, " is no artifact rule: it has no words");
    }
    push_text(text, " is no artifact rule:")?;
    push_each(text, words.as_slice())
}

fn push_each(text: &mut Vec<u8>, words: &[Text]) -> Result<(), AllocError>
    ensures { OnOk result (text.new.items ≡ text.old.items ++ flat_map word_form words.now) }
{
    for word in words {
        push_word(text, word)?;
    }
    Ok(())
}

fn push_word(text: &mut Vec<u8>, word: &Text) -> Result<(), AllocError>
    ensures { OnOk result (text.new.items ≡ text.old.items ++ word_form word.now) }
{
    push_text(text, " ")?;
    push_cut_name(text, word.as_str().as_bytes())
}

/// Appends the item at a place, after some words; for a whole policy or layout, nothing.
fn push_place(text: &mut Vec<u8>, before: &str, place: PartPlace) -> Result<(), AllocError>
    ensures { OnOk result (text.new.items ≡ text.old.items ++ place_form before.now place) }
{
    match place {
        PartPlace::Policy | PartPlace::Layout => Ok(()),
        PartPlace::Expectation(number) => push_item(text, before, "expectation ", number),
        PartPlace::Step(number) => push_item(text, before, "step ", number),
        PartPlace::Inspection(number) => push_item(text, before, "inspection ", number),
        PartPlace::Envelope => push_both(text, before, "the envelope"),
        PartPlace::Link => push_both(text, before, "the link"),
    }
}

fn push_both(text: &mut Vec<u8>, before: &str, words: &str) -> Result<(), AllocError>
    ensures { OnOk result (text.new.items ≡ text.old.items ++ before.now ++ words.now) }
{
    push_text(text, before)?;
    push_text(text, words)
}

fn push_item(text: &mut Vec<u8>, before: &str, item: &str, number: usize) -> Result<(), AllocError>
    ensures { OnOk result (text.new.items
        ≡ text.old.items ++ before.now ++ item.now ++ decimal number) }
{
    push_text(text, before)?;
    push_number(text, item, number)
}

fn push_number(text: &mut Vec<u8>, before: &str, number: usize) -> Result<(), AllocError>
    ensures { OnOk result (text.new.items ≡ text.old.items ++ before.now ++ decimal number) }
{
    let alloc = *text.allocator();
    let words = format!(in alloc; "{before}{number}")?;
    push_text(text, words.as_str())
}

fn push_text(text: &mut Vec<u8>, added: &str) -> Result<(), AllocError>
    ensures { OnOk result (text.new.items ≡ text.old.items ++ added.now) }
{
    text.extend_from_slice(added.as_bytes())
}
