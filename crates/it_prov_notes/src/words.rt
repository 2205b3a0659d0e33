//! What a note says to people.
ghost use Rattle.std.specs.Prelude.{◌≡◌, ◌++◌, OnOk};
ghost use Rattle.std.specs.Fmt.{signed_decimal};
ghost use Rattle.std.specs.List.{flat_map};
ghost use Rattle.it_prov_notes.specs.ProvenanceLines.{difference_form, found_form, hinted_form};
ghost use Rattle.it_prov_notes.specs.ProvenanceLines.{levels_form, member_form, not_signed_form};
ghost use Rattle.it_prov_notes.specs.ProvenanceLines.{numbering, pair_form, parameter_form};
ghost use Rattle.it_prov_notes.specs.ProvenanceLines.{provenance_line, quoting, shape_form};
ghost use Rattle.it_prov_notes.specs.ProvenanceLines.{shortfall_form, typed_form, value_form};
ghost use Rattle.it_prov_notes.specs.ProvenanceLines.{wanted_form};

use crate::note::{Difference, HintedKey, ProvenanceNote, Shape, Shortfall, ValueNote};
use it_base::text::Text;
use it_dsse::payload_type::IN_TOTO;
use it_report::name::push_cut_name;
use std::alloc::{AllocError, Global};

impl ProvenanceNote {
    /// Appends what the note says as one line, with its line feed: the number of the line of
    /// provenance, and what that misses. Texts from the policy and the provenance are in quotation
    /// marks, as `push_cut_name` writes a name.
    ///
    /// # Errors
    ///
    /// `AllocError` where memory was refused; a part of the line may have been appended then.
    pub fn push_line(&self, text: &mut Vec<u8>) -> Result<(), AllocError>
        ensures { OnOk result (text.new.items ≡ text.old.items ++ provenance_line self.now) }
    {
        push_numbering(text, "provenance line ", self.line, ": ")?;
        push_shortfall(text, &self.shortfall)?;
        push_words(text, "\n")
    }
}

#[tactic(auto, unfolding(crate::specs::ProvenanceLines::shortfall_form))]
fn push_shortfall(text: &mut Vec<u8>, shortfall: &Shortfall) -> Result<(), AllocError>
    ensures { OnOk result (text.new.items ≡ text.old.items ++ shortfall_form shortfall.now) }
{
    match shortfall {
        Shortfall::NoEnvelope(shape) => push_shape(text, shape),
        Shortfall::NotSigned(hinted) => push_not_signed(text, hinted),
        Shortfall::TooLarge => push_words(text, "was not looked at: too large"),
        Shortfall::OtherPayloadType(found) => {
            push_pair(text, "payload type", found.as_str(), IN_TOTO)
        }
        Shortfall::NoStatement(None) => push_words(text, "its payload is no Statement v1"),
        Shortfall::NoStatement(Some(found)) => {
            push_typed(text, "its payload is no Statement v1, but", found)
        }
        Shortfall::NoProvenance(found) => {
            let after = " is no SLSA v1 provenance";
            push_quoting(text, "its predicate of type ", found.as_str(), after)
        }
        Shortfall::NoSubject => push_words(text, "no subject has the digest of the file"),
        Shortfall::OtherBuilder { found, wanted } => {
            push_pair(text, "builder id", found.as_str(), wanted.as_str())
        }
        Shortfall::OtherBuildType { found, wanted } => {
            push_pair(text, "build type", found.as_str(), wanted.as_str())
        }
        Shortfall::MissingParameter(name) => push_parameter(text, name.as_str(), " is missing"),
        Shortfall::UnequalParameter { name, difference } => {
            push_parameter(text, name.as_str(), "")?;
            push_difference(text, difference)
        }
        Shortfall::UnexpectedParameter(name) => {
            push_parameter(text, name.as_str(), " is not expected")
        }
        Shortfall::LowLevel { found, wanted } => push_levels(text, *found, *wanted),
    }
}

fn push_not_signed(text: &mut Vec<u8>, hinted: &Option<HintedKey>) -> Result<(), AllocError>
    ensures { OnOk result (text.new.items ≡ text.old.items ++ not_signed_form hinted.now) }
{
    push_words(text, "none of the expected builders signed it")?;
    match hinted {
        None => Ok(()),
        Some(key) => push_hinted(text, key),
    }
}

#[tactic(auto, unfolding(crate::specs::ProvenanceLines::hinted_form))]
fn push_hinted(text: &mut Vec<u8>, key: &HintedKey) -> Result<(), AllocError>
    ensures { OnOk result (text.new.items ≡ text.old.items ++ hinted_form key.now) }
{
    push_quoting(text, ", but key ", key.id.as_str(), "")?;
    push_quoting(text, " did under the keyid ", key.keyid.as_str(), "")
}

fn push_shape(text: &mut Vec<u8>, shape: &Shape) -> Result<(), AllocError>
    ensures { OnOk result (text.new.items ≡ text.old.items ++ shape_form shape.now) }
{
    match shape {
        Shape::NoDocument => push_words(text, "no envelope, and no JSON on one line"),
        Shape::List => push_words(text, "no envelope, but a JSON array"),
        Shape::Bundle => { push_words(text, "no envelope, but a bundle with one (`dsseEnvelope`)") }
        Shape::Typed(found) => { push_typed(text, "no envelope, but a document", found) }
        Shape::Other => push_words(text, "no envelope"),
    }
}

/// Appends the type of what was found.
#[tactic(auto, unfolding(crate::specs::ProvenanceLines::typed_form))]
fn push_typed(text: &mut Vec<u8>, what: &str, found: &Text) -> Result<(), AllocError>
    ensures { OnOk result (text.new.items ≡ text.old.items ++ typed_form what.now found.now) }
{
    push_words(text, what)?;
    push_quoting(text, " of type ", found.as_str(), "")
}

/// Appends what was found and what is expected.
#[tactic(auto, unfolding(crate::specs::ProvenanceLines::pair_form))]
fn push_pair(text: &mut Vec<u8>, what: &str, found: &str, wanted: &str) -> Result<(), AllocError>
    ensures { OnOk result (text.new.items
        ≡ text.old.items ++ pair_form what.now found.now wanted.now) }
{
    push_words(text, what)?;
    push_quoting(text, " ", found, " where ")?;
    push_quoting(text, "", wanted, " is expected")
}

/// Appends an external parameter by its name, with words after it.
#[tactic(auto, unfolding(crate::specs::ProvenanceLines::parameter_form))]
fn push_parameter(text: &mut Vec<u8>, name: &str, after: &str) -> Result<(), AllocError>
    ensures { OnOk result (text.new.items
        ≡ text.old.items ++ parameter_form name.now after.now) }
{
    push_quoting(text, "external parameter ", name, after)
}

/// Appends where two values differ, what is there, and what is expected there.
fn push_difference(text: &mut Vec<u8>, difference: &Difference) -> Result<(), AllocError>
    ensures { OnOk result (text.new.items ≡ text.old.items ++ difference_form difference.now) }
{
    push_place(text, difference.place.as_slice())?;
    push_found(text, &difference.found)?;
    push_wanted(text, &difference.wanted)
}

/// Appends the names that lead to a place, each in brackets.
fn push_place(text: &mut Vec<u8>, names: &[Text]) -> Result<(), AllocError>
    ensures { OnOk result (text.new.items ≡ text.old.items ++ flat_map member_form names.now) }
{
    for name in names {
        push_quoting(text, "[", name.as_str(), "]")?;
    }
    Ok(())
}

fn push_found(text: &mut Vec<u8>, found: &Option<ValueNote>) -> Result<(), AllocError>
    ensures { OnOk result (text.new.items ≡ text.old.items ++ found_form found.now) }
{
    match found {
        None => push_words(text, " is missing"),
        Some(value) => push_value(text, " is ", value),
    }
}

fn push_wanted(text: &mut Vec<u8>, wanted: &Option<ValueNote>) -> Result<(), AllocError>
    ensures { OnOk result (text.new.items ≡ text.old.items ++ wanted_form wanted.now) }
{
    match wanted {
        None => push_words(text, " where none is expected"),
        Some(value) => {
            push_value(text, " where ", value)?;
            push_words(text, " is expected")
        }
    }
}

/// Appends a value after some words; of a list and an object only the brackets.
fn push_value(text: &mut Vec<u8>, before: &str, value: &ValueNote) -> Result<(), AllocError>
    ensures { OnOk result (text.new.items ≡ text.old.items ++ before.now ++ value_form value.now) }
{
    push_words(text, before)?;
    match value {
        ValueNote::Null => push_words(text, "null"),
        ValueNote::Flag(true) => push_words(text, "true"),
        ValueNote::Flag(false) => push_words(text, "false"),
        ValueNote::Whole(number) => push_whole(text, *number),
        ValueNote::Text(found) => push_quoting(text, "", found.as_str(), ""),
        ValueNote::List => push_words(text, "[..]"),
        ValueNote::Object => push_words(text, "{..}"),
        ValueNote::Number => push_words(text, "a number that equals nothing"),
    }
}

fn push_whole(text: &mut Vec<u8>, number: i128) -> Result<(), AllocError>
    ensures { OnOk result (text.new.items ≡ text.old.items ++ signed_decimal number) }
{
    let alloc: Global = *text.allocator();
    let digits = format!(in alloc; "{number}")?;
    push_words(text, digits.as_str())
}

fn push_levels(text: &mut Vec<u8>, found: u8, wanted: u8) -> Result<(), AllocError>
    ensures { OnOk result (text.new.items ≡ text.old.items ++ levels_form found wanted) }
{
    push_numbering(text, "builder of level ", u64::from(found), "")?;
    push_numbering(text, " where level ", u64::from(wanted), " is expected")
}

/// Appends a name in quotation marks, with words before and after it.
#[tactic(auto, unfolding(crate::specs::ProvenanceLines::quoting))]
fn push_quoting(text: &mut Vec<u8>, before: &str, name: &str, after: &str) -> Result<(), AllocError>
    ensures { OnOk result
        (text.new.items ≡ text.old.items ++ quoting before.now name.now after.now) }
{
    push_words(text, before)?;
    push_words(text, "\"")?;
    push_cut_name(text, name.as_bytes())?;
    push_words(text, "\"")?;
    push_words(text, after)
}

/// Appends a number in decimal digits, with words before and after it.
#[tactic(auto, unfolding(crate::specs::ProvenanceLines::numbering))]
fn push_numbering(
    text: &mut Vec<u8>,
    before: &str,
    number: u64,
    after: &str,
) -> Result<(), AllocError>
    ensures { OnOk result
        (text.new.items ≡ text.old.items ++ numbering before.now number after.now) }
{
    let alloc: Global = *text.allocator();
    let words = format!(in alloc; "{before}{number}{after}")?;
    push_words(text, words.as_str())
}

pub(crate) fn push_words(text: &mut Vec<u8>, words: &str) -> Result<(), AllocError>
    ensures { OnOk result (text.new.items ≡ text.old.items ++ words.now) }
{
    text.extend_from_slice(words.as_bytes())
}
