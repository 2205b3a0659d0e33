//! Places in a policy and a layout, as JSON pointers (RFC 6901).
ghost use Rattle.std.specs.Prelude.{◌≡◌, ◌++◌, OnOk, decimal};
ghost use Rattle.it_check.specs.FindingPlace.{expectation_pointer, key_pointer, keys_pointer};
ghost use Rattle.it_check.specs.FindingPlace.{list_pointer, parameter_pointer, rule_pointer};
ghost use Rattle.it_check.specs.FindingPlace.{side_member};
ghost use Rattle.it_check.specs.FindingPlace.{step_key_pointer, step_pointer};

use crate::pointer_form::PointerForm;
use crate::token::push_token;
use crate::writing::{push_number, push_text, push_told_number};
use it_base::text::Text;
use it_docs::rule::Side;
use it_findings::finding::RuleList;
use it_findings::null_key::KeyList;
use std::alloc::AllocError;

/// Appends the place of a list of rules.
#[tactic(auto, unfolding(crate::specs::FindingPlace::list_pointer))]
pub(crate) fn push_list(text: &mut Vec<u8>, list: &RuleList) -> Result<(), AllocError>
    ensures { OnOk result (text.new.items ≡ text.old.items ++ list_pointer list.now) }
{
    match list {
        RuleList::Deliver => push_text(text, "/deliver"),
        RuleList::OfStep { place, side, .. } => push_item(text, "/steps/", *place, *side),
        RuleList::OfInspection { place, side, .. } => push_item(text, "/inspect/", *place, *side),
    }
}

fn push_item(text: &mut Vec<u8>, items: &str, place: usize, side: Side) -> Result<(), AllocError>
    ensures { OnOk result (text.new.items
        ≡ text.old.items ++ (items.now ++ (decimal place ++ side_member side))) }
{
    push_text(text, items)?;
    push_number(text, place)?;
    push_text(text, side_name(side))
}

fn side_name(side: Side) -> &'static str
    ensures { result.now ≡ side_member side }
{
    match side {
        Side::Materials => "/expected_materials",
        Side::Products => "/expected_products",
    }
}

/// Appends the place of the rule at a place of a list.
#[tactic(auto, unfolding(crate::specs::FindingPlace::rule_pointer))]
pub(crate) fn push_rule(text: &mut Vec<u8>, list: &RuleList, place: usize) -> Result<(), AllocError>
    ensures { OnOk result (text.new.items ≡ text.old.items ++ rule_pointer list.now place) }
{
    push_list(text, list)?;
    push_text(text, "/")?;
    push_number(text, place)
}

/// Appends the place of a member of a step.
pub(crate) fn push_step(text: &mut Vec<u8>, place: usize, member: &str) -> Result<(), AllocError>
    ensures { OnOk result (text.new.items ≡ text.old.items ++ step_pointer place member.now) }
{
    push_told_number(text, "/steps/", place, member)
}

/// Appends the place of a key id of a step.
#[tactic(auto, unfolding(crate::specs::FindingPlace::step_key_pointer))]
pub(crate) fn push_step_key(text: &mut Vec<u8>, step: usize, place: usize) -> Result<(), AllocError>
    ensures { OnOk result (text.new.items ≡ text.old.items ++ step_key_pointer step place) }
{
    push_told_number(text, "/steps/", step, "/pubkeys/")?;
    push_number(text, place)
}

/// Appends the place of a member of an expectation.
pub(crate) fn push_expectation(
    text: &mut Vec<u8>,
    place: usize,
    member: &str,
) -> Result<(), AllocError>
    ensures { OnOk result
        (text.new.items ≡ text.old.items ++ expectation_pointer place member.now) }
{
    push_told_number(text, "/expectations/", place, member)
}

/// Appends the place of a parameter of an expectation.
#[tactic(auto, unfolding(crate::specs::FindingPlace::parameter_pointer))]
pub(crate) fn push_parameter_at(
    text: &mut Vec<u8>,
    form: PointerForm,
    place: usize,
    name: &Text,
) -> Result<(), AllocError>
    ensures { OnOk result
        (text.new.items ≡ text.old.items ++ parameter_pointer form place name.now) }
{
    push_expectation(text, place, "/parameters/")?;
    push_token(text, form, name.as_str())
}

/// Appends the place of the key object under an id of a list.
#[tactic(auto, unfolding(crate::specs::FindingPlace::key_pointer))]
pub(crate) fn push_key(
    text: &mut Vec<u8>,
    form: PointerForm,
    list: KeyList,
    id: &Text,
) -> Result<(), AllocError>
    ensures { OnOk result (text.new.items ≡ text.old.items ++ key_pointer form list id.now) }
{
    push_keys(text, list)?;
    push_text(text, "/")?;
    push_token(text, form, id.as_str())
}

/// Appends the place of a list of key objects.
#[tactic(auto, unfolding(crate::specs::FindingPlace::keys_pointer))]
fn push_keys(text: &mut Vec<u8>, list: KeyList) -> Result<(), AllocError>
    ensures { OnOk result (text.new.items ≡ text.old.items ++ keys_pointer list) }
{
    match list {
        KeyList::Owners => push_text(text, "/owners"),
        KeyList::OfBuilder {
            expectation,
            builder,
        } => push_builder(text, expectation, builder),
        KeyList::OfLayout => push_text(text, "/keys"),
    }
}

#[tactic(auto, unfolding(crate::specs::FindingPlace::keys_pointer))]
fn push_builder(text: &mut Vec<u8>, expectation: usize, builder: usize) -> Result<(), AllocError>
    ensures { OnOk result (text.new.items
        ≡ text.old.items ++ keys_pointer (KeyList.OfBuilder expectation builder)) }
{
    push_told_number(text, "/expectations/", expectation, "/builders/")?;
    push_told_number(text, "", builder, "/keys")
}
