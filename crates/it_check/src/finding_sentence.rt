//! What is said of findings.
ghost use Rattle.std.specs.Prelude.{◌≡◌, ◌++◌, OnOk};
ghost use Rattle.it_check.specs.FindingSentence.{sentence_of};

use crate::expectation_sentences::{
    push_no_builders, push_no_level, push_unequal_number, push_unreachable_level,
    push_unused_expectation,
};
use crate::identity_sentences::{push_identity, push_incomplete};
use crate::member_sentences::push_on_member;
use crate::null_key_sentence::push_null_key;
use crate::rule_sentences::{push_no_rules, push_open_rules, push_parameter, push_unknown_item};
use crate::shared_key_sentence::push_shared_key;
use crate::step_key_sentences::{
    push_high_threshold, push_no_threshold, push_repeated_key, push_unknown_key,
};
use it_findings::finding::Finding;
use std::alloc::AllocError;

/// Appends what is said of a finding, as a sentence without a full stop, with names written as
/// reports write them.
///
/// # Errors
///
/// `AllocError` where memory was refused; a part of the sentence may have been appended then.
pub fn push_sentence(text: &mut Vec<u8>, finding: &Finding) -> Result<(), AllocError>
    ensures { OnOk result (text.new.items ≡ text.old.items ++ sentence_of finding.now) }
{
    match finding {
        Finding::NoRules(list) => push_no_rules(text, list),
        Finding::OpenRules(list) => push_open_rules(text, list),
        Finding::UnknownItem { list, place, name } => push_unknown_item(text, list, *place, name),
        Finding::Parameter { list, place } => push_parameter(text, list, *place),
        Finding::HighThreshold {
            step,
            threshold,
            ids,
        } => push_high_threshold(text, step, *threshold, *ids),
        Finding::UnknownKey { step, id, .. } => push_unknown_key(text, step, id),
        Finding::RepeatedKey { step, id, .. } => push_repeated_key(text, step, id),
        Finding::NoBuilders(place) => push_no_builders(text, *place),
        Finding::NoLevel(place) => push_no_level(text, *place),
        Finding::UnreachableLevel { place, level } => {
            push_unreachable_level(text, *place, *level)
        }
        Finding::UnequalNumber { place, name } => push_unequal_number(text, *place, name),
        Finding::UnusedExpectation(place) => push_unused_expectation(text, *place),
        Finding::NoThreshold(place) => push_no_threshold(text, *place),
        Finding::NullKey(key) => push_null_key(text, key),
        Finding::IdentityKey(key) => push_identity(text, key),
        Finding::IncompleteIdentity(key) => push_incomplete(text, key),
        Finding::SharedKey(shared) => push_shared_key(text, shared),
        Finding::Member(finding) => push_on_member(text, finding),
    }
}
