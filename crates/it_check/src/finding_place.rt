//! Where findings are.
ghost use Rattle.std.specs.Prelude.{◌≡◌, ◌++◌, OnOk};
ghost use Rattle.it_check.specs.FindingPlace.{document_of, document_of_keys as keys_document};
ghost use Rattle.it_check.specs.FindingPlace.{document_of_member as member_document};
ghost use Rattle.it_check.specs.FindingPlace.{document_of_place as place_document};
ghost use Rattle.it_check.specs.FindingPlace.{document_of_root as root_document};
ghost use Rattle.it_check.specs.FindingPlace.{document_of_rules as rules_document, pointer_of};
ghost use Rattle.it_findings.specs.KeyPlaces.{list_of};

use crate::member_pointers::{push_key_at, push_member};
use crate::pointer_form::PointerForm;
use crate::pointers::{
    push_expectation, push_key, push_list, push_parameter_at, push_rule, push_step, push_step_key,
};
use it_findings::finding::{Finding, RuleList};
use it_findings::member_finding::MemberFinding;
use it_findings::null_key::KeyList;
use it_findings::place::{KeyPlace, Place};
use it_repeats::root::Root;
use std::alloc::AllocError;

/// The document that a finding is in: `policy` or `layout`. Takes no memory.
pub fn finding_document(finding: &Finding) -> &'static str
    ensures { result.now ≡ document_of finding.now }
{
    match finding {
        Finding::NoRules(list) | Finding::OpenRules(list) => document_of_rules(list),
        Finding::UnknownItem { list, .. } => document_of_rules(list),
        Finding::Parameter { list, .. } => document_of_rules(list),
        Finding::HighThreshold { .. } | Finding::NoThreshold(_) => "layout",
        Finding::UnknownKey { .. } | Finding::RepeatedKey { .. } => "layout",
        Finding::NoBuilders(_) | Finding::NoLevel(_) => "policy",
        Finding::UnreachableLevel { .. } | Finding::UnequalNumber { .. } => "policy",
        Finding::UnusedExpectation(_) => "policy",
        Finding::IdentityKey(key) | Finding::IncompleteIdentity(key) => document_of_key(key),
        Finding::SharedKey(shared) => document_of_key(&shared.place),
        Finding::NullKey(key) => document_of_keys(key.list),
        Finding::Member(finding) => document_of_member(finding),
    }
}

fn document_of_rules(list: &RuleList) -> &'static str
    ensures { result.now ≡ rules_document list.now }
{
    match list {
        RuleList::Deliver => "policy",
        RuleList::OfStep { .. } | RuleList::OfInspection { .. } => "layout",
    }
}

fn document_of_member(finding: &MemberFinding) -> &'static str
    ensures { result.now ≡ member_document finding.now }
{
    match finding {
        MemberFinding::Repeated { root, .. } => document_of_root(*root),
        MemberFinding::Unread { place, .. } => document_of_place(place),
        MemberFinding::PrivateKey(key) => document_of_key(key),
    }
}

fn document_of_root(root: Root) -> &'static str
    ensures { result.now ≡ root_document root }
{
    match root {
        Root::Policy => "policy",
        Root::Layout => "layout",
    }
}

fn document_of_place(place: &Place) -> &'static str
    ensures { result.now ≡ place_document place.now }
{
    match place {
        Place::Policy | Place::Expectation(_) | Place::Builder { .. } => "policy",
        Place::Layout | Place::Step(_) | Place::Inspection(_) => "layout",
        Place::Key(key) | Place::KeyValue(key) => document_of_key(key),
    }
}

fn document_of_key(key: &KeyPlace) -> &'static str
    ensures { result.now ≡ keys_document (list_of key.now) }
{
    document_of_keys(key.list())
}

fn document_of_keys(list: KeyList) -> &'static str
    ensures { result.now ≡ keys_document list }
{
    match list {
        KeyList::Owners | KeyList::OfBuilder { .. } => "policy",
        KeyList::OfLayout => "layout",
    }
}

/// Appends the place of a finding in its document, as a JSON pointer (RFC 6901).
///
/// # Errors
///
/// `AllocError` where memory was refused; a part of it may have been appended then.
pub fn push_pointer(
    text: &mut Vec<u8>,
    form: PointerForm,
    finding: &Finding,
) -> Result<(), AllocError>
    ensures { OnOk result (text.new.items ≡ text.old.items ++ pointer_of form finding.now) }
{
    match finding {
        Finding::NoRules(list) | Finding::OpenRules(list) => push_list(text, list),
        Finding::UnknownItem { list, place, .. } => push_rule(text, list, *place),
        Finding::Parameter { list, place } => push_rule(text, list, *place),
        Finding::HighThreshold { step, .. } => push_step(text, step.place, "/threshold"),
        Finding::UnknownKey { step, place, .. } => push_step_key(text, step.place, *place),
        Finding::RepeatedKey { step, place, .. } => push_step_key(text, step.place, *place),
        Finding::NoBuilders(place) => push_expectation(text, *place, "/builders"),
        Finding::NoLevel(place) => push_expectation(text, *place, "/level"),
        Finding::UnreachableLevel { place, .. } => push_expectation(text, *place, "/level"),
        Finding::UnequalNumber { place, name } => push_parameter_at(text, form, *place, name),
        Finding::UnusedExpectation(place) => push_expectation(text, *place, ""),
        Finding::NoThreshold(place) => push_step(text, *place, "/threshold"),
        Finding::NullKey(key) => push_key(text, form, key.list, &key.id),
        Finding::IdentityKey(key) => push_key_at(text, form, key),
        Finding::IncompleteIdentity(key) => push_key_at(text, form, key),
        Finding::SharedKey(shared) => push_key_at(text, form, &shared.place),
        Finding::Member(finding) => push_member(text, form, finding),
    }
}
