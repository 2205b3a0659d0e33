//! The names of findings.
ghost use Rattle.std.specs.Prelude.{◌≡◌};
ghost use Rattle.it_check.specs.FindingName.{member_name as member_name_form, name_of};
ghost use Rattle.it_check.specs.FindingName.{null_name as null_name_form};

use it_findings::finding::Finding;
use it_findings::member_finding::MemberFinding;
use it_findings::null_key::KeyList;

/// The name of a finding. Takes no memory.
pub fn finding_name(finding: &Finding) -> &'static str
    ensures { result.now ≡ name_of finding.now }
{
    match finding {
        Finding::NoRules(_) => "no-rules",
        Finding::OpenRules(_) => "open-rules",
        Finding::UnknownItem { .. } => "unknown-item",
        Finding::Parameter { .. } => "parameter",
        Finding::HighThreshold { .. } => "high-threshold",
        Finding::UnknownKey { .. } => "unknown-key",
        Finding::RepeatedKey { .. } => "repeated-key",
        Finding::NoBuilders(_) => "no-builders",
        Finding::NoLevel(_) => "no-level",
        Finding::UnreachableLevel { .. } => "unreachable-level",
        Finding::UnequalNumber { .. } => "unequal-number",
        Finding::UnusedExpectation(_) => "unused-expectation",
        Finding::NoThreshold(_) => "no-threshold",
        Finding::NullKey(key) => null_name(key.list),
        Finding::IdentityKey(_) => "identity-key",
        Finding::IncompleteIdentity(_) => "incomplete-identity",
        Finding::SharedKey(_) => "shared-key",
        Finding::Member(finding) => member_name(finding),
    }
}

fn member_name(finding: &MemberFinding) -> &'static str
    ensures { result.now ≡ member_name_form finding.now }
{
    match finding {
        MemberFinding::Repeated { .. } => "repeated-member",
        MemberFinding::Unread { .. } => "unread-member",
        MemberFinding::PrivateKey(_) => "private-key",
    }
}

fn null_name(list: KeyList) -> &'static str
    ensures { result.now ≡ null_name_form list }
{
    match list {
        KeyList::Owners => "null-owner",
        KeyList::OfBuilder { .. } | KeyList::OfLayout => "null-key",
    }
}
