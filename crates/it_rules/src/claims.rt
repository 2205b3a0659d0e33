//! Which paths a rule claims, one path at a time: a function for each rule.
ghost use Rattle.std.specs.Prelude.{◌≡◌, ◌↔◌, ◌++◌, IfOk, IsTrue, MatchOption};
ghost use Rattle.std.specs.Prelude.{option_map};
ghost use Rattle.std.specs.FinMap.{get};
ghost use Rattle.it_digest.specs.Compare.{Agree, Differ};
ghost use Rattle.it_rules.specs.FolderPrefix.{folder_prefix};
ghost use Rattle.it_rules.specs.Item.{artifacts_on, links_of, recorded_of};
ghost use Rattle.it_rules.specs.Rules.{Claims, CreateClaims, DeleteClaims, IsMatch, MatchClaims};
ghost use Rattle.it_rules.specs.Rules.{ModifyClaims, NamesDiffer};
ghost use Rattle.it_rules.specs.inside.Judged.{HasDigests};

use crate::folder_prefix::{join_folder, strip_folder};
use crate::item::{Item, Named};
use crate::judged::JudgedArtifact;
use crate::looked::find_link;
use it_digest::artifacts::Artifacts;
use it_digest::compact::CompactSet;
use it_digest::compare::Compare;
use it_docs::rule::{Rule, Side};
use it_glob::Pattern;
use std::alloc::{AllocError, Global};

/// Which paths a `MATCH` rule may claim.
#[derive(Drop)]
struct Source<'a> {
    /// Its pattern.
    pattern: &'a Pattern,
    /// The prefix that a path has there, before what the pattern matches.
    prefix: &'a str,
}

/// Where a `MATCH` rule looks for the artifact of a path.
#[derive(Drop)]
struct Target<'a> {
    /// The name of the item that recorded it.
    from: &'a str,
    /// The side of that item.
    side: Side,
    /// The prefix that the path has there.
    prefix: &'a str,
}

/// Whether a `rule` of an `item` claims a `path` of a `side` (in-toto 1.0, section 4.3.3). `links`,
/// for `MATCH`, are what items recorded, under names that all differ. `DISALLOW` and `REQUIRE`
/// claim nothing.
///
/// # Errors
///
/// `AllocError` where memory was refused.
pub fn claims(
    alloc: Global,
    rule: &Rule,
    side: Side,
    item: &Item,
    links: &[Named],
    path: &str,
) -> Result<bool, AllocError>
    requires { NamesDiffer (links_of links.now) }
    ensures { IfOk result (λ claimed. IsTrue claimed
        ↔ Claims rule.now side (recorded_of item.now) (links_of links.now) path.now) }
{
    let judged = JudgedArtifact {
        item,
        side,
        path,
        digests: item.artifacts_on(side).at(path),
    };
    claims_artifact(alloc, rule, &judged, links)
}

/// Whether a rule claims an artifact.
pub(crate) fn claims_artifact(
    alloc: Global,
    rule: &Rule,
    judged: &JudgedArtifact,
    links: &[Named],
) -> Result<bool, AllocError>
    requires digests { HasDigests judged.now }
    requires names { NamesDiffer (links_of links.now) }
    ensures { IfOk result (λ claimed. IsTrue claimed
        ↔ Claims rule.now judged.now.side (recorded_of judged.now.item.now) (links_of links.now)
        judged.now.path.now) }
{
    match rule {
        Rule::Match {
            pattern,
            source_prefix,
            side,
            target_prefix,
            from,
        } => {
            let source = Source {
                pattern,
                prefix: source_prefix.as_str(),
            };
            let target = Target {
                from: from.as_str(),
                side: *side,
                prefix: target_prefix.as_str(),
            };
            match_claims(alloc, &source, &target, judged, links)
        }
        Rule::Create(pattern) => Ok(create_claims(pattern, judged)),
        Rule::Delete(pattern) => Ok(delete_claims(pattern, judged)),
        Rule::Modify(pattern) => Ok(modify_claims(pattern, judged)),
        Rule::Allow(pattern) => Ok(allow_claims(pattern, judged.path)),
        Rule::Disallow(_) | Rule::Require(_) => Ok(false),
    }
}

fn match_claims(
    alloc: Global,
    source: &Source,
    target: &Target,
    judged: &JudgedArtifact,
    links: &[Named],
) -> Result<bool, AllocError>
    requires digests { HasDigests judged.now }
    requires names { NamesDiffer (links_of links.now) }
    ensures { IfOk result (λ claimed. IsTrue claimed
        ↔ MatchClaims source.now.pattern.now source.now.prefix.now target.now.side
        target.now.prefix.now target.now.from.now
        (artifacts_on judged.now.side (recorded_of judged.now.item.now)) (links_of links.now)
        judged.now.path.now) }
{
    let Some(rest) = strip_folder(judged.path, source.prefix) else {
        return Ok(false);
    };
    if !source.pattern.matches(rest) {
        return Ok(false);
    }
    let Some(link) = find_link(links, target.from) else {
        return Ok(false);
    };
    let recorded = link.item.artifacts_on(target.side);
    let there = digests_under(alloc, recorded, target.prefix, rest)?;
    Ok(agree(judged.digests, there))
}

fn create_claims(pattern: &Pattern, judged: &JudgedArtifact) -> bool
    requires { HasDigests judged.now }
    ensures { IsTrue result
        ↔ CreateClaims pattern.now (recorded_of judged.now.item.now) judged.now.path.now }
{
    pattern.matches(judged.path)
        && judged.on(Side::Products).is_some()
        && judged.on(Side::Materials).is_none()
}

fn delete_claims(pattern: &Pattern, judged: &JudgedArtifact) -> bool
    requires { HasDigests judged.now }
    ensures { IsTrue result
        ↔ DeleteClaims pattern.now (recorded_of judged.now.item.now) judged.now.path.now }
{
    pattern.matches(judged.path)
        && judged.on(Side::Materials).is_some()
        && judged.on(Side::Products).is_none()
}

fn modify_claims(pattern: &Pattern, judged: &JudgedArtifact) -> bool
    requires { HasDigests judged.now }
    ensures { IsTrue result
        ↔ ModifyClaims pattern.now (recorded_of judged.now.item.now) judged.now.path.now }
{
    pattern.matches(judged.path) && differ(judged.on(Side::Materials), judged.on(Side::Products))
}

fn allow_claims(pattern: &Pattern, path: &str) -> bool
    ensures { IsTrue result ↔ IsMatch pattern.now path.now }
{
    pattern.matches(path)
}

/// The digests of the artifact at a path below a folder's prefix.
fn digests_under<'a>(
    alloc: Global,
    artifacts: &'a Artifacts,
    prefix: &str,
    rest: &str,
) -> Result<Option<&'a CompactSet>, AllocError>
    ensures { IfOk result (λ found. option_map (λ digests. digests.now) found
        ≡ get artifacts.now (folder_prefix prefix.now ++ rest.now)) }
{
    if prefix.is_empty() {
        return Ok(artifacts.at(rest));
    }
    let path = join_folder(alloc, prefix, rest)?;
    Ok(artifacts.at(path.as_str()))
}

/// Whether both digest sets exist and agree.
fn agree(here: Option<&CompactSet>, there: Option<&CompactSet>) -> bool
    ensures { IsTrue result
        ↔ MatchOption here.entry ⊥ (λ a. MatchOption there.entry ⊥ (λ b. Agree a.now b.now)) }
{
    match (here, there) {
        (Some(here), Some(there)) => here.compare(there) == Compare::Agree,
        _ => false,
    }
}

/// Whether both digest sets exist and differ.
fn differ(before: Option<&CompactSet>, after: Option<&CompactSet>) -> bool
    ensures { IsTrue result
        ↔ MatchOption before.entry ⊥ (λ a. MatchOption after.entry ⊥ (λ b. Differ a.now b.now)) }
{
    match (before, after) {
        (Some(before), Some(after)) => before.compare(after) == Compare::Differ,
        _ => false,
    }
}
