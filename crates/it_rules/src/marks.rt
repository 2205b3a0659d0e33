//! Paths with a mark on some of them, such as on those that a rule has consumed.
ghost use Rattle.std.specs.Prelude.{◌≡◌, ◌↔◌, List, ℕ, length, map, IfOk, OnOk, IsTrue};
ghost use Rattle.std.specs.Prelude.{MatchOption};
ghost use Rattle.it_rules.specs.Item.{artifacts_on, links_of, recorded_of};
ghost use Rattle.it_rules.specs.Paths.{ArePaths};
ghost use Rattle.it_rules.specs.Marks.{AreLeft, IsLeft};
ghost use Rattle.it_rules.specs.Rules.{Claims, IsLeastMatch, IsMatch, NamesDiffer};
ghost use Rattle.it_rules.specs.inside.Judged.{AreDigestsOf};

use crate::claims::claims_artifact;
use crate::item::Subject;
use crate::judged::JudgedArtifact;
use crate::looked::looked_at;
use crate::reach::{claimed_range, pattern_range};
use it_docs::rule::Rule;
use it_glob::Pattern;
use std::alloc::{AllocError, Global};

/// Marks each unmarked path that a rule claims on what it is judged on.
pub(crate) fn consume(
    alloc: Global,
    paths: &[&str],
    marks: &mut [bool],
    rule: &Rule,
    subject: &Subject,
) -> Result<(), AllocError>
    requires paths { ArePaths paths.now }
    requires marks { length marks.old ≡ length paths.now }
    requires digests { AreDigestsOf
        (artifacts_on subject.now.side (recorded_of subject.now.item.now)) paths.now
        subject.now.digests.now }
    requires names { NamesDiffer (links_of subject.now.links.now) }
    ensures { OnOk result ((path : List ℕ) → IsLeft paths.now marks.new path
        ↔ (IsLeft paths.now marks.old path
        × ¬ Claims rule.now subject.now.side (recorded_of subject.now.item.now)
        (links_of subject.now.links.now) path)) }
{
    let (start, end) = claimed_range(alloc, rule, paths)?;
    let looked = looked_at(rule, subject.links);
    for place in start..end {
        let judged = JudgedArtifact {
            item: subject.item,
            side: subject.side,
            path: paths[place],
            digests: Some(subject.digests[place]),
        };
        if !marks[place] && claims_artifact(alloc, rule, &judged, looked)? {
            marks[place] = true;
        }
    }
    Ok(())
}

/// The least unmarked path that a pattern matches.
pub(crate) fn least_match<'a>(
    paths: &[&'a str],
    marks: &[bool],
    pattern: &Pattern,
) -> Option<&'a str>
    requires paths { ArePaths paths.now }
    requires marks { length marks.now ≡ length paths.now }
    ensures { MatchOption result
        ((path : List ℕ) → IsLeft paths.now marks.now path → ¬ IsMatch pattern.now path)
        (λ path. IsLeastMatch pattern.now (IsLeft paths.now marks.now) path.now) }
{
    let (start, end) = pattern_range(pattern, paths);
    for place in start..end {
        if !marks[place] && pattern.matches(paths[place]) {
            return Some(paths[place]);
        }
    }
    None
}

/// Whether a path is among the paths and unmarked.
pub(crate) fn is_left(paths: &[&str], marks: &[bool], path: &str) -> bool
    requires paths { ArePaths paths.now }
    requires marks { length marks.now ≡ length paths.now }
    ensures { IsTrue result ↔ IsLeft paths.now marks.now path.now }
{
    match paths.binary_search(&path) {
        Ok(place) => !marks[place],
        Err(_) => false,
    }
}

/// The unmarked paths, in their order. There is a mark for each of the `paths`.
///
/// # Errors
///
/// `AllocError` where memory was refused.
pub fn unmarked<'a>(
    alloc: Global,
    paths: &[&'a str],
    marks: &[bool],
) -> Result<Vec<&'a str>, AllocError>
    requires paths { ArePaths paths.now }
    requires marks { length marks.now ≡ length paths.now }
    ensures { IfOk result (λ left.
        AreLeft paths.now marks.now (map (λ path. path.now) left.items)) }
{
    let mut left = Vec::new(alloc);
    for place in 0..paths.len() {
        if !marks[place] {
            left.push(paths[place])?;
        }
    }
    Ok(left)
}
