//! The range of the paths that a rule can reach: those that begin with its front.
ghost use Rattle.std.specs.Prelude.{IfOk};
ghost use Rattle.it_docs.specs.declared.rule.Side.{Side};
ghost use Rattle.it_rules.specs.Item.{Links, Recorded};
ghost use Rattle.it_rules.specs.Paths.{ArePaths};
ghost use Rattle.it_rules.specs.Ranges.{Covers};
ghost use Rattle.it_rules.specs.inside.Reach.{IsMatchUnder};
ghost use Rattle.it_rules.specs.Rules.{Claims, IsMatch};

use crate::folder_prefix::join_folder;
use crate::ranges::front_range;
use it_docs::rule::Rule;
use it_glob::Pattern;
use std::alloc::{AllocError, Global};

/// A range that has every path that a rule claims: the places of the paths that begin with the
/// rule's front, from the first number to before the second.
///
/// # Errors
///
/// `AllocError` where memory was refused.
pub fn claimed_range(
    alloc: Global,
    rule: &Rule,
    paths: &[&str],
) -> Result<(usize, usize), AllocError>
    requires { ArePaths paths.now }
    ensures { IfOk result (λ range. (side : Side) (item : Recorded) (links : Links)
        → Covers (Claims rule.now side item links) paths.now range.0 range.1) }
{
    match rule {
        Rule::Match {
            pattern,
            source_prefix,
            ..
        } => match_range(alloc, pattern, source_prefix.as_str(), paths),
        Rule::Create(pattern) => Ok(pattern_range(pattern, paths)),
        Rule::Delete(pattern) => Ok(pattern_range(pattern, paths)),
        Rule::Modify(pattern) => Ok(pattern_range(pattern, paths)),
        Rule::Allow(pattern) => Ok(pattern_range(pattern, paths)),
        Rule::Disallow(_) | Rule::Require(_) => Ok((0, 0)),
    }
}

/// A range that has every path that a pattern matches.
pub(crate) fn pattern_range(pattern: &Pattern, paths: &[&str]) -> (usize, usize)
    requires { ArePaths paths.now }
    ensures { Covers (IsMatch pattern.now) paths.now result.0 result.1 }
{
    front_range(paths, pattern.literal_front())
}

/// A range that has every path that a pattern matches after a folder's prefix.
fn match_range(
    alloc: Global,
    pattern: &Pattern,
    source_prefix: &str,
    paths: &[&str],
) -> Result<(usize, usize), AllocError>
    requires { ArePaths paths.now }
    ensures { IfOk result (λ range.
        Covers (IsMatchUnder pattern.now source_prefix.now) paths.now range.0 range.1) }
{
    let front = join_folder(alloc, source_prefix, pattern.literal_front())?;
    Ok(front_range(paths, front.as_str()))
}
