//! Where `MATCH` rules look for a path.
ghost use Rattle.std.specs.Prelude.{IfOk};
ghost use Rattle.std.specs.Bool.{OnFalse};
ghost use Rattle.it_base.specs.Finds.{Finds};
ghost use Rattle.it_rule_notes.specs.Missed.{IsUnmatched, LooksFor};
ghost use Rattle.it_rule_notes.specs.inside.JudgedRules.{judging_in};

use crate::judged::JudgedRules;
use it_base::text::Text;
use it_docs::rule::{Rule, Side};
use it_rules::folder_prefix::{join_folder, strip_folder};
use std::alloc::{AllocError, Global};

/// Where a `MATCH` looks for a path that its pattern matches.
#[derive(Drop)]
pub struct Target {
    /// The name of the item.
    pub from: Text,
    /// The side of that item.
    pub side: Side,
    /// The path there.
    pub path: Text,
}

/// Where a rule looks for a path, if it is a `MATCH` that looks for it.
pub(crate) fn target_of(
    alloc: Global,
    rule: &Rule,
    path: &str,
) -> Result<Option<Target>, AllocError>
    ensures { IfOk result (Finds (LooksFor rule.now path.now)) }
{
    let Rule::Match {
        pattern,
        source_prefix,
        side,
        target_prefix,
        from,
    } = rule
    else {
        return Ok(None);
    };
    let Some(rest) = strip_folder(path, source_prefix.as_str()) else {
        return Ok(None);
    };
    if !pattern.matches(rest) {
        return Ok(None);
    }
    Ok(Some(Target {
        from: Text::copy(alloc, from.as_str())?,
        side: *side,
        path: Text::from(join_folder(alloc, target_prefix.as_str(), rest)?),
    }))
}

/// Whether a `MATCH` before the index looks for a path.
pub(crate) fn is_matched(
    alloc: Global,
    judged: &JudgedRules,
    index: usize,
    path: &str,
) -> Result<bool, AllocError>
    ensures { IfOk result (λ is. OnFalse is (IsUnmatched (judging_in judged.now) index path.now)) }
{
    for (place, rule) in judged.rules.iter().enumerate() {
        if place >= index {
            return Ok(false);
        }
        let found = target_of(alloc, rule, path)?;
        if found.is_some() {
            return Ok(true);
        }
    }
    Ok(false)
}
