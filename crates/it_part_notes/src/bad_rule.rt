//! The item of a list of rules that is not a rule.
ghost use Rattle.std.specs.Prelude.{IfOk, IfSome};
ghost use Rattle.it_borrowed.specs.Tree.{as_data};
ghost use Rattle.it_part_notes.specs.PartNotes.{HasBadRule};

use crate::fit::reads;
use crate::item_at::{count_at, item_at};
use crate::part_note::BadRule;
use it_base::sequence::Sequence;
use it_base::text::Text;
use it_borrowed::parts::FromBorrowed;
use it_docs::rule::Rule;
use json::Value;
use std::alloc::{AllocError, Global};

/// The first item that is not a rule, in the list that is the member of this name.
///
/// # Errors
///
/// `AllocError` where memory was refused.
pub(crate) fn bad_rule(
    alloc: Global,
    object: &Value<'_>,
    name: &str,
) -> Result<Option<BadRule>, AllocError>
    ensures { IfOk result (λ found. IfSome found (HasBadRule (as_data object.now) name.now)) }
{
    for number in 0..count_at(object, name) {
        let found = bad_rule_at(alloc, object, name, number)?;
        if found.is_some() {
            return Ok(found);
        }
    }
    Ok(None)
}

/// The item with this number, if it is not a rule.
fn bad_rule_at(
    alloc: Global,
    object: &Value<'_>,
    name: &str,
    number: usize,
) -> Result<Option<BadRule>, AllocError>
    ensures { IfOk result (λ found. IfSome found (HasBadRule (as_data object.now) name.now)) }
{
    let Some(item) = item_at(object, name, number) else {
        return Ok(None);
    };
    if reads::<Rule>(alloc, item)? {
        return Ok(None);
    }
    let words = Sequence::<Text>::from_borrowed(alloc, item)?;
    Ok(Some(BadRule { number, words }))
}
