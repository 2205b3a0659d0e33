//! Which members of an object come again.
ghost use Rattle.std.specs.Prelude.{◌≡◌, IfOk};
ghost use Rattle.json.specs.Strict.{keys};
ghost use Rattle.json.specs.Value.{members_view};
ghost use Rattle.it_repeats.specs.Again.{again_in, is_among};

use json::Value;
use std::alloc::{AllocError, Global};
use std::collections::BTreeSet;

/// So many members are compared with one another. The names of more are put into a set.
const FEW: usize = 8;

/// Of each member of an object, whether another one of its name comes later.
///
/// # Errors
///
/// `AllocError` where memory was refused.
pub(crate) fn come_again(
    alloc: Global,
    members: &Vec<(&str, Value<'_>)>,
) -> Result<Vec<bool>, AllocError>
    ensures { IfOk result (λ again.
        again.items ≡ again_in (keys (members_view members.now.items))) }
{
    if members.len() <= FEW {
        few_come_again(alloc, members.as_slice())
    } else {
        many_come_again(alloc, members)
    }
}

/// The same, where each member is compared with those after it.
fn few_come_again(alloc: Global, members: &[(&str, Value<'_>)]) -> Result<Vec<bool>, AllocError>
    ensures { IfOk result (λ again. again.items ≡ again_in (keys (members_view members.now))) }
{
    let mut again = Vec::with_capacity(alloc, members.len())?;
    for (number, member) in members.iter().enumerate() {
        again.push(is_among(&members[number + 1..], member.0))?;
    }
    Ok(again)
}

/// Whether one of the members has this name.
fn is_among(members: &[(&str, Value<'_>)], name: &str) -> bool
    ensures { result ≡ is_among (keys (members_view members.now)) name.now }
{
    for member in members {
        if member.0 == name {
            return true;
        }
    }
    false
}

/// The same, with the names in a set.
fn many_come_again(alloc: Global, members: &Vec<(&str, Value<'_>)>) -> Result<Vec<bool>, AllocError>
    ensures { IfOk result (λ again.
        again.items ≡ again_in (keys (members_view members.now.items))) }
{
    let mut seen = BTreeSet::new(alloc);
    let mut again = Vec::new(alloc);
    let mut left = members.len();
    while left > 0 {
        left -= 1;
        let is_new = seen.insert(members[left].0)?;
        again.push(!is_new)?;
    }
    again.reverse();
    Ok(again)
}
