//! Where the value of a parameter differs from the expected one.
ghost use Rattle.std.specs.Prelude.{◌≡◌, ◌↔◌, IfOk, IfSome, IsTrue, Some, option_map};
ghost use Rattle.it_base.specs.Equal.{equal};
ghost use Rattle.it_base.specs.Json.{members};
ghost use Rattle.it_base.specs.JsonView.{json_of};
ghost use Rattle.it_base.specs.TreeOf.{field_at};
ghost use Rattle.it_prov_notes.specs.Values.{AreSame, DifferAt, value_note};
ghost use Rattle.it_prov_notes.specs.inside.Inner.{AreInner, seen};

use crate::note::{Difference, ValueNote};
use it_base::sequence::Sequence;
use it_base::text::Text;
use it_base::tree::{Members, Tree};
use std::alloc::{AllocError, Global};

/// How many objects, one in another, are looked into.
const MOST_DEEP: u8 = 128;

/// Two values, or what is missing in their place.
#[derive(Clone, Copy)]
pub struct Values<'a> {
    /// What the provenance has.
    given: Option<&'a Tree>,
    /// What is expected.
    wanted: Option<&'a Tree>,
}

/// Two values, each under the name in an object.
#[derive(Clone, Copy)]
struct Inner<'a> {
    name: &'a str,
    values: Values<'a>,
}

/// The first place at which two unequal values differ, and what stands there: inside objects, the
/// first name under which they differ.
pub(crate) fn first_difference(
    alloc: Global,
    given: &Tree,
    wanted: &Tree,
) -> Result<Difference, AllocError>
    requires { ¬ IsTrue (equal (json_of given.now) (json_of wanted.now)) }
    ensures { IfOk result (DifferAt (json_of given.now) (json_of wanted.now)) }
{
    let mut place = Vec::new(alloc);
    let mut values = Values {
        given: Some(given),
        wanted: Some(wanted),
    };
    for _ in 0..MOST_DEEP {
        let Some(inner) = differing_member(&values) else {
            return difference_at(alloc, place, &values);
        };
        place.push(Text::copy(alloc, inner.name)?)?;
        values = inner.values;
    }
    difference_at(alloc, place, &values)
}

/// What is said of two values at a place.
fn difference_at(
    alloc: Global,
    place: Vec<Text>,
    values: &Values<'_>,
) -> Result<Difference, AllocError>
    ensures { IfOk result (λ told. told ≡ record {
      place = place.items;
      found = option_map value_note (seen values.now.given);
      wanted = option_map value_note (seen values.now.wanted);
    }) }
{
    let found = note_if(alloc, values.given)?;
    let wanted = note_if(alloc, values.wanted)?;
    Ok(Difference {
        place: Sequence::from(place),
        found,
        wanted,
    })
}

/// A member under which two values differ, if both are objects.
fn differing_member<'a>(values: &Values<'a>) -> Option<Inner<'a>>
    ensures { IfSome result (λ inner. AreInner values.now inner.name.now inner.values) }
{
    let given = members_of(values.given)?;
    let wanted = members_of(values.wanted)?;
    match differing_under(wanted, given, wanted) {
        None => differing_under(given, given, wanted),
        found => found,
    }
}

/// The members of a value, if it is an object.
fn members_of(value: Option<&Tree>) -> Option<&Members>
    ensures { IfSome result (λ found. seen value.entry ≡ Some (members found.now)) }
{
    match value? {
        Tree::Members(found) => Some(found),
        _ => None,
    }
}

/// The first of the names in `names` under which two objects differ.
fn differing_under<'a>(
    names: &'a Members,
    given: &'a Members,
    wanted: &'a Members,
) -> Option<Inner<'a>>
    ensures { IfSome result (λ inner.
        (seen inner.values.given ≡ field_at inner.name.now given.now)
        × (seen inner.values.wanted ≡ field_at inner.name.now wanted.now)
        × ¬ AreSame (seen inner.values.given) (seen inner.values.wanted)) }
{
    for (name, _) in names.iter() {
        let inner = differing_at(given, wanted, name.as_str());
        if inner.is_some() {
            return inner;
        }
    }
    None
}

/// What two objects have under a name, if they differ there.
fn differing_at<'a>(given: &'a Members, wanted: &'a Members, name: &'a str) -> Option<Inner<'a>>
    ensures { IfSome result (λ inner.
        (seen inner.values.given ≡ field_at inner.name.now given.now)
        × (seen inner.values.wanted ≡ field_at inner.name.now wanted.now)
        × ¬ AreSame (seen inner.values.given) (seen inner.values.wanted)) }
{
    let values = Values {
        given: given.get(name),
        wanted: wanted.get(name),
    };
    if are_same(&values) {
        return None;
    }
    Some(Inner { name, values })
}

/// Whether two values are equal, or neither is there.
fn are_same(values: &Values<'_>) -> bool
    ensures { IsTrue result ↔ AreSame (seen values.now.given) (seen values.now.wanted) }
{
    match (values.given, values.wanted) {
        (Some(given), Some(wanted)) => given.equals(wanted),
        (None, None) => true,
        _ => false,
    }
}

/// What is said of a value, if it is there.
fn note_if(alloc: Global, value: Option<&Tree>) -> Result<Option<ValueNote>, AllocError>
    ensures { IfOk result (λ note. note ≡ option_map value_note (seen value.entry)) }
{
    match value {
        None => Ok(None),
        Some(tree) => Ok(Some(note_of(alloc, tree)?)),
    }
}

fn note_of(alloc: Global, tree: &Tree) -> Result<ValueNote, AllocError>
    ensures { IfOk result (λ note. note ≡ value_note (json_of tree.now)) }
{
    match tree {
        Tree::Null => Ok(ValueNote::Null),
        Tree::Flag(flag) => Ok(ValueNote::Flag(*flag)),
        Tree::Whole(number) => Ok(ValueNote::Whole(*number)),
        Tree::Text(text) => Ok(ValueNote::Text(Text::copy(alloc, text.as_str())?)),
        Tree::Items(_) => Ok(ValueNote::List),
        Tree::Members(_) => Ok(ValueNote::Object),
        Tree::Other => Ok(ValueNote::Number),
    }
}
