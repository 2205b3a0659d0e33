//! What comes again in the objects of a document.
ghost use Rattle.std.specs.Prelude.{◌≡◌, ◌++◌, ◌∷◌, [], IfOk, OnOk, Some, if◌then◌else◌};
ghost use Rattle.json.specs.Value.{items_view, members_view, value_view};
ghost use Rattle.it_repeats.specs.Parts.{member_part, root_part};
ghost use Rattle.it_repeats.specs.Repeats.{RepeatsOf, item_repeats, member_repeats, repeated};
ghost use Rattle.it_repeats.specs.Repeats.{repeats_in as repeats_at};

use crate::again::come_again;
use crate::part::Part;
use crate::repeated_member::{RepeatedMember, Segment};
use crate::root::Root;
use it_base::text::Text;
use it_borrowed::document::read_tree;
use json::{Scratch, Value};
use std::alloc::{AllocError, Global};
use std::str;

/// The members that come again in the objects of such a document: those that do not count, since
/// another one of the same name comes later in the object. They are in the order of the text. In
/// members that nobody looks at, and in those that do not count, nothing is found, and nothing
/// where the bytes are no document.
///
/// # Errors
///
/// `AllocError` where memory was refused.
pub fn repeated_members(
    alloc: Global,
    root: Root,
    bytes: &[u8],
) -> Result<Vec<RepeatedMember>, AllocError>
    ensures { IfOk result (λ found. RepeatsOf root bytes.now found.items) }
{
    let Ok(text) = str::from_utf8(bytes) else {
        return Ok(Vec::new(alloc));
    };
    let mut scratch = Scratch::new(alloc);
    match read_tree(alloc, text, &mut scratch)? {
        Some(tree) => repeated_in_tree(alloc, root, &tree),
        None => Ok(Vec::new(alloc)),
    }
}

/// The members that come again in the objects of such a document, as `repeated_members` finds them
/// in its text, of which this is the tree.
///
/// # Errors
///
/// `AllocError` where memory was refused.
pub fn repeated_in_tree(
    alloc: Global,
    root: Root,
    tree: &Value<'_>,
) -> Result<Vec<RepeatedMember>, AllocError>
    ensures { IfOk result (λ found.
        found.items ≡ repeats_at (Some (root_part root)) [] (value_view tree.now)) }
{
    repeats_in(alloc, Some(root.part()), &mut Vec::new(alloc), tree)
}

/// What is found in a value at a place, which is such a part or one that nobody looks at.
#[cycle(repeats)]
fn repeats_in(
    alloc: Global,
    part: Option<Part>,
    place: &mut Vec<Segment>,
    value: &Value<'_>,
) -> Result<Vec<RepeatedMember>, AllocError>
    ensures found { IfOk result (λ found.
        found.items ≡ repeats_at part place.old.items (value_view value.now)) }
    ensures place { OnOk result (place.new.items ≡ place.old.items) }
{
    let Some(part) = part else {
        return Ok(Vec::new(alloc));
    };
    match value {
        Value::Array(items) => items_repeats(alloc, part.item(), place, items),
        Value::Object(members) => members_repeats(alloc, part, place, members),
        Value::Null | Value::Bool(_) | Value::Number(_) | Value::String(_) => Ok(Vec::new(alloc)),
    }
}

/// What is found in the items of the list at a place.
#[cycle(repeats)]
fn items_repeats(
    alloc: Global,
    part: Option<Part>,
    place: &mut Vec<Segment>,
    items: &Vec<Value<'_>>,
) -> Result<Vec<RepeatedMember>, AllocError>
    ensures found { IfOk result (λ found.
        found.items ≡ item_repeats part place.old.items 0 (items_view items.now.items)) }
    ensures place { OnOk result (place.new.items ≡ place.old.items) }
{
    let depth = place.len();
    let mut found = Vec::new(alloc);
    for (number, item) in items.iter().enumerate() {
        place.push(Segment::Item(number))?;
        let mut here = repeats_in(alloc, part, place, item)?;
        place.truncate(depth);
        found.append(&mut here)?;
    }
    Ok(found)
}

/// What is found in the members of the object at a place.
#[cycle(repeats)]
fn members_repeats(
    alloc: Global,
    part: Part,
    place: &mut Vec<Segment>,
    members: &Vec<(&str, Value<'_>)>,
) -> Result<Vec<RepeatedMember>, AllocError>
    ensures found { IfOk result (λ found.
        found.items ≡ member_repeats part place.old.items (members_view members.now.items)) }
    ensures place { OnOk result (place.new.items ≡ place.old.items) }
{
    let again = come_again(alloc, members)?;
    let mut found = Vec::new(alloc);
    for (number, member) in members.iter().enumerate() {
        let mut here = one_repeats(alloc, part, place, member, again[number])?;
        found.append(&mut here)?;
    }
    Ok(found)
}

/// What is found in a member of the object at a place, which comes again or not.
#[cycle(repeats)]
fn one_repeats(
    alloc: Global,
    part: Part,
    place: &mut Vec<Segment>,
    member: &(&str, Value<'_>),
    again: bool,
) -> Result<Vec<RepeatedMember>, AllocError>
    ensures found { IfOk result (λ found. found.items
        ≡ (if again then repeated place.old.items member.now.0.now ∷ []
        else repeats_at (member_part part member.now.0.now)
        (place.old.items ++ Segment.Member member.now.0.now ∷ []) (value_view member.now.1))) }
    ensures place { OnOk result (place.new.items ≡ place.old.items) }
{
    let name = member.0;
    if again {
        return one(alloc, RepeatedMember::at(alloc, place.as_slice(), name)?);
    }
    let Some(inner) = part.member(name) else {
        return Ok(Vec::new(alloc));
    };
    let depth = place.len();
    place.push(Segment::Member(Text::copy(alloc, name)?))?;
    let found = repeats_in(alloc, Some(inner), place, &member.1)?;
    place.truncate(depth);
    Ok(found)
}

/// One member alone.
fn one(alloc: Global, member: RepeatedMember) -> Result<Vec<RepeatedMember>, AllocError>
    ensures { IfOk result (λ found. found.items ≡ member ∷ []) }
{
    let mut found = Vec::new(alloc);
    found.push(member)?;
    Ok(found)
}
