//! The parts of a case.
ghost use Rattle.std.specs.Prelude.{IfOk, IfSome};
ghost use Rattle.serde_json.specs.View.{view, items_view};
ghost use Rattle.it_base.specs.Parts.{IsPart};
ghost use Rattle.it_base.specs.Sequence.{AreEach, IsList};
ghost use Rattle.it_base.specs.Text.{IsText};
ghost use Rattle.it_tables.specs.Part.{IsNumber};
ghost use Rattle.itv_cases.specs.Part.{IsNamed, IsPair};

use it_base::parts::part;
use it_base::sequence::Sequence;
use it_base::text::Text;
use it_tables::RowFault;
use it_tables::row::{bytes_of, member_in};
use serde_json::Value;
use std::alloc::{AllocError, Global};

/// The text in a member.
pub(crate) fn text_part(alloc: Global, case: &Value, name: &'static str) -> Result<Text, RowFault>
    ensures { IfOk result (IsPart IsText name.now (view case.now)) }
{
    let text: Option<Text> = part(alloc, case, name)?;
    text.ok_or(RowFault::BadMember(name))
}

/// The number below 256 in a member.
pub(crate) fn number_part(case: &Value, name: &'static str) -> Result<u8, RowFault>
    ensures { IfOk result (IsPart IsNumber name.now (view case.now)) }
{
    let number = member_in(case, name)?.as_u64();
    number
        .and_then(|number| u8::try_from(number).ok())
        .ok_or(RowFault::BadMember(name))
}

/// The names and the bytes that a member lists in pairs.
pub(crate) fn named_part(
    alloc: Global,
    case: &Value,
    name: &'static str,
) -> Result<Vec<(Text, Sequence<u8>)>, RowFault>
    ensures { IfOk result
        (λ named. IsPart (IsList IsNamed) name.now (view case.now) named.items) }
{
    let Some(items) = member_in(case, name)?.as_array() else {
        return Err(RowFault::BadMember(name));
    };
    each_named(alloc, items)?.ok_or(RowFault::BadMember(name))
}

fn each_named(
    alloc: Global,
    items: &Vec<Value>,
) -> Result<Option<Vec<(Text, Sequence<u8>)>>, AllocError>
    ensures { IfOk result (λ found. IfSome found
        (λ named. AreEach IsNamed (items_view items.now.items) named.items)) }
{
    let mut named = Vec::new(alloc);
    for item in items {
        let Some(pair) = named_of(alloc, item)? else {
            return Ok(None);
        };
        named.push(pair)?;
    }
    Ok(Some(named))
}

fn named_of(alloc: Global, item: &Value) -> Result<Option<(Text, Sequence<u8>)>, AllocError>
    ensures { IfOk result (λ found. IfSome found (IsNamed (view item.now))) }
{
    let Some((name, content)) = pair(item) else {
        return Ok(None);
    };
    let Some(bytes) = bytes_of(alloc, content)? else {
        return Ok(None);
    };
    let name = String::from_str(alloc, name)?;
    Ok(Some((Text::from(name), bytes)))
}

/// The name and the other value of a list of two.
pub(crate) fn pair(item: &Value) -> Option<(&str, &Value)>
    ensures { IfSome result (λ found. IsPair (view item.now) found.0.now (view found.1.now)) }
{
    match item.as_array()?.as_slice() {
        [name, content] => Some((name.as_str()?, content)),
        _ => None,
    }
}
