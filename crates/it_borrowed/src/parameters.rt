//! Reading trees of parameters (SLSA Provenance v1, `externalParameters`; a policy's
//! `parameters`).
ghost use Rattle.std.specs.Prelude.{◌≡◌, IfOk};
ghost use Rattle.json.specs.Value.{items_view, members_view};
ghost use Rattle.serde_json.specs.Data.{no_members};
ghost use Rattle.it_base.specs.JsonView.{json_of};
ghost use Rattle.it_base.specs.TreeOf.{IsMembers, IsTree, fields_of, number_tree, tree_of};
ghost use Rattle.it_base.specs.TreeOf.{trees_of};
ghost use Rattle.it_borrowed.specs.Tree.{as_data, data_of_items, data_of_members, number_in};

use crate::parts::FromBorrowed;
use crate::whole::{Whole, whole_of};
use it_base::text::Text;
use it_base::tree::{Members, Tree, Trees};
use json::Value;
use std::alloc::{AllocError, Global};
use std::collections::BTreeMap;

impl FromBorrowed for Members {
    ghost is_of = { IsMembers };

    /// Reads the members of a JSON object as trees. Here null is a value. Of two members of one
    /// name the last counts.
    fn from_borrowed(alloc: Global, value: &Value<'_>) -> Result<Option<Members>, AllocError> {
        match value {
            Value::Object(members) => Ok(Some(read_members(alloc, members)?)),
            Value::Null | Value::Bool(_) | Value::Number(_) | Value::String(_) | Value::Array(_) =>
                Ok(None),
        }
    }
}

impl FromBorrowed for Tree {
    ghost is_of = { IsTree };

    /// Reads a part as a tree. Every part is one.
    fn from_borrowed(alloc: Global, value: &Value<'_>) -> Result<Option<Tree>, AllocError> {
        Ok(Some(read(alloc, value)?))
    }
}

#[cycle(read)]
fn read(alloc: Global, value: &Value<'_>) -> Result<Tree, AllocError>
    ensures { IfOk result (λ t. json_of t ≡ tree_of (as_data value.now)) }
{
    match value {
        Value::Null => Ok(Tree::Null),
        Value::Bool(flag) => Ok(Tree::Flag(*flag)),
        Value::Number(text) => Ok(read_number(text)),
        Value::String(text) => Ok(Tree::Text(Text::copy(alloc, text)?)),
        Value::Array(items) => Ok(Tree::Items(read_items(alloc, items)?)),
        Value::Object(members) => Ok(Tree::Members(read_members(alloc, members)?)),
    }
}

fn read_number(text: &str) -> Tree
    ensures { json_of result ≡ number_tree (number_in text.now) }
{
    match whole_of(text) {
        Whole::Unsigned(number) => Tree::Whole(i128::from(number)),
        Whole::Negative(number) => Tree::Whole(i128::from(number)),
        Whole::Other => Tree::Other,
    }
}

#[cycle(read)]
fn read_items(alloc: Global, items: &Vec<Value<'_>>) -> Result<Trees, AllocError>
    ensures { IfOk result (λ ts. ts ≡ trees_of (data_of_items (items_view items.now.items))) }
{
    let mut list = Vec::new(alloc);
    for item in items {
        list.push(read(alloc, item)?)?;
    }
    Ok(Trees::from(list))
}

#[cycle(read)]
fn read_members(alloc: Global, members: &Vec<(&str, Value<'_>)>) -> Result<Members, AllocError>
    ensures { IfOk result (λ ms.
        ms ≡ fields_of (data_of_members (members_view members.now.items) no_members)) }
{
    let mut by_name = BTreeMap::new(alloc);
    for member in members {
        let name = String::from_str(alloc, member.0)?;
        drop(by_name.insert(name, read(alloc, &member.1)?)?);
    }
    Ok(Members::from(by_name))
}
