//! Which trees are equal, and what small types lend.
use it_borrowed::parts::from_bytes;
use it_docs::table::Table;
use it_docs::tree::{Members, Tree, Trees};
use it_tables::RowFault;
use it_tables::row::{number_in, text_in, texts_in};
use serde_json::Value;
use std::alloc::{AllocError, Global};
use std::collections::BTreeMap;

/// What a call on trees answers.
pub(crate) fn answer(alloc: Global, call: &str, row: &Value) -> Result<String, RowFault> {
    match call {
        "equal" => equal(alloc, row),
        "member" => member(alloc, row),
        "no members" => Ok(Members::new(alloc).as_map().is_empty().to_string(alloc)?),
        "table" => table(alloc, row),
        "list" => list(alloc, row),
        _ => Err(RowFault::UnknownCall),
    }
}

/// The tree in the text of a member.
fn tree_in(alloc: Global, row: &Value, name: &'static str) -> Result<Tree, RowFault> {
    let text = text_in(row, name)?.as_bytes();
    from_bytes::<Tree>(alloc, text)?.ok_or(RowFault::BadMember(name))
}

fn equal(alloc: Global, row: &Value) -> Result<String, RowFault> {
    let one = tree_in(alloc, row, "one")?;
    let other = tree_in(alloc, row, "other")?;
    Ok(one.equals(&other).to_string(alloc)?)
}

/// Members with nothing but a whole number, and the one of them that is asked for.
fn member(alloc: Global, row: &Value) -> Result<String, RowFault> {
    let mut by_name = BTreeMap::new(alloc);
    let name = String::from_str(alloc, text_in(row, "name")?)?;
    let number = Tree::Whole(i128::from(number_in(row, "whole")?));
    drop(by_name.insert(name, number)?);
    let members = Members::from(by_name);
    Ok(lent(alloc, &members, text_in(row, "get")?)?)
}

/// The members with their names, and the one of a name, or `none`.
fn lent(alloc: Global, members: &Members, name: &str) -> Result<String, AllocError> {
    let all = members_told(alloc, members)?;
    match members.get(name) {
        Some(tree) => format!(in alloc; "{all} {}", tree_told(alloc, tree)?),
        None => format!(in alloc; "{all} none"),
    }
}

/// The members with their names.
///
/// # Errors
///
/// Memory was refused.
pub(crate) fn members_told(alloc: Global, members: &Members) -> Result<String, AllocError> {
    let mut text = String::new(alloc);
    for (name, tree) in members.as_map().iter() {
        write!(text, "{name}={};", tree_told(alloc, tree)?)?;
    }
    Ok(text)
}

/// A tree in words: null, a flag, a text or a whole number of 64 bits; otherwise its kind.
fn tree_told(alloc: Global, tree: &Tree) -> Result<String, AllocError> {
    match tree {
        Tree::Null => String::from_str(alloc, "null"),
        Tree::Flag(flag) => format!(in alloc; "flag {flag}"),
        Tree::Whole(number) => whole_told(alloc, *number),
        Tree::Text(text) => format!(in alloc; "text {}", text.as_str()),
        Tree::Items(_) => String::from_str(alloc, "list"),
        Tree::Members(_) => String::from_str(alloc, "object"),
        Tree::Other => String::from_str(alloc, "other number"),
    }
}

fn whole_told(alloc: Global, number: i128) -> Result<String, AllocError> {
    match u64::try_from(number) {
        Ok(number) => format!(in alloc; "whole {number}"),
        Err(_) => String::from_str(alloc, "negative"),
    }
}

/// The names of a table that numbers them from 1, and the number of one of them.
fn table(alloc: Global, row: &Value) -> Result<String, RowFault> {
    let table = table_of(alloc, texts_in(alloc, row, "names")?)?;
    let found = table.get(text_in(row, "name")?);
    let all = numbers_told(alloc, &table)?;
    Ok(format!(in alloc; "{all} {found:?}")?)
}

fn table_of(alloc: Global, names: Vec<String>) -> Result<Table<u64>, AllocError> {
    let mut numbers = BTreeMap::new(alloc);
    let mut number = 0u64;
    for name in names {
        number = number.saturating_add(1);
        numbers.insert(name, number)?;
    }
    Ok(Table::from(numbers))
}

fn numbers_told(alloc: Global, table: &Table<u64>) -> Result<String, AllocError> {
    let mut text = String::new(alloc);
    for (name, number) in table.as_map().iter() {
        write!(text, "{name}={number};")?;
    }
    Ok(text)
}

/// How many trees a list of this many has.
fn list(alloc: Global, row: &Value) -> Result<String, RowFault> {
    let mut list = Vec::new(alloc);
    for _ in 0..number_in(row, "length")? {
        list.push(Tree::Flag(false))?;
    }
    Ok(Trees::from(list).as_slice().len().to_string(alloc)?)
}
