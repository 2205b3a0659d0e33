//! Maps from paths to digests, and the lists of digests that they are read from.
use crate::values::digests;
use it_digest::artifacts::Artifacts;
use it_digest::compare::DigestSet;
use it_digest::listed::read_lists;
use it_digest::sums::{ListAlgorithm, read_list, read_sums};
use it_tables::RowFault;
use it_tables::row::{bytes_in, list_in, text_in};
use serde_json::Value;
use std::alloc::{AllocError, Global};
use std::fmt::Debug;

/// What a call on maps of digests answers.
pub(crate) fn answer(alloc: Global, call: &str, row: &Value) -> Result<String, RowFault> {
    match call {
        "put" => put(alloc, row),
        "entries" => Ok(told(alloc, &map_in(alloc, row, "entries")?)?),
        "paths" => Ok(paths(alloc, &map_in(alloc, row, "entries")?)?),
        "empty" => Ok(map_in(alloc, row, "entries")?.is_empty().to_string(alloc)?),
        "get" => get(alloc, row),
        "same" => same(alloc, row),
        "sums" => sums(alloc, row),
        "sums by SHA-512" => sums_by_sha512(alloc, row),
        "lists" => lists(alloc, row),
        _ => Err(RowFault::UnknownCall),
    }
}

/// The path and the digests of an entry.
fn entry_of(alloc: Global, entry: &Value) -> Result<(&str, DigestSet), RowFault> {
    let path = text_in(entry, "path")?;
    Ok((path, digests::digests_in(alloc, entry, "digests")?))
}

/// Puts an entry into the map, and returns what was under its path before.
fn put_entry(
    alloc: Global,
    map: &mut Artifacts,
    entry: &Value,
) -> Result<Option<DigestSet>, RowFault> {
    let (path, digests) = entry_of(alloc, entry)?;
    let path = String::from_str(alloc, path)?;
    Ok(map.insert(path, digests)?)
}

/// The map of the entries that a member lists.
fn map_in(alloc: Global, row: &Value, name: &'static str) -> Result<Artifacts, RowFault> {
    let mut map = Artifacts::new(alloc);
    for entry in list_in(row, name)? {
        put_entry(alloc, &mut map, entry)?;
    }
    Ok(map)
}

/// The digests, or `none`.
fn digests_or_none(alloc: Global, found: Option<DigestSet>) -> Result<String, AllocError> {
    match found {
        Some(digests) => digests::told(alloc, &digests),
        None => String::from_str(alloc, "none"),
    }
}

/// What was under the path of each entry before it was put into a map.
fn put(alloc: Global, row: &Value) -> Result<String, RowFault> {
    let mut map = Artifacts::new(alloc);
    let mut text = String::new(alloc);
    for entry in list_in(row, "entries")? {
        let before = put_entry(alloc, &mut map, entry)?;
        write!(text, "{};", digests_or_none(alloc, before)?)?;
    }
    Ok(text)
}

/// The entries of a map, each followed by a semicolon.
///
/// # Errors
///
/// Memory was refused.
pub(crate) fn told(alloc: Global, map: &Artifacts) -> Result<String, AllocError> {
    let mut text = String::new(alloc);
    for (path, digests) in map.iter() {
        write!(text, "{path}{};", digests::told(alloc, &digests.set())?)?;
    }
    Ok(text)
}

fn paths(alloc: Global, map: &Artifacts) -> Result<String, AllocError> {
    let mut text = String::new(alloc);
    for path in map.paths() {
        write!(text, "{path};")?;
    }
    Ok(text)
}

fn get(alloc: Global, row: &Value) -> Result<String, RowFault> {
    let map = map_in(alloc, row, "entries")?;
    let found = map.get(text_in(row, "path")?);
    Ok(digests_or_none(alloc, found)?)
}

fn same(alloc: Global, row: &Value) -> Result<String, RowFault> {
    let one = map_in(alloc, row, "one")?;
    let other = map_in(alloc, row, "other")?;
    Ok(one.same_as(&other).to_string(alloc)?)
}

/// The entries of a digest list as `sha256sum` writes it.
fn sums(alloc: Global, row: &Value) -> Result<String, RowFault> {
    let bytes = bytes_in(alloc, row, "bytes")?;
    told_or_fault(alloc, read_sums(alloc, bytes.as_slice()))
}

/// The entries of a digest list as `sha512sum` writes it.
fn sums_by_sha512(alloc: Global, row: &Value) -> Result<String, RowFault> {
    let bytes = bytes_in(alloc, row, "bytes")?;
    let list = read_list(alloc, ListAlgorithm::Sha512, bytes.as_slice());
    told_or_fault(alloc, list)
}

/// The entries of two digest lists together.
fn lists(alloc: Global, row: &Value) -> Result<String, RowFault> {
    let sums = bytes_in(alloc, row, "sums")?;
    let sums512 = bytes_in(alloc, row, "sums512")?;
    let lists = read_lists(alloc, sums.as_slice(), sums512.as_slice());
    told_or_fault(alloc, lists)
}

/// The entries that were read, or the fault.
fn told_or_fault<F: Copy + Debug>(
    alloc: Global,
    files: Result<Artifacts, F>,
) -> Result<String, RowFault> {
    match files {
        Ok(files) => Ok(told(alloc, &files)?),
        Err(fault) => Ok(format!(in alloc; "{fault:?}")?),
    }
}
