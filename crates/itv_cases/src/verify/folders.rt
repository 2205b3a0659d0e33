//! Folders of links.
use crate::verify::inputs::folder_in;
use it_chain::bundle::{Bundle, BundleFault};
use it_tables::RowFault;
use it_tables::row::{list_in, text_in};
use serde_json::Value;
use std::alloc::Global;

/// Whether there is a folder at the path of a row.
pub(crate) fn has_folder(alloc: Global, row: &Value) -> Result<String, RowFault> {
    let links = folder_in(alloc, row, "links")?;
    let mut found = Some(&links);
    for name in list_in(row, "path")? {
        let name = name.as_str().ok_or(RowFault::BadMember("path"))?;
        found = found.and_then(|folder| folder.dir(name));
    }
    let is_there = found.is_some();
    Ok(format!(in alloc; "{is_there}")?)
}

/// Whether a second folder, which holds one named `mark`, is handed back, and whether the folder
/// that is there holds one of that name.
pub(crate) fn second_folder(alloc: Global, row: &Value) -> Result<String, RowFault> {
    let mut links = folder_in(alloc, row, "links")?;
    let second = folder_in(alloc, row, "second")?;
    let (name, mark) = (text_in(row, "name")?, text_in(row, "mark")?);
    let back = match links.add_dir(String::from_str(alloc, name)?, second) {
        Err(BundleFault::NameTaken(back)) => has(&back, mark),
        _ => false,
    };
    let there = links.dir(name).is_some_and(|folder| has(folder, mark));
    Ok(format!(in alloc; "handed back: {back}, there: {there}")?)
}

fn has(folder: &Bundle, name: &str) -> bool {
    folder.dir(name).is_some()
}
