//! The files and folders of a case.
use crate::cases::parts::pair;
use it_chain::bundle::{Bundle, BundleFault};
use it_tables::RowFault;
use it_tables::row::{bytes_of, list_in};
use serde_json::Value;
use std::alloc::Global;

/// How deep folders may be nested.
const MOST_DEPTH: u8 = 32;

const BAD: RowFault = RowFault::BadMember("links");

/// The files and folders that the member `links` of a case describes.
pub(crate) fn read_links(alloc: Global, links: &Value) -> Result<Bundle, RowFault> {
    read_folder(alloc, links, MOST_DEPTH)
}

/// What one folder holds, down to `depth` levels below it.
fn read_folder(alloc: Global, folder: &Value, depth: u8) -> Result<Bundle, RowFault> {
    let mut bundle = Bundle::new(alloc);
    add_files(alloc, &mut bundle, folder)?;
    for item in list_in(folder, "folders")? {
        let (name, inner) = pair(item).ok_or(BAD)?;
        let below = depth.checked_sub(1).ok_or(BAD)?;
        let inner = read_folder(alloc, inner, below)?;
        match bundle.add_dir(String::from_str(alloc, name)?, inner) {
            Ok(()) => {}
            Err(BundleFault::NameTaken(_)) => return Err(BAD),
            Err(BundleFault::OutOfMemory) => return Err(RowFault::OutOfMemory),
        }
    }
    Ok(bundle)
}

fn add_files(alloc: Global, bundle: &mut Bundle, folder: &Value) -> Result<(), RowFault> {
    for item in list_in(folder, "files")? {
        let (name, content) = pair(item).ok_or(BAD)?;
        let bytes = bytes_of(alloc, content)?.ok_or(BAD)?;
        bundle.add_file(String::from_str(alloc, name)?, bytes.into_vec())?;
    }
    Ok(())
}
