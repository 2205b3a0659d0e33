//! The entries of a bundle.
ghost use Rattle.std.specs.Prelude.{IfOk};
ghost use Rattle.it_borrowed.specs.Tree.{as_data};
ghost use Rattle.it_bundle.specs.Entries.{IsEntries};

use crate::listed_entry::ListedEntry;
use it_base::sequence::Sequence;
use it_borrowed::parts::part;
use json::Value;
use std::alloc::{AllocError, Global};

/// The most entries that a bundle may have.
const MOST_ENTRIES: usize = 8;

/// The entries of transparency logs that a bundle has.
#[derive(Drop)]
pub enum BundleEntries {
    /// 1 to 8 elements, in the order of the document.
    Listed(Sequence<ListedEntry>),
    /// No list of entries, or an empty one.
    Missing,
    /// More than 8.
    TooMany,
}

/// The entries in the material of a bundle.
///
/// # Errors
///
/// `AllocError` where memory was refused.
pub(crate) fn entries_of(alloc: Global, material: &Value<'_>) -> Result<BundleEntries, AllocError>
    ensures { IfOk result (IsEntries (as_data material.now)) }
{
    let Some(entries) = part::<Sequence<ListedEntry>>(alloc, material, "tlogEntries")? else {
        return Ok(BundleEntries::Missing);
    };
    let count = entries.as_slice().len();
    if count == 0 {
        return Ok(BundleEntries::Missing);
    }
    if count > MOST_ENTRIES {
        return Ok(BundleEntries::TooMany);
    }
    Ok(BundleEntries::Listed(entries))
}
