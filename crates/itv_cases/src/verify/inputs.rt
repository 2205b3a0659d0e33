//! What rows give to verifications: lengths, and folders of links.
use crate::cases::links::read_links;
use it_chain::bundle::Bundle;
use it_tables::RowFault;
use it_tables::row::{member_in, number_in};
use serde_json::Value;
use std::alloc::Global;

/// The length in a member of a row.
pub(crate) fn length_in(row: &Value, name: &'static str) -> Result<usize, RowFault> {
    usize::try_from(number_in(row, name)?)
        .ok()
        .ok_or(RowFault::BadMember(name))
}

/// The files and folders that a member of a row describes, as a case does.
pub(crate) fn folder_in(
    alloc: Global,
    row: &Value,
    name: &'static str,
) -> Result<Bundle, RowFault> {
    read_links(alloc, member_in(row, name)?)
}
