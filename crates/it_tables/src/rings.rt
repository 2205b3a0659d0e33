//! The rings that rows and cases give.
use crate::row::text_in;
use crate::row_fault::RowFault;
use it_dsse::ring::{HmacRing, RingFault};
use serde_json::Value;
use std::alloc::Global;

/// The ring in the bytes of a member of this name.
///
/// # Errors
///
/// `BadMember` where they are no ring; `OutOfMemory` where memory was refused.
pub fn read_ring(alloc: Global, bytes: &[u8], name: &'static str) -> Result<HmacRing, RowFault> {
    match HmacRing::read(alloc, bytes) {
        Ok(ring) => Ok(ring),
        Err(RingFault::BadRing) => Err(RowFault::BadMember(name)),
        Err(RingFault::OutOfMemory) => Err(RowFault::OutOfMemory),
    }
}

/// The ring of a row.
///
/// # Errors
///
/// `BadMember` where there is no `ring`, or it is no ring; `OutOfMemory` where memory was refused.
pub fn ring_in(alloc: Global, row: &Value) -> Result<HmacRing, RowFault> {
    read_ring(alloc, text_in(row, "ring")?.as_bytes(), "ring")
}
