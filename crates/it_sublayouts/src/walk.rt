//! What sublayouts are looked for with.
use std::alloc::Global;

/// Where memory is taken, and what the signatures are checked with.
#[derive(Drop)]
pub(crate) struct Walk<'a, C> {
    /// Where memory is taken.
    pub alloc: Global,
    /// The checks of the signatures.
    pub checks: &'a C,
}
