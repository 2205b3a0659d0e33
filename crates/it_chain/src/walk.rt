//! What a layout is walked with.
use crate::level::Level;
use std::alloc::Global;

/// A walk over the steps of a layout: where it takes memory, what the layout is checked with, and
/// the layout over its bundle.
#[derive(Drop)]
pub(crate) struct Walk<'a, C> {
    /// Where memory is taken.
    pub alloc: Global,
    /// What the layout is checked with.
    pub checking: &'a C,
    /// The layout over its bundle.
    pub level: Level<'a>,
}
