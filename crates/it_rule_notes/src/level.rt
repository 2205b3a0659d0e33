//! What a note on a layout is made from.
use it_chain::bundle::Bundle;
use it_docs::layout::Layout;

/// A layout over a bundle at a moment.
#[derive(Drop)]
pub struct Level<'a> {
    /// The layout at which a delivery was refused.
    pub layout: &'a Layout,
    /// The files that the layout is checked against: for a sublayout, those of its folder.
    pub links: &'a Bundle,
    /// The moment of the verification, in seconds since 1970-01-01T00:00:00Z.
    pub moment: i64,
}
