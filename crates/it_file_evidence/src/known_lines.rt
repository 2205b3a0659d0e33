//! What is known of the lines of the provenance.
use it_vouched::Vouched;

/// What is known of the lines of the provenance.
#[derive(Drop)]
pub(crate) struct KnownLines<'a> {
    /// The places of those that are envelopes.
    pub(crate) places: &'a [u64],
    /// What those that are bundles vouch for.
    pub(crate) vouched: &'a [Vouched],
}
