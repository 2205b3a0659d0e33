//! What is found of a bundle.
use crate::shortfall::Shortfall;
use crate::voucher::Voucher;

/// What is found of a bundle, by a trusted root.
#[derive(Drop)]
pub enum Judged {
    /// It vouches for this identity, by an entry of this time.
    For(Voucher),
    /// It vouches for nobody, and this is why.
    Misses(Shortfall),
}
