//! The curve P-384 (SP 800-186, section 3.2.1.4), its points and their sums.
#![tactic(auto)]

mod curve;
mod point;

pub use curve::is_on_curve;
pub use point::Point;
