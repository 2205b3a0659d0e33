//! The curve P-256 (SP 800-186, section 3.2.1.3), its points and their sums.
#![tactic(auto)]

mod curve;
mod point;

pub use curve::is_on_curve;
pub use point::Point;
