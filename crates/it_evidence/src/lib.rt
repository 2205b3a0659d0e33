//! What stands behind an accepted delivery: the moment, the digests of the policy and of the
//! layout, the layout's expiry, what counted for each step and what stood for each file.
#![tactic(auto)]

mod evidence;

pub use evidence::evidence_of;
