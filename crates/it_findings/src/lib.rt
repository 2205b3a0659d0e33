//! Findings: what in a policy or a layout reads, and may not do what its author meant.
//! The findings of a document are exactly those of its definition, in its order.
#![tactic(auto)]

mod closed;
pub mod finding;
mod identity_findings;
mod in_expectations;
mod in_layout;
mod in_policy;
mod in_rules;
mod in_step_keys;
mod key_identities;
mod key_members;
mod key_use;
mod key_uses;
pub mod laws;
mod listed_key;
mod meaning;
mod meant;
pub mod member_finding;
pub mod member_names;
mod members;
mod missing_thresholds;
pub mod null_key;
mod null_keys;
mod one;
mod parameter;
pub mod place;
mod repeated;
pub mod shared_key;
mod shared_keys;
mod step_members;
mod unequal_numbers;
mod unread;

pub use in_layout::layout_findings;
pub use in_policy::policy_findings;
pub use meaning::{has_meaning, have_meaning};
pub use meant::meant_name;
pub use members::{layout_members, policy_members};
pub use missing_thresholds::no_thresholds;
pub use null_keys::{layout_nulls, policy_nulls};
