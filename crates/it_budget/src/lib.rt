//! How many signatures are checked in a run at most.
//!
//! ```
//! let budget = SharedBudget::new(20_000);
//! budget.take()?;
//! let valid = is_signature(..);
//! ```
#![tactic(auto)]

mod budget;
mod shared_budget;

pub use budget::Budget;
pub use shared_budget::SharedBudget;
