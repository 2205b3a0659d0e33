//! Which of many path patterns is the first to match a path, found by the parts of the patterns
//! before their first star, any or set item.
#![tactic(auto)]

mod earlier;
mod fronts;
mod index;

pub use index::PatternIndex;
