//! Sublayouts (in-toto 1.0, section 4.4): those that count for the steps of a layout which holds,
//! at every depth, and with which records.
#![tactic(auto)]

mod counted;
mod layout_files;
mod level;
mod listed;
mod place;
mod records;
mod signed_layout;
mod sublayouts;
mod walk;

pub use counted::CountedSublayout;
pub use level::Level;
pub use sublayouts::counted_sublayouts;
