//! Tables, which are the test data of this project: what the programs that try them share.
//!
//! A table is a file with a JSON document on each line. A program says what a document wants and
//! whether that is given (`Trial`); `run_tables` does the rest.
//!
//! ```
//! run_tables(&rt, "it_rows", &Calls)
//! ```
#![tactic(auto)]

pub mod comparison;
pub mod devices;
mod fault;
mod outcome;
pub mod rings;
pub mod row;
mod row_fault;
mod tables;
mod trial;

pub use row_fault::RowFault;
pub use tables::run_tables;
pub use trial::Trial;
