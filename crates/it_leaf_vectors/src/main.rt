//! `it_leaf_vectors TABLE..`: whether the library of issued and logged leaves agrees with another
//! implementation.
//!
//! A line is a vector: an authority, certificate logs, a leaf and a moment, and whether the
//! authority issued the leaf and one of the logs promised to log it. Writes each vector that does
//! not agree, and how many do.
#![tactic(auto)]

mod found;
mod vector;
mod vectors;

use it_tables::run_tables;
use std::process::ExitCode;
use vectors::Vectors;

fn main(rt: HostRuntime) -> ExitCode {
    run_tables(&rt, "it_leaf_vectors", &Vectors)
}
