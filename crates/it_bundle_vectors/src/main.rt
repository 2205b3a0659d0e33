//! `it_bundle_vectors TABLE..`: whether the library of bundles that vouch agrees with another
//! implementation.
//!
//! A line is a vector: a trusted root, a bundle and an identity, and whether the bundle vouches for
//! it. Writes each vector that does not agree, and how many do.
#![tactic(auto)]

mod found;
mod vector;
mod vectors;

use it_tables::run_tables;
use std::process::ExitCode;
use vectors::Vectors;

fn main(rt: HostRuntime) -> ExitCode {
    run_tables(&rt, "it_bundle_vectors", &Vectors)
}
