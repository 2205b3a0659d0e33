//! `it_vectors TABLE..`: whether the libraries of public keys agree with other implementations on
//! keys and signatures.
//!
//! A line is a vector: a key, or a key, a message and a signature, and whether that should hold.
//! Writes each vector that does not agree, and how many do.
#![tactic(auto)]

mod ed25519;
mod kind;
mod line;
mod p256;
mod p384;
mod rsa;
mod vector;
mod vectors;

use it_tables::run_tables;
use std::process::ExitCode;
use vectors::Vectors;

fn main(rt: HostRuntime) -> ExitCode {
    run_tables(&rt, "it_vectors", &Vectors)
}
