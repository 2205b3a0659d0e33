//! `it_sigstore_values TABLE..`: whether the libraries of Sigstore's documents read what the lines
//! of tables say.
//!
//! A line is a row, whose member `call` names what is called. Writes each line that differs, and
//! how many agree.
#![tactic(auto)]

mod calls;
mod values;

use calls::Calls;
use it_tables::run_tables;
use std::process::ExitCode;

fn main(rt: HostRuntime) -> ExitCode {
    run_tables(&rt, "it_sigstore_values", &Calls)
}
