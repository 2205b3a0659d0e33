//! `it_rows TABLE..`: whether reports and the command line are what the lines of tables say.
//!
//! A line is a row, whose member `call` names what is called. Writes each line that differs, and
//! how many agree.
#![tactic(auto)]

mod calls;
mod commands;
mod reports;

use calls::Calls;
use it_tables::run_tables;
use std::process::ExitCode;

fn main(rt: HostRuntime) -> ExitCode {
    run_tables(&rt, "it_rows", &Calls)
}
