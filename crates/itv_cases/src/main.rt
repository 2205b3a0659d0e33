//! `itv_cases TABLE..`: whether whole verifications, and the parts of a verification, give what the
//! lines of tables say.
//!
//! A line is a case, which is a whole verification, or a row, whose member `call` names what is
//! called. Writes each line that differs, and how many agree.
#![tactic(auto)]

mod cases;
mod lines;
mod verify;

use it_tables::run_tables;
use lines::Lines;
use std::process::ExitCode;

fn main(rt: HostRuntime) -> ExitCode {
    run_tables(&rt, "itv_cases", &Lines)
}
