//! `itv`: a verifier of software supply chains by the in-toto specification 1.0.
//!
//! Hands the words, the files and the output to `it_program`, says why if it stopped, and ends with
//! its status.
#![tactic(auto)]

use it_disk::Disk;
use it_outcome::Status;
use it_program::{Remembering, Stop, exit_status, run_to, words};
use std::io;
use std::io::Write;
use std::process::ExitCode;
use std::rt::Env;

fn main(rt: HostRuntime) -> ExitCode {
    let outcome = run(&rt, &mut rt.stderr());
    if let Err(stop) = &outcome {
        let _ = eprintln!(rt; "itv: {stop}");
    }
    ExitCode::from(exit_status(&outcome))
}

/// Reads the words, and runs the command that they name.
fn run<R: Env + Disk + Print + AllocGlobal, N: Write>(
    rt: &R,
    notes: &mut N,
) -> Result<Status, Stop> {
    let words = words(rt)?;
    run_to(
        rt,
        words.as_slice(),
        &mut Remembering::new(io::writer(rt)),
        notes,
    )
}
