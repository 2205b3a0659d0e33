//! What the program `itv` does between its words and its exit status: it reads the words and what
//! is at the paths in them, and runs the command that they name.
//!
//! A command writes what its definition in `specs/Commands.antt` says (`IsOutputOf`), whatever is
//! at the paths that it reads (`Holdings` of `it_disk`).
//!
//! ```
//! let words = words(rt)?;
//! let outcome = run_to(rt, words.as_slice(), &mut Remembering::new(out), notes);
//! ExitCode::from(exit_status(&outcome))
//! ```
#![tactic(auto)]

mod asked;
mod command_line;
mod given;
mod passed_over;
mod provenance;
mod running;
mod silent_notes;
mod size_note;
mod spent;
mod status;
mod stop;
mod verify_command;

pub use command_line::words;
pub use it_file_commands::Remembering;
pub use running::{run_to, run_words};
pub use spent::Spent;
pub use status::exit_status;
pub use stop::Stop;
