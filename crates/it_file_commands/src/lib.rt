//! The commands of `itv` that look at no delivery, over what is at the paths that their words name.
//!
//! A command writes what its definition in `specs/Commands.antt` says, whatever is at the paths
//! that it reads (`Holdings` of `it_disk`). Where it stops, nothing has gone out, except for
//! `digest` the lines of earlier files, and, where the output could not be written, a beginning of
//! it.
//!
//! ```
//! let status = payload_command::run(rt, words, out)?;
//! ```
#![tactic(auto)]

pub mod check_command;
pub mod digest_command;
mod judging;
pub mod key_command;
pub mod link_command;
pub mod match_command;
pub mod pae_command;
pub mod payload_command;
mod remembering;
pub mod sign_command;
mod sign_fault;
mod sign_onto_command;
pub mod signed_command;
mod signed_trusted;
pub mod statement_command;

pub use judging::judged_or_fault;
pub use remembering::Remembering;
