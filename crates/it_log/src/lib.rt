//! Logs that are trusted: their ids, their keys of P-256, and when they are trusted. A trusted
//! root lists them.
#![tactic(auto)]

mod key;
mod log;
mod window;

pub use key::LogKey;
pub use log::Log;
pub use window::Window;
