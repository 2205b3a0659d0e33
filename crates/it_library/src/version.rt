//! The version. Made by checks/manual.py from docs/commands.json.

/// The program with its version.
pub(crate) const VERSION: &str = "itv 1.1.0";
