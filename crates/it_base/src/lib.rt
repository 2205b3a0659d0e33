//! The parts shared by the crates that read and write documents: texts and lists that contracts
//! see as plain lists, maps from names, trees of parameters, reading a JSON document member by
//! member, and writing bytes.
#![tactic(auto)]

pub mod base64_text;
pub mod document;
pub mod hexadecimal_text;
pub mod list;
pub mod optional;
pub mod parts;
pub mod sequence;
pub mod table;
pub mod text;
pub mod tree;
pub mod writing;
