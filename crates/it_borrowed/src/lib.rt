//! JSON documents as trees whose texts are borrowed from the bytes that they were read from:
//! reading one, its members, and what they hold.
#![tactic(auto)]

pub mod base64_text;
pub mod document;
pub mod document_text;
pub mod items;
pub mod list;
pub mod named_members;
mod numbers;
mod parameters;
pub mod parts;
mod sequence;
mod table;
pub mod text;
pub mod whole;
