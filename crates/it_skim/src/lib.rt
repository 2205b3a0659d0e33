//! Whether the object that a JSON document is has a text under a name: seen in one pass over the
//! document, of which no tree is made.
#![tactic(auto)]

mod members;
mod text_member;
mod text_value;

pub use text_member::object_has_text;
