//! Elements in DER (X.690): reading the element at the front of some bytes, and bytes that are one
//! element, or elements one after another; and writing an element.
//!
//! ```
//! let content = content_of(bytes, SEQUENCE)?;
//! let first = first_element(content)?;
//! ```
#![tactic(auto)]

mod elements;
mod front;
pub mod laws;
mod length;
mod written;

pub use elements::{Element, elements_of};
pub use front::{First, content_of, first_element};
pub use written::append_element;
