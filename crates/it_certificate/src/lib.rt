//! X.509 certificates in DER (RFC 5280): their parts and extensions, what the parts hold, the
//! leaves that name who signed, and the certificates of authorities.
//!
//! ```
//! match read_leaf(alloc, bytes)? {
//!     Ok(leaf) => .. leaf.identity.name ..,
//!     Err(missed) => ..,
//! }
//! ```
#![tactic(auto)]

mod algorithm;
mod allowed;
mod authority;
mod certificate;
mod constraints;
mod contents;
mod extension;
mod extensions;
mod front;
mod identifiers;
mod issuer;
mod issuing;
mod known;
pub mod laws;
mod leaf;
mod leaf_shortfall;
mod name;
mod outer;
mod parts;
mod permitted;
mod purposes;
mod shortfall;
mod signed;
mod subject_key;
mod time;
mod usage;
mod validity;
mod values;

pub use algorithm::Algorithm;
pub use authority::{are_tied, is_chain, names_next};
pub use certificate::{Certificate, certificate_or_shortfall, read_certificate};
pub use constraints::{Constraints, read_constraints};
pub use extension::Extension;
pub use extensions::read_extensions;
pub use identifiers::TIMESTAMPS;
pub use issuing::{IssuingShortfall, issuing_shortfall};
pub use known::Known;
pub use leaf::{Identity, Leaf, read_leaf};
pub use leaf_shortfall::LeafShortfall;
pub use parts::{CertificateParts, read_parts};
pub use purposes::Purposes;
pub use shortfall::{CertificateShortfall, ExtensionsShortfall};
pub use subject_key::{Curve, SubjectKey};
pub use time::Moment;
pub use usage::Usage;
pub use validity::Validity;
pub use values::value_of;
