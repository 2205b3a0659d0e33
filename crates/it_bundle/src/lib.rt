//! Sigstore bundles: which document is one, and what is read of it: an envelope, the certificate
//! of who signed it, and entries of transparency logs.
//!
//! ```
//! let Some(bundle) = read_bundle(alloc, line)? else { .. };
//! ```
#![tactic(auto)]

mod bundle;
mod certificate;
mod entries;
pub mod laws;
mod listed_entry;
mod material;
mod version;

pub use bundle::{SigstoreBundle, read_bundle};
pub use certificate::{BundleCertificate, NoCertificate};
pub use entries::BundleEntries;
pub use listed_entry::ListedEntry;
pub use material::Material;
pub use version::BundleVersion;
