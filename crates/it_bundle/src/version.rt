//! The versions of bundles.
ghost use Rattle.it_base.specs.Finds.{Finds};
ghost use Rattle.it_bundle.specs.Version.{IsMediaType, IsVersion};

use it_borrowed::parts::FromBorrowed;
use it_borrowed::text::text_of;
use json::Value;
use std::alloc::{AllocError, Global};

/// The version of a bundle, by its media type.
#[derive(Clone, Copy, Debug, PartialEq, Eq)]
pub enum BundleVersion {
    /// 0.1, whose entries may have no inclusion proof.
    V1,
    /// 0.2.
    V2,
    /// 0.3, which has one certificate and not a chain.
    V3,
}

impl FromBorrowed for BundleVersion {
    ghost is_of = { IsVersion };

    fn from_borrowed(
        _alloc: Global,
        value: &Value<'_>,
    ) -> Result<Option<BundleVersion>, AllocError> {
        match text_of(value) {
            None => Ok(None),
            Some(text) => Ok(version_of(text)),
        }
    }
}

/// The version that a media type names.
fn version_of(text: &str) -> Option<BundleVersion>
    ensures { Finds (IsMediaType text.now) result }
{
    match text {
        "application/vnd.dev.sigstore.bundle+json;version=0.1" => Some(BundleVersion::V1),
        "application/vnd.dev.sigstore.bundle+json;version=0.2" => Some(BundleVersion::V2),
        "application/vnd.dev.sigstore.bundle+json;version=0.3" => Some(BundleVersion::V3),
        "application/vnd.dev.sigstore.bundle.v0.3+json" => Some(BundleVersion::V3),
        _ => None,
    }
}
