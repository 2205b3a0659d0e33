//! Reading digest sets (in-toto Attestation v1, DigestSet).
ghost use Rattle.std.specs.Prelude.{◌≡◌, None, Some};
ghost use Rattle.it_base.specs.Finds.{Finds};
ghost use Rattle.it_borrowed.specs.Tree.{as_data};
ghost use Rattle.it_digest.specs.Digest.{HasDigest, IsDigest, IsDigestSet};

use crate::compare::DigestSet;
use crate::digits::bytes_of;
use it_borrowed::document::{is_object, member};
use it_borrowed::parts::FromBorrowed;
use it_borrowed::text::text_of;
use json::Value;
use std::alloc::{AllocError, Global};

impl FromBorrowed for DigestSet {
    ghost is_of = { IsDigestSet };

    /// Reads a JSON object as a digest set.
    fn from_borrowed(_alloc: Global, value: &Value<'_>) -> Result<Option<DigestSet>, AllocError> {
        Ok(digest_set(value))
    }
}

/// Reads a JSON object as a digest set; `None` where the part is not an object, or its `sha256`,
/// `sha384` or `sha512` is not a text of exactly the algorithm's number of hexadecimal digits.
/// Other algorithms are ignored.
pub fn digest_set(value: &Value<'_>) -> Option<DigestSet>
    ensures { Finds (IsDigestSet (as_data value.now)) result }
{
    if !is_object(value) {
        return None;
    }
    let sha256 = digest_at::<32>(value, "sha256")?;
    let sha384 = digest_at::<48>(value, "sha384")?;
    let sha512 = digest_at::<64>(value, "sha512")?;
    Some(DigestSet {
        sha256,
        sha384,
        sha512,
    })
}

/// The digest in a member, or `Some(None)` where the member is missing.
fn digest_at<const N: usize>(value: &Value<'_>, name: &str) -> Option<Option<[u8; N]>>
    ensures { Finds (HasDigest N name.now (as_data value.now)) result }
{
    match member(value, name) {
        None => Some(None),
        Some(found) => Some(Some(digest(found)?)),
    }
}

fn digest<const N: usize>(value: &Value<'_>) -> Option<[u8; N]>
    ensures { Finds (IsDigest N (as_data value.now)) result }
{
    bytes_of(text_of(value)?)
}
