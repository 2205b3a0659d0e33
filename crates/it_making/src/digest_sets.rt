//! Digest sets as JSON objects (in-toto Attestation v1, DigestSet).
ghost use Rattle.std.specs.Prelude.{◌≡◌, IfOk, IfSome, OnOk, length};
ghost use Rattle.serde_json.specs.Data.{string};
ghost use Rattle.serde_json.specs.View.{members_view, view};
ghost use Rattle.hex.specs.Hex.{encode_lower};
ghost use Rattle.it_digest.specs.Digest.{IsDigest, IsDigestSet};
ghost use Rattle.it_making.specs.ArtifactDocuments.{digest_set_document};
ghost use Rattle.it_making.specs.inside.DigestMembers.{with_digest};

use it_digest::compare::DigestSet;
use serde_json::{Map, Value, put};
use std::alloc::{AllocError, Global};

/// The JSON object of a digest set: a text of lower-case hexadecimal digits for each algorithm in
/// it.
pub(crate) fn digest_set_value(alloc: Global, digests: &DigestSet) -> Result<Value, AllocError>
    ensures document { IfOk result (λ value. view value ≡ digest_set_document digests.now) }
    ensures reads_back { IfOk result
        (λ _. IsDigestSet (digest_set_document digests.now) digests.now) }
{
    let mut members = Map::new(alloc);
    put_digest(alloc, &mut members, "sha256", &digests.sha256)?;
    put_digest(alloc, &mut members, "sha384", &digests.sha384)?;
    put_digest(alloc, &mut members, "sha512", &digests.sha512)?;
    Ok(Value::from(members))
}

/// Puts a digest under the name of its algorithm, where there is one.
fn put_digest<const N: usize>(
    alloc: Global,
    members: &mut Map<String, Value>,
    name: &str,
    digest: &Option<[u8; N]>,
) -> Result<(), AllocError>
    ensures document { OnOk result (members_view members.new.entries
        ≡ with_digest name.now digest.now (members_view members.old.entries)) }
    ensures reads_back { OnOk result
        (IfSome digest.now (λ bytes. IsDigest N (string (encode_lower bytes)) bytes)) }
{
    match digest {
        None => Ok(()),
        Some(bytes) => put(members, alloc, name, digest_value(alloc, bytes)?),
    }
}

/// The text of a digest.
fn digest_value<const N: usize>(alloc: Global, digest: &[u8; N]) -> Result<Value, AllocError>
    ensures document { IfOk result (λ value. view value ≡ string (encode_lower digest.now)) }
    ensures reads_back { IfOk result
        (λ _. IsDigest N (string (encode_lower digest.now)) digest.now) }
{
    digits_value(alloc, digest.as_slice())
}

fn digits_value(alloc: Global, bytes: &[u8]) -> Result<Value, AllocError>
    ensures document { IfOk result (λ value. view value ≡ string (encode_lower bytes.now)) }
    ensures reads_back { IfOk result
        (λ _. IsDigest (length bytes.now) (string (encode_lower bytes.now)) bytes.now) }
{
    Ok(Value::from(hex::encode(alloc, bytes)?))
}
