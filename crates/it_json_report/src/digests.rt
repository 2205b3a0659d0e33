//! Digests in JSON: texts of lower-case hexadecimal digits (in-toto Attestation v1, DigestSet).
ghost use Rattle.std.specs.Prelude.{◌≡◌, ◌++◌, IfOk, OnOk, Some, codes};
ghost use Rattle.it_json_report.specs.EvidenceReport.{digest_members, json_digits, set_members};
ghost use Rattle.it_json_report.specs.Json.{json_object, member};

use crate::lists::push_parted;
use crate::members::push_text_member;
use crate::texts::push_text;
use it_base::sequence::Sequence;
use it_base::text::Text;
use it_digest::compare::DigestSet;
use std::alloc::{AllocError, Global};

/// Appends a member whose value is a SHA-256.
pub(super) fn push_digits_member(
    alloc: Global,
    json: &mut Vec<u8>,
    name: &str,
    digest: &[u8; 32],
) -> Result<(), AllocError>
    ensures { OnOk result (json.new.items
        ≡ json.old.items ++ (codes "," ++ member (name.now, json_digits digest.now))) }
{
    let digits = hex::encode(alloc, digest.as_slice())?;
    push_text_member(json, name, digits.as_str())
}

/// Appends the object of a digest set.
pub(super) fn push_digests(
    alloc: Global,
    json: &mut Vec<u8>,
    digests: &DigestSet,
) -> Result<(), AllocError>
    ensures { OnOk result (json.new.items
        ≡ json.old.items ++ json_object (set_members digests.now)) }
{
    let members = set_members(alloc, digests)?;
    json.push(b'{')?;
    push_parted(alloc, json, members.as_slice())?;
    json.push(b'}')?;
    Ok(())
}

/// The members of a digest set, each with its name and the JSON of its value.
fn set_members(alloc: Global, digests: &DigestSet) -> Result<Vec<(Text, Sequence<u8>)>, AllocError>
    ensures { IfOk result (λ members. members.items ≡ set_members digests.now) }
{
    let mut members = Vec::new(alloc);
    add_digest(alloc, &mut members, "sha256", &digests.sha256)?;
    add_digest(alloc, &mut members, "sha384", &digests.sha384)?;
    add_digest(alloc, &mut members, "sha512", &digests.sha512)?;
    Ok(members)
}

/// Adds the member of a digest, where there is one.
fn add_digest<const N: usize>(
    alloc: Global,
    members: &mut Vec<(Text, Sequence<u8>)>,
    name: &str,
    digest: &Option<[u8; N]>,
) -> Result<(), AllocError>
    ensures { OnOk result (members.new.items
        ≡ members.old.items ++ digest_members name.now digest.now) }
{
    match digest {
        None => Ok(()),
        Some(digest) => add_digits(alloc, members, name, digest.as_slice()),
    }
}

fn add_digits(
    alloc: Global,
    members: &mut Vec<(Text, Sequence<u8>)>,
    name: &str,
    digest: &[u8],
) -> Result<(), AllocError>
    ensures { OnOk result (members.new.items
        ≡ members.old.items ++ digest_members name.now (Some digest.now)) }
{
    let name = Text::copy(alloc, name)?;
    let value = json_digits(alloc, digest)?;
    members.push((name, value))?;
    Ok(())
}

/// The JSON of a digest.
fn json_digits(alloc: Global, digest: &[u8]) -> Result<Sequence<u8>, AllocError>
    ensures { IfOk result (λ json. json ≡ json_digits digest.now) }
{
    let digits = hex::encode(alloc, digest)?;
    let mut json = Vec::new(alloc);
    push_text(&mut json, digits.as_str())?;
    Ok(Sequence::from(json))
}
