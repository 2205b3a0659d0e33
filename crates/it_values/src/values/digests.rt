//! Digests: how sets of them compare, and the SHA-256 and the SHA-512 of what a reader gives.
use it_base::document::member;
use it_borrowed::parts::from_bytes;
use it_digest::compare::DigestSet;
use it_digest::reader::{DigestFault, sha256_of_reader, sha512_of_reader};
use it_tables::RowFault;
use it_tables::devices::Source;
use it_tables::row::{bytes_in, member_in, number_if, number_in};
use serde_json::Value;
use std::alloc::{AllocError, Global};

/// What a call on digests answers.
pub(crate) fn answer(alloc: Global, call: &str, row: &Value) -> Result<String, RowFault> {
    match call {
        "compare" => compare(
            alloc,
            digests_in(alloc, row, "one")?,
            digests_in(alloc, row, "other")?,
        ),
        "compare filled" => compare(alloc, filled_in(row, "one")?, filled_in(row, "other")?),
        "of bytes" => of_bytes(alloc, row),
        "by SHA-512 of bytes" => by_sha512_of_bytes(alloc, row),
        "of source" => of_source(alloc, row),
        _ => Err(RowFault::UnknownCall),
    }
}

/// The digest set in a member.
///
/// # Errors
///
/// `BadMember` where it is none.
pub(crate) fn digests_in(
    alloc: Global,
    row: &Value,
    name: &'static str,
) -> Result<DigestSet, RowFault> {
    let text = member_in(row, name)?.to_string(alloc)?;
    from_bytes::<DigestSet>(alloc, text.as_bytes())?.ok_or(RowFault::BadMember(name))
}

/// The digest set in which each digest is filled with the byte that the member gives.
fn filled_in(row: &Value, name: &'static str) -> Result<DigestSet, RowFault> {
    let set = member_in(row, name)?;
    Ok(DigestSet {
        sha256: filled::<32>(set, "sha256"),
        sha384: filled::<48>(set, "sha384"),
        sha512: filled::<64>(set, "sha512"),
    })
}

fn filled<const N: usize>(set: &Value, name: &str) -> Option<[u8; N]> {
    let byte = u8::try_from(member(set, name)?.as_u64()?).ok()?;
    Some([byte; N])
}

/// How two sets compare, in either direction: said once if both give the same.
fn compare(alloc: Global, one: DigestSet, other: DigestSet) -> Result<String, RowFault> {
    let there = one.compare(&other);
    let back = other.compare(&one);
    if there == back {
        Ok(format!(in alloc; "{there:?}")?)
    } else {
        Ok(format!(in alloc; "{there:?} and {back:?}")?)
    }
}

/// The digests of a set, each with its algorithm.
///
/// # Errors
///
/// Memory was refused.
pub(crate) fn told(alloc: Global, set: &DigestSet) -> Result<String, AllocError> {
    let mut text = String::new(alloc);
    push_digest(alloc, &mut text, " sha256=", &set.sha256)?;
    push_digest(alloc, &mut text, " sha384=", &set.sha384)?;
    push_digest(alloc, &mut text, " sha512=", &set.sha512)?;
    Ok(text)
}

fn push_digest<const N: usize>(
    alloc: Global,
    text: &mut String,
    name: &str,
    digest: &Option<[u8; N]>,
) -> Result<(), AllocError> {
    if let Some(bytes) = digest {
        text.push_str(name)?;
        text.push_str(hex::encode(alloc, bytes.as_slice())?.as_str())?;
    }
    Ok(())
}

/// The bytes of a row, repeated as often as it says.
fn repeated(alloc: Global, row: &Value) -> Result<Vec<u8>, RowFault> {
    let times = number_if(row, "times").unwrap_or(1);
    let bytes = bytes_in(alloc, row, "bytes")?;
    Ok(bytes.as_slice().repeat(alloc, times as usize)?)
}

/// The SHA-256 of some bytes, by a reader with a limit.
fn of_bytes(alloc: Global, row: &Value) -> Result<String, RowFault> {
    let bytes = repeated(alloc, row)?;
    let mut reader = bytes.as_slice();
    digits(
        alloc,
        sha256_of_reader(&mut reader, number_in(row, "limit")?),
    )
}

/// The SHA-512 of some bytes, by a reader with a limit.
fn by_sha512_of_bytes(alloc: Global, row: &Value) -> Result<String, RowFault> {
    let bytes = repeated(alloc, row)?;
    let mut reader = bytes.as_slice();
    digits(
        alloc,
        sha512_of_reader(&mut reader, number_in(row, "limit")?),
    )
}

/// The digits of a digest, or the fault.
fn digits<const N: usize>(
    alloc: Global,
    digest: Result<[u8; N], DigestFault>,
) -> Result<String, RowFault> {
    match digest {
        Ok(digest) => Ok(hex::encode(alloc, digest.as_slice())?),
        Err(fault) => Ok(format!(in alloc; "{fault:?}")?),
    }
}

/// The fault of reading a source of this many bytes with a limit, and how many reads there were.
fn of_source(alloc: Global, row: &Value) -> Result<String, RowFault> {
    let mut source = Source {
        bytes: number_in(row, "bytes")?,
        reads: 0,
        fails_at: number_if(row, "fails_at"),
    };
    let fault = sha256_of_reader(&mut source, number_in(row, "limit")?).err();
    Ok(format!(in alloc; "{fault:?} at read {}", source.reads)?)
}
