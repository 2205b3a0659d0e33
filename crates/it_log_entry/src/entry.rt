//! Entries.
ghost use Rattle.std.specs.Prelude.{◌<◌, IfOk, codes};
ghost use Rattle.it_borrowed.specs.Tree.{as_data};
ghost use Rattle.it_base.specs.Base64Text.{IsBase64};
ghost use Rattle.it_base.specs.Document.{member_at};
ghost use Rattle.it_base.specs.Finds.{Finds};
ghost use Rattle.it_base.specs.Parts.{IsPart};
ghost use Rattle.it_base.specs.Table.{Stands};
ghost use Rattle.it_log_entry.specs.InclusionProof.{IsInclusionProof};
ghost use Rattle.it_log_entry.specs.LogEntry.{IsLogEntry};
ghost use Rattle.it_log_entry.specs.Number.{IsNumber};

use crate::inclusion_proof::InclusionProof;
use crate::kind::EntryKind;
use crate::number::Number;
use it_base::sequence::Sequence;
use it_borrowed::base64_text::base64_part;
use it_borrowed::document::member;
use it_borrowed::parts::{FromBorrowed, part, part_or};
use json::Value;
use std::alloc::{AllocError, Global};

/// An entry of a transparency log.
#[derive(Drop)]
pub struct LogEntry {
    /// The id of the log.
    pub log_id: Sequence<u8>,
    /// The place of the entry, over all trees of the log.
    pub index: u64,
    /// When the entry was logged, in seconds since 1970-01-01T00:00:00Z; at least 1.
    pub time: u64,
    /// What kind of body it has.
    pub kind: EntryKind,
    /// The log's signature of the entry and its time.
    pub promise: Sequence<u8>,
    /// The proof that the entry is in a tree of the log, where there is one.
    pub proof: Option<InclusionProof>,
    /// The body, a JSON document that is not looked at yet.
    pub body: Sequence<u8>,
}

impl FromBorrowed for LogEntry {
    ghost is_of = { IsLogEntry };

    fn from_borrowed(alloc: Global, value: &Value<'_>) -> Result<Option<LogEntry>, AllocError> {
        let Some(log_id) = base64_below(alloc, value, "logId", "keyId")? else {
            return Ok(None);
        };
        let Some(index) = part_or(alloc, value, "logIndex", Number::zero())? else {
            return Ok(None);
        };
        let Some(time) = time_of(alloc, value)? else {
            return Ok(None);
        };
        let Some(kind) = part::<EntryKind>(alloc, value, "kindVersion")? else {
            return Ok(None);
        };
        let Some(promise) = base64_below(alloc, value, "inclusionPromise", "signedEntryTimestamp")?
        else {
            return Ok(None);
        };
        let Some(proof) = proof_of(alloc, value)? else {
            return Ok(None);
        };
        let Some(body) = base64_part(alloc, value, "canonicalizedBody")? else {
            return Ok(None);
        };
        Ok(Some(LogEntry {
            log_id,
            index: index.get(),
            time,
            kind,
            promise,
            proof,
            body,
        }))
    }
}

fn time_of(alloc: Global, value: &Value<'_>) -> Result<Option<u64>, AllocError>
    ensures { IfOk result (Finds (λ time.
        IsPart IsNumber (codes "integratedTime") (as_data value.now) time × (0 < time))) }
{
    let Some(time) = part::<Number>(alloc, value, "integratedTime")? else {
        return Ok(None);
    };
    if time.get() == 0 {
        return Ok(None);
    }
    Ok(Some(time.get()))
}

/// The proof, or that there is none; `None` where there is one that does not read.
fn proof_of(alloc: Global, value: &Value<'_>) -> Result<Option<Option<InclusionProof>>, AllocError>
    ensures { IfOk result (Finds
        (Stands IsInclusionProof (member_at (codes "inclusionProof") (as_data value.now)))) }
{
    let Some(found) = member(value, "inclusionProof") else {
        return Ok(Some(None));
    };
    match InclusionProof::from_borrowed(alloc, found)? {
        Some(proof) => Ok(Some(Some(proof))),
        None => Ok(None),
    }
}

/// The bytes that a member of a member encodes; `None` where there is none, or it is not base64.
fn base64_below(
    alloc: Global,
    value: &Value<'_>,
    outer: &str,
    inner: &str,
) -> Result<Option<Sequence<u8>>, AllocError>
    ensures { IfOk result (Finds
        (IsPart (IsPart IsBase64 inner.now) outer.now (as_data value.now))) }
{
    match member(value, outer) {
        None => Ok(None),
        Some(found) => base64_part(alloc, found, inner),
    }
}
