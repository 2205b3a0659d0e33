//! Logs as a document lists them.
ghost use Rattle.std.specs.Prelude.{IfOk, codes};
ghost use Rattle.it_borrowed.specs.Tree.{as_data};
ghost use Rattle.it_base.specs.Base64Text.{IsBase64};
ghost use Rattle.it_base.specs.Finds.{Finds};
ghost use Rattle.it_base.specs.Parts.{IsPart};
ghost use Rattle.it_trust_root.specs.Log.{IsListedKey, IsListedLog};

use crate::window::window_of;
use it_base::sequence::Sequence;
use it_base::text::Text;
use it_borrowed::base64_text::base64_part;
use it_borrowed::document::member;
use it_borrowed::parts::{FromBorrowed, part};
use it_log::Window;
use json::Value;
use std::alloc::{AllocError, Global};

/// A key and when it counts, not looked at yet.
#[derive(Drop)]
pub(crate) struct ListedKey {
    pub(crate) details: Text,
    pub(crate) bytes: Sequence<u8>,
    pub(crate) window: Window,
}

/// A log, not looked at yet.
#[derive(Drop)]
pub(crate) struct ListedLog {
    pub(crate) hash_algorithm: Text,
    pub(crate) key: ListedKey,
    pub(crate) id: Sequence<u8>,
}

impl FromBorrowed for ListedKey {
    ghost is_of = { IsListedKey };

    fn from_borrowed(alloc: Global, value: &Value<'_>) -> Result<Option<ListedKey>, AllocError> {
        let Some(details) = part::<Text>(alloc, value, "keyDetails")? else {
            return Ok(None);
        };
        let Some(bytes) = base64_part(alloc, value, "rawBytes")? else {
            return Ok(None);
        };
        let Some(window) = window_of(value) else {
            return Ok(None);
        };
        Ok(Some(ListedKey {
            details,
            bytes,
            window,
        }))
    }
}

impl FromBorrowed for ListedLog {
    ghost is_of = { IsListedLog };

    fn from_borrowed(alloc: Global, value: &Value<'_>) -> Result<Option<ListedLog>, AllocError> {
        let Some(hash_algorithm) = part::<Text>(alloc, value, "hashAlgorithm")? else {
            return Ok(None);
        };
        let Some(key) = part::<ListedKey>(alloc, value, "publicKey")? else {
            return Ok(None);
        };
        let Some(id) = id_of(alloc, value)? else {
            return Ok(None);
        };
        Ok(Some(ListedLog {
            hash_algorithm,
            key,
            id,
        }))
    }
}

fn id_of(alloc: Global, value: &Value<'_>) -> Result<Option<Sequence<u8>>, AllocError>
    ensures { IfOk result (Finds
        (IsPart (IsPart IsBase64 (codes "keyId")) (codes "logId") (as_data value.now))) }
{
    match member(value, "logId") {
        None => Ok(None),
        Some(found) => base64_part(alloc, found, "keyId"),
    }
}
