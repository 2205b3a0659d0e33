//! The list of timestamps in a certificate.
ghost use Rattle.std.specs.Prelude.{◌↔◌, ℕ, ◌<◌, ◌≤◌, List, MatchOption, IfOk, IsTrue, length, map};
ghost use Rattle.it_certificate_log.specs.Items.{IsCountedList, IsItemList};
ghost use Rattle.it_certificate_log.specs.inside.Begins.{AreItems, BeginsItem};

use crate::counted::{Front, first_counted};
use it_der::content_of;
use std::alloc::{AllocError, Global};

const OCTET_STRING: u8 = 4;

/// How many items a list has at most.
const MOST_ITEMS: usize = 8;

/// The items of the list that the value of the extension of timestamps is (RFC 6962, section 3.3),
/// of which each may be a timestamp. `None` where it is no list of 1 to 8 items.
///
/// # Errors
///
/// `AllocError` where memory was refused.
pub fn items_of(alloc: Global, value: &[u8]) -> Result<Option<Vec<&[u8]>>, AllocError>
    ensures { IfOk result (λ found. MatchOption found
        ((items : List (List ℕ)) → IsItemList value.now items → ⊥)
        (λ items. IsItemList value.now (map (λ i. i.now) items.items))) }
{
    match content_of(value, OCTET_STRING) {
        Some(content) => counted_items(alloc, content),
        None => Ok(None),
    }
}

/// The items of the list that comes after its length.
fn counted_items(alloc: Global, content: &[u8]) -> Result<Option<Vec<&[u8]>>, AllocError>
    ensures { IfOk result (λ found. MatchOption found
        ((items : List (List ℕ)) → IsCountedList content.now items → ⊥)
        (λ items. IsCountedList content.now (map (λ i. i.now) items.items))) }
{
    let Some(front) = first_counted(content) else {
        return Ok(None);
    };
    if !front.rest.is_empty() {
        return Ok(None);
    }
    let Some(items) = items_in(alloc, front.bytes)? else {
        return Ok(None);
    };
    if !are_few(&items) {
        return Ok(None);
    }
    Ok(Some(items))
}

/// Whether there are as many items as a list may have.
fn are_few(items: &[&[u8]]) -> bool
    ensures { IsTrue result ↔ ((0 < length items.now) × (length items.now ≤ 8)) }
{
    !items.is_empty() && items.len() <= MOST_ITEMS
}

/// The items that the bytes are, one after another.
fn items_in(alloc: Global, bytes: &[u8]) -> Result<Option<Vec<&[u8]>>, AllocError>
    ensures { IfOk result (λ found. MatchOption found
        ((items : List (List ℕ)) → AreItems bytes.now items → ⊥)
        (λ items. AreItems bytes.now (map (λ i. i.now) items.items))) }
{
    let mut items = Vec::new(alloc);
    let mut rest = bytes;
    while !rest.is_empty() {
        let Some(first) = first_item(rest) else {
            return Ok(None);
        };
        items.push(first.bytes)?;
        rest = first.rest;
    }
    Ok(Some(items))
}

/// The item at the front of some bytes; `None` where none begins them.
fn first_item(bytes: &[u8]) -> Option<Front<'_>>
    ensures { MatchOption result
        ((item rest : List ℕ) → BeginsItem bytes.now item rest → ⊥)
        (λ front. BeginsItem bytes.now front.bytes.now front.rest.now) }
{
    let front = first_counted(bytes)?;
    if front.bytes.is_empty() {
        return None;
    }
    Some(front)
}
