//! Envelopes with more signatures than are looked at.
ghost use Rattle.std.specs.Prelude.{◌≡◌, ◌<◌, IfOk, length};
ghost use Rattle.it_base.specs.Finds.{Finds};
ghost use Rattle.it_limits.specs.Limit.{IsOverLimit, most_signatures};

use it_chain::envelope_in;
use it_chain::held_file::HeldFile;
use it_objects::braces_in;
use std::alloc::{AllocError, Global};

/// The most signatures of an envelope that are looked at (this profile's choice).
pub const MOST_SIGNATURES: usize = 64;

/// How many signatures the envelope in the bytes has, where there are more than `MOST_SIGNATURES`;
/// `None` where there are no more, or the bytes are not an envelope.
///
/// # Errors
///
/// `AllocError` where memory was refused.
pub fn signatures_over_limit(alloc: Global, bytes: &[u8]) -> Result<Option<usize>, AllocError>
    ensures { IfOk result (Finds (IsOverLimit bytes.now)) }
{
    // An envelope is an object, as is each of its signatures, and each object begins with a brace.
    if braces_in(bytes) <= MOST_SIGNATURES + 1 {
        return Ok(None);
    }
    match envelope_in(alloc, bytes)? {
        Some(envelope) => Ok(over_limit(envelope.signatures.as_slice().len())),
        None => Ok(None),
    }
}

/// How many signatures the envelope in a file has, where there are more than `MOST_SIGNATURES`;
/// `None` where there are no more, or the file is not an envelope. Takes no memory.
pub fn file_over_limit(file: &HeldFile) -> Option<usize>
    ensures { Finds (IsOverLimit file.now.bytes) result }
{
    match file.envelope() {
        Some(envelope) => over_limit(envelope.signatures.as_slice().len()),
        None => None,
    }
}

/// A number, where it is above the limit.
fn over_limit(count: usize) -> Option<usize>
    ensures { Finds (λ over. (over ≡ count) × (most_signatures < over)) result }
{
    if count > MOST_SIGNATURES {
        Some(count)
    } else {
        None
    }
}
