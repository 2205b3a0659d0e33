//! Texts that are each ended by a zero byte.
ghost use Rattle.std.specs.Prelude.{◌≡◌, IfOk, map};
ghost use Rattle.std.specs.Option.{IfSome};
ghost use Rattle.it_library.specs.Handed.{AreEnded};
ghost use Rattle.it_library.specs.inside.Cuts.{IsFirst};

use memchr::memchr;
use std::alloc::{AllocError, Global};

/// The texts, or `None` where the last is not ended.
pub(crate) fn texts_in<'a>(
    alloc: Global,
    bytes: &'a [u8],
) -> Result<Option<Vec<&'a [u8]>>, AllocError>
    ensures { IfOk result (λ found. IfSome found
        (λ texts. AreEnded bytes.now (map (λ text. text.now) texts.items))) }
{
    let mut texts = Vec::new(alloc);
    let mut rest = bytes;
    while !rest.is_empty() {
        let Some((text, further)) = first_in(rest) else {
            return Ok(None);
        };
        texts.push(text)?;
        rest = further;
    }
    Ok(Some(texts))
}

/// The first text and what follows its zero byte.
fn first_in(bytes: &[u8]) -> Option<(&[u8], &[u8])>
    ensures { IfSome result (λ parts. IsFirst bytes.now parts.0.now parts.1.now) }
{
    let end = memchr(0, bytes)?;
    Some((&bytes[..end], &bytes[end + 1..]))
}
