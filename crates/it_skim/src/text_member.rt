//! The text under a name in an object.
ghost use Rattle.std.specs.Prelude.{◌≡◌, ◌≢◌, ◌↔◌, ◌∷◌, [], IfOk, IsTrue, MatchBool};
ghost use Rattle.json.specs.Token.{begin_object};
ghost use Rattle.it_skim.specs.TextMember.{HasText};
ghost use Rattle.it_skim.specs.inside.Reading.{IsRead};

use crate::members::members_have;
use json::{Reader, Scratch, Token};
use std::alloc::{AllocError, Global};
use std::str;

/// Whether the bytes are the text of a JSON object whose member of this name is the `wanted` text:
/// of two members of one name the last counts. The other members are passed over. Numbers may be
/// out of range, for which `it_borrowed` reads no document.
///
/// # Errors
///
/// `AllocError` where memory was refused.
pub fn object_has_text(
    alloc: Global,
    bytes: &[u8],
    name: &str,
    wanted: &str,
) -> Result<bool, AllocError>
    ensures { IfOk result (λ has. IsTrue has ↔ HasText bytes.now name.now wanted.now) }
{
    let Ok(text) = str::from_utf8(bytes) else {
        return Ok(false);
    };
    let mut scratch = Scratch::new(alloc);
    let mut reader = Reader::new(text, &mut scratch)?;
    if !object_has(alloc, &mut reader, name, wanted)? {
        return Ok(false);
    }
    Ok(is_at_end(&mut reader))
}

/// Whether an object comes whose member of this name is the text.
fn object_has(
    alloc: Global,
    reader: &mut Reader<'_>,
    name: &str,
    wanted: &str,
) -> Result<bool, AllocError>
    ensures { IfOk result (IsRead reader.old reader.new name.now wanted.now) }
{
    if !begins_object(reader) {
        return Ok(false);
    }
    let has = members_have(alloc, reader, name, wanted)?;
    Ok(has.unwrap_or(false))
}

/// Whether an object begins.
fn begins_object(reader: &mut Reader<'_>) -> bool
    ensures { MatchBool result (reader.old ≡ begin_object ∷ reader.new)
        ((ts : _) → reader.old ≢ begin_object ∷ ts) }
{
    match reader.next() {
        Some(Token::BeginObject) => true,
        Some(Token::EndObject | Token::BeginArray | Token::EndArray | Token::Key(_)) => false,
        Some(Token::String(_) | Token::Number(_) | Token::Bool(_)) => false,
        Some(Token::Null | Token::Bad) | None => false,
    }
}

/// Whether nothing comes.
fn is_at_end(reader: &mut Reader<'_>) -> bool
    ensures { IsTrue result ↔ (reader.old ≡ []) }
{
    reader.next().is_none()
}
