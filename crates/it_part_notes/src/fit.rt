//! Whether a value is of a kind.
ghost use Rattle.std.specs.Prelude.{◌≡◌, IfOk, false};
ghost use Rattle.it_borrowed.specs.Tree.{as_data};
ghost use Rattle.it_base.specs.Text.{IsText};
ghost use Rattle.it_dsse.specs.KeyObject.{IsKeyObject};
ghost use Rattle.it_docs.specs.Level.{IsLevel};
ghost use Rattle.it_docs.specs.Moment.{IsMoment};
ghost use Rattle.it_docs.specs.Threshold.{IsThreshold};
ghost use Rattle.it_part_notes.specs.Members.{Fits, Reads};

use crate::member::Kind;
use it_base::sequence::Sequence;
use it_base::table::Table;
use it_base::text::Text;
use it_base::tree::Members;
use it_borrowed::items::items_of;
use it_borrowed::parts::FromBorrowed;
use it_borrowed::text::text_of;
use it_borrowed::whole::unsigned_of;
use it_digest::compare::DigestSet;
use it_docs::moment::read_moment;
use it_docs::policy::Builder;
use it_dsse::envelope::Signature;
use it_dsse::key_object::KeyObject;
use json::Value;
use std::alloc::{AllocError, Global};

/// Whether a value is of a kind. For a list of rules, only whether it is a list; for a text in
/// base64, only whether it is a text.
///
/// # Errors
///
/// `AllocError` where memory was refused.
pub(crate) fn is_fit(alloc: Global, value: &Value<'_>, kind: Kind) -> Result<bool, AllocError>
    ensures { IfOk result (λ fit. fit ≡ false → ¬ Fits kind (as_data value.now)) }
{
    match kind {
        Kind::Text => reads::<Text>(alloc, value),
        Kind::Word => Ok(is_layout_word(value)),
        Kind::Moment => Ok(is_moment(value)),
        Kind::Threshold => Ok(is_threshold(value)),
        Kind::Level => Ok(is_level(value)),
        Kind::Texts => reads::<Sequence<Text>>(alloc, value),
        Kind::Keys => reads::<Table<KeyObject>>(alloc, value),
        Kind::SomeKey => has_member(alloc, value),
        Kind::Builders => reads::<Sequence<Builder>>(alloc, value),
        Kind::Object => reads::<Members>(alloc, value),
        Kind::Items | Kind::Rules => Ok(items_of(value).is_some()),
        Kind::Base64 => Ok(is_text(value)),
        Kind::Signatures => reads::<Sequence<Signature>>(alloc, value),
        Kind::LinkWord => Ok(is_link_word(value)),
        Kind::Artifacts => reads::<Table<DigestSet>>(alloc, value),
    }
}

/// Whether a part of a document is some value of a type.
pub(crate) fn reads<T: FromBorrowed>(alloc: Global, value: &Value<'_>) -> Result<bool, AllocError>
    ensures { IfOk result (λ read. read ≡ false → ¬ Reads T.is_of (as_data value.now)) }
{
    let found = T::from_borrowed(alloc, value)?;
    Ok(found.is_some())
}

/// Whether a part of a document is anything but an empty object of key objects.
fn has_member(alloc: Global, value: &Value<'_>) -> Result<bool, AllocError>
    ensures { IfOk result (λ fit. fit ≡ false → ¬ Fits Kind.SomeKey (as_data value.now)) }
{
    let Some(keys) = Table::<KeyObject>::from_borrowed(alloc, value)? else {
        return Ok(true);
    };
    Ok(!keys.is_empty())
}

fn is_layout_word(value: &Value<'_>) -> bool
    ensures { result ≡ false → ¬ Fits Kind.Word (as_data value.now) }
{
    match text_of(value) {
        None => false,
        Some(text) => text == "layout",
    }
}

fn is_link_word(value: &Value<'_>) -> bool
    ensures { result ≡ false → ¬ Fits Kind.LinkWord (as_data value.now) }
{
    match text_of(value) {
        None => false,
        Some(text) => text == "link",
    }
}

fn is_text(value: &Value<'_>) -> bool
    ensures { result ≡ false → ¬ Fits Kind.Base64 (as_data value.now) }
{
    text_of(value).is_some()
}

fn is_moment(value: &Value<'_>) -> bool
    ensures { result ≡ false → ¬ Reads IsMoment (as_data value.now) }
{
    match text_of(value) {
        None => false,
        Some(text) => read_moment(text).is_ok(),
    }
}

fn is_threshold(value: &Value<'_>) -> bool
    ensures { result ≡ false → ¬ Reads IsThreshold (as_data value.now) }
{
    match unsigned_of(value) {
        None => false,
        Some(number) => number >= 1,
    }
}

fn is_level(value: &Value<'_>) -> bool
    ensures { result ≡ false → ¬ Reads IsLevel (as_data value.now) }
{
    match unsigned_of(value) {
        None => false,
        Some(number) => number <= 3,
    }
}
