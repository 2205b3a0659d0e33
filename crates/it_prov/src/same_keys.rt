//! Whether builders have the same keys.
ghost use Rattle.std.specs.Prelude.{◌≡◌, IsTrue};

use it_base::table::Table;
use it_dsse::key_object::KeyObject;
use std::alloc::{AllocError, Global};

/// Whether two maps have the same keys under the same ids. Takes no memory.
pub(crate) fn are_same(one: &Table<KeyObject>, other: &Table<KeyObject>) -> bool
    ensures { IsTrue result → one.now ≡ other.now }
{
    let mut others = other.iter();
    for (id, object) in one.iter() {
        let Some((other_id, other_object)) = others.next() else {
            return false;
        };
        if id.as_str() != other_id.as_str() || !is_same(object, other_object) {
            return false;
        }
    }
    others.next().is_none()
}

fn is_same(one: &KeyObject, other: &KeyObject) -> bool
    ensures { IsTrue result → one.now ≡ other.now }
{
    one.keytype.as_str() == other.keytype.as_str()
        && one.scheme.as_str() == other.scheme.as_str()
        && one.public.as_str() == other.public.as_str()
        && one.identity.as_str() == other.identity.as_str()
        && one.issuer.as_str() == other.issuer.as_str()
}

/// A text to look the keys up by. The same keys have the same text, and seldom have others it too,
/// so what is found by it is still to be compared.
///
/// # Errors
///
/// `AllocError` where memory was refused.
pub(crate) fn text_of(alloc: Global, keys: &Table<KeyObject>) -> Result<String, AllocError> {
    let mut text = String::new(alloc);
    for (id, object) in keys.iter() {
        text.push_str(id.as_str())?;
        text.push_str(object.keytype.as_str())?;
        text.push_str(object.scheme.as_str())?;
        text.push_str(object.public.as_str())?;
        text.push_str(object.identity.as_str())?;
        text.push_str(object.issuer.as_str())?;
    }
    Ok(text)
}
