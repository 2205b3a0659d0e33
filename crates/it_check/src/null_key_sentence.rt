//! What is said of findings on key objects that are null.
ghost use Rattle.std.specs.Prelude.{◌≡◌, ◌++◌, OnOk};
ghost use Rattle.it_check.specs.NullKeySentence.{null_end, null_key_sentence};

use crate::writing::push_told;
use it_findings::null_key::{KeyList, NullKey};
use std::alloc::AllocError;

/// Appends what is said of a key id under which null stands.
pub(crate) fn push_null_key(text: &mut Vec<u8>, key: &NullKey) -> Result<(), AllocError>
    ensures { OnOk result (text.new.items ≡ text.old.items ++ null_key_sentence key.now) }
{
    let before = "null stands for the key object of ";
    push_told(text, before, &key.id, end_words(key.list))
}

fn end_words(list: KeyList) -> &'static str
    ensures { result.now ≡ null_end list }
{
    match list {
        KeyList::Owners => ", so that no signature of this owner is needed",
        KeyList::OfBuilder { .. } | KeyList::OfLayout => ", so that it counts as missing",
    }
}
