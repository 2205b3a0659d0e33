//! The part of a pattern's text with which every text that it matches begins.
ghost use Rattle.std.specs.Prelude.{◌≡◌, ◌<◌, ◌^◌, length};
ghost use Rattle.it_glob.specs.Pattern.{items_of, front_of};

use crate::item::Item;

/// The part of a pattern's text before its first star, any or set item, which has that length.
pub(crate) fn front_of_text(text: &str, len: usize) -> &str
    requires { len ≡ length (front_of (items_of text.now)) }
    ensures { result.now ≡ front_of (items_of text.now) }
{
    &text[..len]
}

/// How long that part is in bytes. The items are those of the text.
pub(crate) fn front_len(text: &str, items: &[Item]) -> usize
    requires { items.now ≡ items_of text.now }
    ensures { result ≡ length (front_of (items_of text.now)) }
{
    len_of_front(items)
}

/// How many bytes the items before the first that is not `Exactly` take in a text.
fn len_of_front(items: &[Item]) -> usize
    requires { length (front_of items.now) < 2 ^ 64 }
    ensures { result ≡ length (front_of items.now) }
{
    let mut len: usize = 0;
    for item in items {
        match item {
            Item::Exactly(character) => len += character.len_utf8(),
            _ => return len,
        }
    }
    len
}
