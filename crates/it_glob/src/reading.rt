//! Reading a pattern's text into items.
ghost use Rattle.std.specs.Prelude.{◌≡◌, ◌+◌, ◌≤◌, ◌<◌, IfOk, IfSome, length, position};
ghost use Rattle.std.specs.Prelude.{if◌then◌else◌};
ghost use Rattle.it_glob.specs.Pattern.{items_of, items_after, item_at, plain_item, set_at};
ghost use Rattle.it_glob.specs.Pattern.{negation_of, body_len, is_close};

use crate::body::Body;
use crate::item::Item;
use std::alloc::{AllocError, Global};

/// The items of a pattern's text.
pub(crate) fn read_items(alloc: Global, text: &str) -> Result<Vec<Item>, AllocError>
    ensures { IfOk result (λ v. v.items ≡ items_of text.now) }
{
    let characters: Vec<char> = text.chars().collect(alloc)?;
    items(alloc, characters.as_slice())
}

/// The items of these characters.
fn items(alloc: Global, characters: &[char]) -> Result<Vec<Item>, AllocError>
    ensures { IfOk result (λ v. v.items ≡ items_after 0 characters.now) }
{
    let mut items = Vec::new(alloc);
    let mut rest = characters;
    // Once a `[` has found no `]`, no later one will, and none is looked for again.
    let mut may_close = true;
    while let Some((first, others)) = rest.split_first() {
        let (item, taken) = if may_close {
            item(alloc, *first, others)?
        } else {
            (plain(*first), 0)
        };
        may_close = may_close && (*first != '[' || taken > 0);
        items.push(item)?;
        rest = &others[taken..];
    }
    Ok(items)
}

/// The item that a character begins, and how many of the characters after it the item takes.
fn item(alloc: Global, first: char, others: &[char]) -> Result<(Item, usize), AllocError>
    ensures answer { IfOk result (λ p. p ≡ item_at first others.now) }
    ensures within { IfOk result (λ p. p.1 ≤ length others.now) }
{
    if first == '[' {
        if let Some(set) = set(alloc, others)? {
            return Ok(set);
        }
    }
    Ok((plain(first), 0))
}

/// The item of a character that begins no set.
fn plain(character: char) -> Item
    ensures { result ≡ plain_item character }
{
    match character {
        '*' => Item::Star,
        '?' => Item::Any,
        _ => Item::Exactly(character),
    }
}

/// The set whose `[` precedes these characters, and how many of them it takes.
fn set(alloc: Global, after: &[char]) -> Result<Option<(Item, usize)>, AllocError>
    ensures answer { IfOk result (λ s. s ≡ set_at after.now) }
    ensures within { IfOk result (λ s. IfSome s (λ p. p.1 ≤ length after.now)) }
{
    let (negated, characters) = split_negation(after);
    let Some(len) = len_of_body(characters) else {
        return Ok(None);
    };
    let body = Body::new(alloc, characters[..len].to_vec(alloc)?)?;
    let taken = if negated { len + 2 } else { len + 1 };
    Ok(Some((Item::OneOf { negated, body }, taken)))
}

/// Whether a set is negated, given the characters after its `[`, and the characters from its body
/// on.
fn split_negation(after: &[char]) -> (bool, &[char])
    ensures value { (result.0, result.1.now) ≡ negation_of after.now }
    ensures within { length result.1.now + (if result.0 then 1 else 0) ≡ length after.now }
{
    match after.split_first() {
        Some((first, others)) if *first == '!' => (true, others),
        _ => (false, after),
    }
}

/// How many of these characters are the body of a set, if they begin with one.
fn len_of_body(characters: &[char]) -> Option<usize>
    ensures answer { result ≡ body_len characters.now }
    ensures within { IfSome result (λ n. n < length characters.now) }
{
    let (_, others) = characters.split_first()?;
    let end = position_of_close(others)?;
    Some(end + 1)
}

/// The index of the first `]` among these characters.
fn position_of_close(characters: &[char]) -> Option<usize>
    ensures { result ≡ position is_close characters.now }
{
    characters.iter().position(|c| *c == ']')
}
