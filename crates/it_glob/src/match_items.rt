//! Matching items against a text: forward, with one place to restart from.
ghost use Rattle.std.specs.Prelude.{◌≡◌, ◌+◌, ◌*◌, ◌≤◌, ◌∷◌, [], IsTrue, ◌↔◌, MatchOption, length};
ghost use Rattle.std.specs.Str.{chars};
ghost use Rattle.it_glob.specs.Pattern.{MatchesChars, plain_count};
ghost use Rattle.it_glob.specs.inside.Restarts.{next_place, place_of};

use crate::item::Item;

/// Where to restart after the last star: the items after it, and the text they were last tried at.
#[derive(Clone, Copy)]
struct Restart<'a> {
    items: &'a [Item],
    text: &'a str,
}

/// Whether the items match the whole text, and how many tests of an item against a character were
/// made.
pub(crate) fn match_items(items: &[Item], text: &str) -> (bool, u64)
    ensures answer { IsTrue result.0 ↔ MatchesChars items.now (chars text.now) }
    ensures at_most { result.1 ≤ (length items.now + 1) * (length (chars text.now) + 1) }
    ensures at_least { IsTrue result.0 → plain_count items.now ≤ result.1 }
{
    let mut items = items;
    let mut text = text;
    let mut restart: Option<Restart> = None;
    let mut steps: u64 = 0;
    loop {
        match items.split_first() {
            Some((item, others)) if item.is_star() => {
                items = others;
                restart = Some(Restart { items, text });
                continue;
            }
            Some((item, others)) => {
                let Some((character, after)) = split_first_char(text) else {
                    return (false, steps);
                };
                steps = steps.saturating_add(1);
                if item.takes(character) {
                    items = others;
                    text = after;
                    continue;
                }
            }
            None => {
                if text.is_empty() {
                    return (true, steps);
                }
            }
        }
        let Some(again) = next_try(restart) else {
            return (false, steps);
        };
        items = again.items;
        text = again.text;
        restart = Some(again);
    }
}

/// The same items, one character further on.
fn next_try(restart: Option<Restart>) -> Option<Restart>
    ensures { place_of result ≡ next_place (place_of restart.entry) }
{
    let last = restart?;
    let (_, text) = split_first_char(last.text)?;
    Some(Restart {
        items: last.items,
        text,
    })
}

/// The first character of a text, and the text after it.
fn split_first_char(text: &str) -> Option<(char, &str)>
    ensures { MatchOption result (chars text.now ≡ []) (λ p. chars text.now ≡ p.0 ∷ chars p.1.now) }
{
    let mut characters = text.chars();
    let first = characters.next()?;
    Some((first, characters.as_str()))
}
