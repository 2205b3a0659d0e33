//! The base64 text between the marks of a public key.
ghost use Rattle.std.specs.Prelude.{◌≡◌, ℕ, List};
ghost use Rattle.std.specs.Str.Lines.{lines};
ghost use Rattle.it_pem.specs.PublicKeyText.{at_most, body_of, is_body_line, joined_to_end};
ghost use Rattle.it_pem.specs.inside.Lines.{Gives};

use crate::joined::Joined;
use std::str::Lines;

/// The first line.
const BEGIN: &str = "-----BEGIN PUBLIC KEY-----";

/// The last line.
const END: &str = "-----END PUBLIC KEY-----";

/// The base64 text between the marks, if these are the text's first and last lines.
pub(crate) fn body_in(text: &str) -> Option<Joined>
    ensures { result ≡ at_most 2048 (body_of (lines text.now)) }
{
    let mut lines = text.lines();
    let Some(first) = lines.next() else {
        return None;
    };
    if first != BEGIN {
        return None;
    }
    joined_to_end(lines)
}

/// The lines before the last one, joined, if the last one is the end mark and the others are lines
/// of base64.
fn joined_to_end(lines: Lines<'_>) -> Option<Joined>
    ensures { (all : List (List ℕ)) → Gives lines.entry all
        → result ≡ at_most 2048 (joined_to_end all) }
{
    let mut lines = lines;
    let Some(first) = lines.next() else {
        return None;
    };
    let mut last = first;
    let mut joined = Joined::new();
    for line in lines {
        if !is_body_line(last) {
            return None;
        }
        if !joined.push(last) {
            return None;
        }
        last = line;
    }
    if last != END {
        return None;
    }
    Some(joined)
}

/// Whether a line may be one of base64.
fn is_body_line(line: &str) -> bool
    ensures { result ≡ is_body_line line.now }
{
    line.len() > 0 && line.len() < 77
}
