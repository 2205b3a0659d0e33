//! Signed notes: their lines.
ghost use Rattle.std.specs.Prelude.{◌≡◌, ◌==◌, ℕ, List, IfOk, length};
ghost use Rattle.std.specs.List.{position, slice_split};
ghost use Rattle.it_base.specs.Finds.{FindsAs};
ghost use Rattle.it_log_entry.specs.Note.{AreLines, ended};
ghost use Rattle.it_log_entry.specs.inside.Lines.{IsCutAtEmpty, texts_of};

use std::alloc::{AllocError, Global};

/// The lines of a text, each of which ends with a line feed.
pub(crate) fn note_lines(alloc: Global, text: &[u8]) -> Result<Option<Vec<&[u8]>>, AllocError>
    ensures { IfOk result (FindsAs (λ lines. texts_of lines.items) (AreLines text.now)) }
{
    let mut lines = pieces(alloc, text)?;
    let Some(last) = lines.pop() else {
        return Ok(None);
    };
    if !last.is_empty() {
        return Ok(None);
    }
    Ok(Some(lines))
}

/// What is between the line feeds of a text.
fn pieces(alloc: Global, text: &[u8]) -> Result<Vec<&[u8]>, AllocError>
    ensures { IfOk result
        (λ pieces. texts_of pieces.items ≡ slice_split (λ byte. byte == 10) text.now) }
{
    text.split(|byte| *byte == b'\n').collect(alloc)
}

/// The lines before the first empty one, and those after it.
pub(crate) fn cut_at_empty<'l>(lines: &'l [&'l [u8]]) -> Option<(&'l [&'l [u8]], &'l [&'l [u8]])>
    ensures { FindsAs {Y = List (List ℕ) × List (List ℕ)}
        (λ parts. (texts_of parts.0.now, texts_of parts.1.now))
        (IsCutAtEmpty (texts_of lines.now)) result }
{
    match first_empty(lines) {
        Some(end) => Some((&lines[..end], &lines[end + 1..])),
        None => None,
    }
}

/// The place of the first empty line.
fn first_empty(lines: &[&[u8]]) -> Option<usize>
    ensures { result ≡ position (λ line. length line.now == 0) lines.now }
{
    lines.iter().position(|line| line.is_empty())
}

/// The lines, each ended by a line feed.
pub(crate) fn ended_lines(alloc: Global, lines: &[&[u8]]) -> Result<Vec<u8>, AllocError>
    ensures { IfOk result (λ text. text.items ≡ ended (texts_of lines.now)) }
{
    let mut text = Vec::new(alloc);
    for line in lines {
        text.extend_from_slice(line)?;
        text.push(b'\n')?;
    }
    Ok(text)
}
