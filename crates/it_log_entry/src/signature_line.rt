//! The signature lines of a signed note.
ghost use Rattle.std.specs.Prelude.{◌≡◌, ◌==◌, ◌++◌, ℕ, List, IfOk};
ghost use Rattle.std.specs.List.{AllZip, position};
ghost use Rattle.it_base.specs.Finds.{Finds, FindsAs};
ghost use Rattle.it_log_entry.specs.Note.{IsNamed, IsSignatureLine, signature_mark};
ghost use Rattle.it_log_entry.specs.inside.Lines.{AreSignatures, texts_of};

use it_base::base64_text::decode_standard;
use it_base::sequence::Sequence;
use std::alloc::{AllocError, Global};

/// A dash and a space.
const SIGNATURE_MARK: [u8; 4] = [226, 128, 148, 32];

/// The most signatures that a note may have.
const MOST_SIGNATURES: usize = 8;

/// The fewest bytes of a signature with its hint.
const FEWEST_BYTES: usize = 5;

/// The signatures of signature lines, 1 to 8; `None` where there are more or none, or a line is no
/// signature line.
pub(crate) fn signatures_in(
    alloc: Global,
    lines: &[&[u8]],
) -> Result<Option<Sequence<Sequence<u8>>>, AllocError>
    ensures { IfOk result (Finds (AreSignatures (texts_of lines.now))) }
{
    let count = lines.len();
    if count == 0 {
        return Ok(None);
    }
    if count > MOST_SIGNATURES {
        return Ok(None);
    }
    each_signature(alloc, lines)
}

fn each_signature(
    alloc: Global,
    lines: &[&[u8]],
) -> Result<Option<Sequence<Sequence<u8>>>, AllocError>
    ensures { IfOk result (Finds (AllZip IsSignatureLine (texts_of lines.now))) }
{
    let mut signatures = Vec::new(alloc);
    for line in lines {
        let Some(signature) = signature_in(alloc, line)? else {
            return Ok(None);
        };
        signatures.push(signature)?;
    }
    Ok(Some(Sequence::from(signatures)))
}

fn signature_in(alloc: Global, line: &[u8]) -> Result<Option<Sequence<u8>>, AllocError>
    ensures { IfOk result (Finds (IsSignatureLine line.now)) }
{
    let Some(named) = after_mark(line) else {
        return Ok(None);
    };
    let Some((_, encoded)) = cut_after_name(named) else {
        return Ok(None);
    };
    let Some(signature) = decode_standard(alloc, encoded)? else {
        return Ok(None);
    };
    if signature.as_slice().len() < FEWEST_BYTES {
        return Ok(None);
    }
    Ok(Some(signature))
}

/// What comes after the mark of a signature line.
fn after_mark(line: &[u8]) -> Option<&[u8]>
    ensures { FindsAs (λ rest. rest.now) (λ rest. line.now ≡ signature_mark ++ rest) result }
{
    line.strip_prefix(SIGNATURE_MARK.as_slice())
}

/// The name before the first space, where it is not empty, and what is after that space.
fn cut_after_name(text: &[u8]) -> Option<(&[u8], &[u8])>
    ensures { FindsAs {Y = List ℕ × List ℕ} (λ parts. (parts.0.now, parts.1.now))
        (λ parts. IsNamed text.now parts.0 parts.1) result }
{
    let end = first_space(text)?;
    if end == 0 {
        return None;
    }
    Some((&text[..end], &text[end + 1..]))
}

/// The place of the first space.
fn first_space(text: &[u8]) -> Option<usize>
    ensures { result ≡ position (λ byte. byte == 32) text.now }
{
    text.iter().position(|byte| *byte == b' ')
}
