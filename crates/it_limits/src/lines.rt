//! The lines of a provenance, without those whose envelopes have too many signatures.
ghost use Rattle.std.specs.Prelude.{IfOk};
ghost use Rattle.it_digest.specs.Sums.{lines_of};
ghost use Rattle.it_limits.specs.Lines.{AreWithin};

use crate::signatures::signatures_over_limit;
use it_base::sequence::Sequence;
use it_digest::sums::split_line;
use std::alloc::{AllocError, Global};

/// A line that is left out.
#[derive(Clone, Copy, Drop)]
pub struct LineOver {
    /// The number of the line, from 1.
    pub line: usize,
    /// How many signatures its envelope has.
    pub signatures: usize,
}

/// The lines of a provenance that are looked at.
#[derive(Drop)]
pub struct LinesWithin {
    /// The lines, each with a line feed. An empty one replaces each that is left out.
    pub lines: Sequence<u8>,
    /// The lines left out, in order.
    pub left_out: Sequence<LineOver>,
}

/// The lines of a provenance, without those whose envelopes have more than `MOST_SIGNATURES`
/// signatures. Each line that stays keeps its number.
///
/// # Errors
///
/// `AllocError` where memory was refused.
pub fn lines_within_limit(alloc: Global, provenance: &[u8]) -> Result<LinesWithin, AllocError>
    ensures { IfOk result
        (λ within. AreWithin (lines_of provenance.now) (lines_of within.lines) within.left_out) }
{
    let mut lines = Vec::new(alloc);
    let mut left_out = Vec::new(alloc);
    let mut rest = provenance;
    let mut number = 0;
    while !rest.is_empty() {
        let (line, after) = split_line(rest);
        number += 1;
        match signatures_over_limit(alloc, line)? {
            None => lines.extend_from_slice(line)?,
            Some(signatures) => left_out.push(LineOver {
                line: number,
                signatures,
            })?,
        }
        lines.push(b'\n')?;
        rest = after;
    }
    Ok(LinesWithin {
        lines: Sequence::from(lines),
        left_out: Sequence::from(left_out),
    })
}
