//! What is left out of a verification by public keys because it has too many signatures, and the
//! notes on it.
ghost use Rattle.std.specs.Prelude.{IfOk, IfSome, IsNone, IsTrue};
ghost use Rattle.it_limits.specs.Limit.{IsOverLimit, IsWithinLimit};
ghost use Rattle.it_disk.specs.Faults.{IsUnreadable};

use crate::fault::Fault;
use crate::shown::Shown;
use it_chain::held_file::HeldFile;
use it_limits::{LineOver, MOST_SIGNATURES, file_over_limit, signatures_over_limit};
use std::alloc::{AllocError, Global};
use std::fmt;
use std::fmt::{Display, Formatter};
use std::io::Write;

/// How many lines of these notes are written at most.
const MOST_LINES: usize = 40;

/// That an envelope has this many signatures, which are too many.
#[derive(Clone, Copy)]
pub struct TooMany(pub usize);

impl TooMany {
    /// The fault of a file that cannot be left out.
    ///
    /// # Errors
    ///
    /// `AllocError` where memory was refused.
    pub fn in_file(self, alloc: Global, path: &str) -> Result<Fault, AllocError>
        ensures { IfOk result (IsUnreadable path.now) }
    {
        Fault::unread(alloc, path, format!(in alloc; "{self}")?.as_str())
    }
}

impl Display for TooMany {
    fn fmt<W: fmt::Write>(&self, f: &mut Formatter<W>) -> fmt::Result {
        let TooMany(count) = self;
        write!(f, "its envelope has {count} signatures, ")?;
        write!(
            f,
            "and with --public-keys at most {MOST_SIGNATURES} are looked at"
        )
    }
}

/// How many signatures the envelope in the bytes has, where signatures are limited and it has too
/// many.
///
/// # Errors
///
/// `AllocError` where memory was refused.
pub fn too_many(alloc: Global, bytes: &[u8], limited: bool) -> Result<Option<usize>, AllocError>
    ensures within { IfOk result (λ over. IsNone over → IsTrue limited → IsWithinLimit bytes.now) }
    ensures over { IfOk result
        (λ over. IfSome over (λ count. IsTrue limited × IsOverLimit bytes.now count)) }
{
    if limited {
        signatures_over_limit(alloc, bytes)
    } else {
        Ok(None)
    }
}

/// How many signatures the envelope in a file has, where signatures are limited and it has too
/// many. Takes no memory.
pub(crate) fn too_many_in(file: &HeldFile, limited: bool) -> Option<usize>
    ensures within { IsNone result → IsTrue limited → IsWithinLimit file.now.bytes }
    ensures over { IfSome result (λ count. IsTrue limited × IsOverLimit file.now.bytes count) }
{
    if limited { file_over_limit(file) } else { None }
}

/// What is left out.
#[derive(Drop)]
pub enum LeftOut {
    /// A file of a folder of links.
    File {
        /// Its path.
        path: Shown,
        /// How many signatures it has.
        signatures: usize,
    },
    /// A line of the provenance.
    Line(LineOver),
}

impl Display for LeftOut {
    fn fmt<W: fmt::Write>(&self, f: &mut Formatter<W>) -> fmt::Result {
        match self {
            LeftOut::File { path, signatures } => {
                write!(f, "{path} is left out: {}", TooMany(*signatures))
            }
            LeftOut::Line(over) => {
                write!(f, "provenance line {} is left out: ", over.line)?;
                write!(f, "{}", TooMany(over.signatures))
            }
        }
    }
}

/// Writes the notes on what is left out, as far as memory suffices and they can be written.
pub fn note_left_out<N: Write>(alloc: Global, left_out: &[LeftOut], notes: &mut N) {
    if let Ok(text) = text_of(alloc, left_out) {
        let _ = notes.write_all(text.as_bytes());
    }
}

/// A line for each thing left out; where there are more than 40, the last line says how many more
/// there are.
fn text_of(alloc: Global, left_out: &[LeftOut]) -> Result<String, AllocError> {
    let mut text = String::new(alloc);
    let shown = if left_out.len() > MOST_LINES {
        MOST_LINES - 1
    } else {
        left_out.len()
    };
    for note in &left_out[..shown] {
        text.push_str(format!(in alloc; "{note}\n")?.as_str())?;
    }
    let further = left_out.len() - shown;
    if further > 0 {
        let line = format!(in alloc; "{further} further files and lines are left out\n")?;
        text.push_str(line.as_str())?;
    }
    Ok(text)
}
