//! The note on an output that no command reads.
use std::alloc::{AllocError, Global};
use std::io::Write;

/// How many bytes a file may have that commands read, but for `digest`.
const MOST_BYTES: u64 = 8_388_608;

/// Writes, where so many bytes of output went out that no command but `digest` reads a file of
/// them, how many, as far as memory suffices and it can be written.
pub(crate) fn write_size_note<N: Write>(alloc: Global, written: u64, notes: &mut N) {
    if written <= MOST_BYTES {
        return;
    }
    if let Ok(text) = size_note(alloc, written) {
        let _ = notes.write_all(text.as_bytes());
    }
}

fn size_note(alloc: Global, written: u64) -> Result<String, AllocError> {
    format!(in alloc;
        "output: it has {written} bytes, and no command but digest reads more than {MOST_BYTES}\n"
    )
}
