//! Files as they are handed over.

/// A file: its path, and its bytes.
#[derive(Clone, Copy)]
pub struct File<'a> {
    /// The path: names with a slash between them.
    pub path: &'a str,
    /// All of the file's bytes.
    pub bytes: &'a [u8],
}
