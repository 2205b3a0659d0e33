//! How places in documents are written.

/// How the names in a JSON pointer (RFC 6901) are written.
#[derive(Clone, Copy)]
pub enum PointerForm {
    /// As the pointer has them, of any bytes.
    Plain,
    /// As reports write names.
    Shown,
}
