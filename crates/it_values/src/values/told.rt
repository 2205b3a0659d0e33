//! Answers in words.
use it_tables::RowFault;
use std::alloc::Global;

/// The text that was found, or `none`.
pub(crate) fn text_or_none(alloc: Global, found: Option<&str>) -> Result<String, RowFault> {
    Ok(String::from_str(alloc, found.unwrap_or("none"))?)
}

/// The hexadecimal digits of the bytes that were found, or `none`.
pub(crate) fn digits_or_none(alloc: Global, found: Option<&[u8]>) -> Result<String, RowFault> {
    match found {
        Some(bytes) => Ok(hex::encode(alloc, bytes)?),
        None => text_or_none(alloc, None),
    }
}

/// The texts, each followed by a semicolon.
pub(crate) fn joined(alloc: Global, texts: &[String]) -> Result<String, RowFault> {
    let mut all = String::new(alloc);
    for text in texts {
        write!(all, "{text};")?;
    }
    Ok(all)
}
