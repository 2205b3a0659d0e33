//! What a caller hands over.
ghost use Rattle.std.specs.Prelude.{◌≡◌, ◌<◌, ◌-◌, ◌^◌, ◌∷◌, IfOk, codes, map, string_bytes};
ghost use Rattle.it_memory.specs.Files.{files_of};
ghost use Rattle.it_library.specs.Handed.{AreEnded, AreFiles};
ghost use Rattle.it_library.specs.inside.Cuts.{IsCut};

use crate::texts::texts_in;
use it_disk::Fault;
use it_memory::File;
use std::alloc::{AllocError, Global};

/// The words of a command and the files that it is run over, as a caller hands them over.
#[derive(Clone, Copy)]
pub(crate) struct Handed<'a> {
    /// The words, each ended by a zero byte.
    pub(crate) words: &'a [u8],
    /// The paths of the files, each ended by a zero byte.
    pub(crate) paths: &'a [u8],
    /// How many bytes each file has.
    pub(crate) sizes: &'a [usize],
    /// These bytes, file after file.
    pub(crate) contents: &'a [u8],
}

/// The words of the command, after the program's name.
///
/// # Errors
///
/// `BadWord` for the first word that is not UTF-8, and `Words` where the last is not ended.
pub(crate) fn words_in(alloc: Global, bytes: &[u8]) -> Result<Vec<String>, Fault>
    ensures { IfOk result (λ words. (texts : _) × AreEnded bytes.now texts
        × (map string_bytes words.items ≡ codes "itv" ∷ texts)) }
{
    let Some(texts) = texts_in(alloc, bytes)? else {
        return Err(said(alloc, "the last word is not ended by a zero byte")?);
    };
    let mut words = Vec::with_capacity(alloc, texts.len() + 1)?;
    words.push(String::from_str(alloc, "itv")?)?;
    for (place, text) in texts.iter().enumerate() {
        match str::from_utf8(text) {
            Ok(word) => words.push(String::from_str(alloc, word)?)?,
            Err(_) => return Err(Fault::BadWord(place + 1)),
        }
    }
    Ok(words)
}

/// The files, in the order in which they are handed over.
///
/// # Errors
///
/// `Words` where a path is not UTF-8, or paths, sizes and contents do not go together.
pub(crate) fn files_in<'a>(alloc: Global, handed: &Handed<'a>) -> Result<Vec<File<'a>>, Fault>
    ensures { IfOk result (λ files.
        AreFiles handed.now.paths.now handed.now.sizes.now handed.now.contents.now
        (files_of files.items)) }
{
    let Some(paths) = texts_in(alloc, handed.paths)? else {
        return Err(said(alloc, "the last path is not ended by a zero byte")?);
    };
    if paths.len() != handed.sizes.len() {
        return Err(said(alloc, "there are not as many sizes as paths")?);
    }
    let mut files = Vec::with_capacity(alloc, paths.len())?;
    let mut rest = handed.contents;
    for (place, path) in paths.iter().enumerate() {
        let named = text_of(alloc, path, place)?;
        let (bytes, further) = cut(alloc, rest, handed.sizes[place])?;
        let file = File { path: named, bytes };
        files.push(file)?;
        rest = further;
    }
    if !rest.is_empty() {
        return Err(said(alloc, "the contents go on after the last file")?);
    }
    Ok(files)
}

/// The path at a place, counted from 0, as a text.
fn text_of<'a>(alloc: Global, path: &'a [u8], place: usize) -> Result<&'a str, Fault>
    requires { place < 2 ^ 64 - 1 }
    ensures { IfOk result (λ text. text.now ≡ path.now) }
{
    match str::from_utf8(path) {
        Ok(text) => Ok(text),
        Err(_) => Err(Fault::Words(format!(in alloc; "path {} is not UTF-8", place + 1)?)),
    }
}

/// A file of this size at the front of the contents, and what follows it.
fn cut(alloc: Global, contents: &[u8], size: usize) -> Result<(&[u8], &[u8]), Fault>
    ensures { IfOk result (λ parts. IsCut size contents.now parts.0.now parts.1.now) }
{
    if size > contents.len() {
        return Err(said(alloc, "the contents end before the last file does")?);
    }
    Ok((&contents[..size], &contents[size..]))
}

/// The fault of what was handed over, in these words.
fn said(alloc: Global, reason: &str) -> Result<Fault, AllocError> {
    Ok(Fault::Words(String::from_str(alloc, reason)?))
}
