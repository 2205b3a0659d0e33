//! What is at a path, as the member `kind` of a row says.
//!
//! - `file`: a file of these `bytes`.
//! - `blank`: a file of this `length`, whatever its bytes are.
//! - `failing`: a file that gives these `bytes`, and then this `fault`.
//! - `folder`: a folder with these `names`, separated by slashes, and this many `further` empty
//!   files.
use it_tables::RowFault;
use it_tables::row::{bytes_in, number_in, text_in};
use serde_json::Value;
use std::alloc::Global;
use std::io::ErrorKind;

/// What is at a path.
#[derive(Drop)]
pub(crate) enum Node {
    /// A file.
    File(File),
    /// A folder.
    Folder(Folder),
}

/// A file.
#[derive(Drop)]
pub(crate) struct File {
    /// What it begins with.
    pub(crate) bytes: Vec<u8>,
    /// How many bytes follow, whatever they are.
    pub(crate) blank: usize,
    /// Why the system then fails to read on, if it does.
    pub(crate) fault: Option<ErrorKind>,
}

/// A folder.
#[derive(Drop)]
pub(crate) struct Folder {
    /// Names in it, each with a zero byte at its end.
    pub(crate) names: Vec<u8>,
    /// How many further files it has, each empty and named by a number.
    pub(crate) further: usize,
}

/// A path, and what is there.
#[derive(Drop)]
pub(crate) struct Placed {
    /// The path.
    pub(crate) path: String,
    /// What is there.
    pub(crate) node: Node,
}

/// What a row of files says is at a path.
pub(crate) fn placed_in(alloc: Global, row: &Value) -> Result<Placed, RowFault> {
    let path = String::from_str(alloc, text_in(row, "path")?)?;
    let node = node_in(alloc, row)?;
    Ok(Placed { path, node })
}

/// What a row says is at some path.
pub(crate) fn node_in(alloc: Global, row: &Value) -> Result<Node, RowFault> {
    match text_in(row, "kind")? {
        "file" => Ok(Node::File(file_of(bytes_in(alloc, row, "bytes")?, None))),
        "failing" => Ok(Node::File(failing(alloc, row)?)),
        "blank" => blank(alloc, row),
        "folder" => folder_of(alloc, row),
        _ => Err(RowFault::BadMember("kind")),
    }
}

/// A file of these bytes, which the system then fails to read on for this reason, if there is one.
fn file_of(bytes: Vec<u8>, fault: Option<ErrorKind>) -> File {
    File {
        bytes,
        blank: 0,
        fault,
    }
}

/// A file that begins with these bytes, and that the system then fails to read.
fn failing(alloc: Global, row: &Value) -> Result<File, RowFault> {
    let fault = match text_in(row, "fault")? {
        "OutOfMemory" => ErrorKind::OutOfMemory,
        "TimedOut" => ErrorKind::TimedOut,
        _ => return Err(RowFault::BadMember("fault")),
    };
    Ok(file_of(bytes_in(alloc, row, "bytes")?, Some(fault)))
}

/// A file of this many bytes, whatever they are.
fn blank(alloc: Global, row: &Value) -> Result<Node, RowFault> {
    Ok(Node::File(File {
        bytes: Vec::new(alloc),
        blank: number_in(row, "length")? as usize,
        fault: None,
    }))
}

/// A folder. In the row, slashes separate the names.
fn folder_of(alloc: Global, row: &Value) -> Result<Node, RowFault> {
    let mut names = bytes_in(alloc, row, "names")?;
    if !names.is_empty() {
        names.push(b'/')?;
    }
    for byte in names.as_mut_slice() {
        if *byte == b'/' {
            *byte = 0;
        }
    }
    Ok(Node::Folder(Folder {
        names,
        further: number_in(row, "further")? as usize,
    }))
}
