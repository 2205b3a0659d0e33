//! Files, read up to a limit and no further.
ghost use Rattle.std.specs.Prelude.{◌≡◌, ◌<◌, ◌≤◌, ◌-◌, ◌^◌, ◌⊎◌, length};
ghost use Rattle.std.specs.Prelude.{IfErr, IfOk, IfSome, IsNone};
ghost use Rattle.it_disk.specs.Faults.{IsFileFault, IsNoKeys, IsNoRing, IsNoRoot};
ghost use Rattle.it_disk.specs.Reading.{HoldsIfGiven, HoldsKeys, HoldsRing, HoldsRoot};

use crate::disk::Disk;
use crate::fault::Fault;
use crate::ring_flaw::ring_flaw;
use crate::root_flaw::RootFlaw;
use crate::shown::Shown;
use it_base::sequence::Sequence;
use it_base::table::Table;
use it_base::text::Text;
use it_borrowed::parts::from_bytes;
use it_dsse::key_object::KeyObject;
use it_dsse::ring::{HmacRing, RingFault};
use it_trust_root::{RootFault, TrustedRoot, root_or_fault};
use std::alloc::{AllocError, Global};
use std::fs::OpenFile;
use std::io::Read;
use std::rt::Files;
use std::{fs, io};

/// How many bytes a file may have.
pub const MOST_BYTES: u64 = 8_388_608;

/// The bytes of a file, up to the limit.
pub(crate) fn read_file<R: Files + AllocGlobal>(rt: &R, path: &str) -> Result<Vec<u8>, Fault>
    ensures within { IfOk result (λ bytes. length bytes.items ≤ 8388608) }
    ensures faults { IfErr result (IsFileFault path.now) }
{
    let alloc = rt.alloc();
    let bytes = match fs::open(rt, path) {
        Ok(file) => {
            let room = room_for(&file);
            read_limited(alloc, file, MOST_BYTES, room)
        }
        Err(error) => Err(error),
    };
    match bytes {
        Ok(Some(bytes)) => Ok(bytes),
        Ok(None) => Err(Fault::TooLarge {
            path: Shown::of(alloc, path)?,
            limit: MOST_BYTES,
        }),
        Err(error) => Err(Fault::of_file(alloc, path, &error)),
    }
}

/// How many bytes to make room for before a file is read: its size as the system gives it, which is
/// a guess, up to the limit, and one more, by which the end is noticed.
fn room_for<F: OpenFile>(file: &F) -> usize
    ensures { result ≤ 8388609 }
{
    match file.metadata() {
        Ok(metadata) => (metadata.len().min(MOST_BYTES) + 1) as usize,
        Err(_) => 0,
    }
}

/// The bytes of the file at a path, 8,388,608 at most.
///
/// # Errors
///
/// Where the file cannot be read or has more bytes.
pub fn bytes<R: Disk>(rt: &R, path: &Text) -> Result<Sequence<u8>, Fault>
    ensures { IfOk result (λ bytes. (R.holdings rt.now).file path.now bytes) }
{
    Ok(Sequence::from(rt.file(path.as_str())?))
}

/// The bytes of the file at a path, or none where no path is given.
///
/// # Errors
///
/// Those of `bytes`.
pub fn bytes_if_given<R: Disk + AllocGlobal>(
    rt: &R,
    path: &Option<Text>,
) -> Result<Sequence<u8>, Fault>
    ensures { IfOk result (λ bytes. HoldsIfGiven (R.holdings rt.now).file path.now bytes) }
{
    match path {
        Some(path) => bytes(rt, path),
        None => Ok(Sequence::from(Vec::new(rt.alloc()))),
    }
}

/// The ring in the file at a path.
///
/// # Errors
///
/// Those of `bytes`, and `BadRing` with the first thing that keeps the bytes from being a ring.
pub fn read_ring<R: Disk + AllocGlobal>(rt: &R, path: &str) -> Result<HmacRing, Fault>
    ensures ok { IfOk result (HoldsRing (R.holdings rt.now) path.now) }
    ensures faults { IfErr result (λ fault. IsFileFault path.now fault
        ⊎ IsNoRing (R.holdings rt.now) path.now fault) }
{
    let alloc = rt.alloc();
    let bytes = rt.file(path)?;
    match HmacRing::read(alloc, bytes.as_slice()) {
        Ok(ring) => Ok(ring),
        Err(RingFault::BadRing) => Err(Fault::BadRing {
            path: Shown::of(alloc, path)?,
            flaw: ring_flaw(alloc, bytes.as_slice())?,
        }),
        Err(RingFault::OutOfMemory) => Err(Fault::from(AllocError)),
    }
}

/// The key objects in the file at a path, under their ids.
///
/// # Errors
///
/// Those of `bytes`, and `BadKeys` where the bytes are no object from id to key object.
pub fn read_keys<R: Disk + AllocGlobal>(rt: &R, path: &str) -> Result<Table<KeyObject>, Fault>
    ensures ok { IfOk result (HoldsKeys (R.holdings rt.now) path.now) }
    ensures faults { IfErr result (λ fault. IsFileFault path.now fault
        ⊎ IsNoKeys (R.holdings rt.now) path.now fault) }
{
    let alloc = rt.alloc();
    let bytes = rt.file(path)?;
    match from_bytes::<Table<KeyObject>>(alloc, bytes.as_slice())? {
        Some(keys) => Ok(keys),
        None => Err(Fault::BadKeys {
            path: Shown::of(alloc, path)?,
        }),
    }
}

/// The trusted root in the file at a path.
///
/// # Errors
///
/// Those of `bytes`, and `BadRoot` with the first part that keeps the bytes from being a trusted
/// root.
pub fn read_trusted_root<R: Disk + AllocGlobal>(rt: &R, path: &str) -> Result<TrustedRoot, Fault>
    ensures ok { IfOk result (HoldsRoot (R.holdings rt.now) path.now) }
    ensures faults { IfErr result (λ fault. IsFileFault path.now fault
        ⊎ IsNoRoot (R.holdings rt.now) path.now fault) }
{
    let alloc = rt.alloc();
    let bytes = rt.file(path)?;
    match root_or_fault(alloc, bytes.as_slice()) {
        Ok(root) => Ok(root),
        Err(RootFault::BadRoot(part)) => Err(Fault::BadRoot {
            path: Shown::of(alloc, path)?,
            flaw: RootFlaw { part },
        }),
        Err(RootFault::OutOfMemory) => Err(Fault::from(AllocError)),
    }
}

/// All bytes of a reader, or `None` where there are more than `limit`. Reads at most one byte
/// beyond the limit. Starts with room for `room` bytes, and makes more as needed.
///
/// # Errors
///
/// The reader's error, or that memory was refused.
pub fn read_limited<R: Read + Drop>(
    alloc: Global,
    reader: R,
    limit: u64,
    room: usize,
) -> io::Result<Option<Vec<u8>>>
    requires { limit < 2 ^ 64 - 1 }
    ensures whole { IfOk result (λ found. IfSome found (λ bytes. IfSome (R.remaining reader)
        (λ all. bytes.items ≡ all))) }
    ensures within { IfOk result (λ found. IfSome found (λ bytes. length bytes.items ≤ limit)) }
    ensures large { IfOk result (λ found. IsNone found
        → IfSome (R.remaining reader) (λ all. limit < length all)) }
{
    let mut bytes = Vec::with_capacity(alloc, room)?;
    let count = reader.take(limit + 1).read_to_end(&mut bytes)?;
    if count as u64 > limit {
        Ok(None)
    } else {
        Ok(Some(bytes))
    }
}
