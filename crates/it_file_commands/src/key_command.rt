//! `itv key (FILE.. | --identity I --issuer S) [--name ID]`.
ghost use Rattle.std.specs.Prelude.{◌≡◌, ◌≢◌, IfErr, IfOk, map, option_map};
ghost use Rattle.std.specs.Io.KnownBytes.{Appends};
ghost use Rattle.std.specs.List.{AllZip};
ghost use Rattle.it_file_commands.specs.Commands.{MakesFileKeys, MakesIdentityKey, MakesKeys};

use it_base::sequence::Sequence;
use it_base::text::Text;
use it_disk::{Disk, Fault, Shown, bytes};
use it_key_commands::{KeyFault, run_identity, run_key};
use it_outcome::{RunFault, Status};
use it_words::words::key_words::{IdentityWords, KeySource, KeyWords};
use std::alloc::{AllocError, Global};
use std::io::Write;

/// Writes the key objects of public keys, whose files it reads, or that of an identity, under their
/// ids.
///
/// # Errors
///
/// The fault of a file that cannot be read, or is no public key, or of the keys together, and
/// `Fault::Run` where the output could not be written, or memory was refused.
pub fn run<R: Disk + AllocGlobal, W: Write>(
    rt: &R,
    words: &KeyWords,
    out: &mut W,
) -> Result<Status, Fault>
    ensures ok { IfOk result (λ status. (text : _)
        × MakesKeys (R.holdings rt.now) words.now text status
        × Appends (W.contents out.old) (W.contents out.new) text) }
    ensures nothing { IfErr result (λ fault. fault ≢ Fault.Run RunFault.Write → out.new ≡ out.old) }
{
    let name = name_of(words);
    match &words.source {
        KeySource::Files(paths) => run_of_files(rt, paths.as_slice(), name, out),
        KeySource::Identity(identity) => run_of_identity(rt.alloc(), identity, name, out),
    }
}

/// The id that is given.
fn name_of(words: &KeyWords) -> Option<&str>
    ensures { option_map (λ name. name.now) result ≡ words.now.name }
{
    match &words.name {
        Some(name) => Some(name.as_str()),
        None => None,
    }
}

/// Reads the files of public keys, and writes their key objects under their ids.
fn run_of_files<R: Disk + AllocGlobal, W: Write>(
    rt: &R,
    paths: &[Text],
    name: Option<&str>,
    out: &mut W,
) -> Result<Status, Fault>
    ensures ok { IfOk result (λ status. (text : _)
        × MakesFileKeys (R.holdings rt.now) paths.now (option_map (λ name. name.now) name.entry)
        text status
        × Appends (W.contents out.old) (W.contents out.new) text) }
    ensures nothing { IfErr result (λ fault. fault ≢ Fault.Run RunFault.Write → out.new ≡ out.old) }
{
    let alloc = rt.alloc();
    let files = read_files(rt, paths)?;
    let slices = slices(alloc, files.as_slice())?;
    match run_key(alloc, slices.as_slice(), name, out) {
        Ok(status) => Ok(status),
        Err(fault) => Err(key_fault(alloc, paths, fault)?),
    }
}

/// Writes the key object of an identity under its id.
fn run_of_identity<W: Write>(
    alloc: Global,
    identity: &IdentityWords,
    name: Option<&str>,
    out: &mut W,
) -> Result<Status, Fault>
    ensures ok { IfOk result (λ status. (text : _)
        × MakesIdentityKey identity.now (option_map (λ name. name.now) name.entry) text status
        × Appends (W.contents out.old) (W.contents out.new) text) }
    ensures nothing { IfErr result (λ fault. fault ≢ Fault.Run RunFault.Write → out.new ≡ out.old) }
{
    let IdentityWords { name: who, issuer } = identity;
    Ok(run_identity(alloc, who.as_str(), issuer.as_str(), name, out)?)
}

/// The bytes of each file, in the order of the paths.
fn read_files<R: Disk + AllocGlobal>(rt: &R, paths: &[Text]) -> Result<Vec<Sequence<u8>>, Fault>
    ensures { IfOk result (λ files. AllZip (R.holdings rt.now).file paths.now files.items) }
{
    let mut files = Vec::new(rt.alloc());
    for path in paths {
        files.push(bytes(rt, path)?)?;
    }
    Ok(files)
}

/// The same files, lent.
fn slices<'a>(alloc: Global, files: &'a [Sequence<u8>]) -> Result<Vec<&'a [u8]>, AllocError>
    ensures { IfOk result (λ slices. map (λ slice. slice.now) slices.items ≡ files.now) }
{
    let mut slices = Vec::with_capacity(alloc, files.len())?;
    for file in files {
        slices.push(file.as_slice())?;
    }
    Ok(slices)
}

/// The fault of the keys in files, with the path of the file that it is about.
fn key_fault(alloc: Global, paths: &[Text], fault: KeyFault) -> Result<Fault, AllocError>
    ensures { fault ≡ KeyFault.Run RunFault.Write → result ≡ Ok (Fault.Run RunFault.Write) }
{
    match fault {
        KeyFault::BadFile(place, flaw) => Ok(Fault::BadKey {
            path: shown_path(alloc, paths, place)?,
            flaw,
        }),
        KeyFault::Run(fault) => Ok(Fault::Run(fault)),
        fault => Fault::of_key(alloc, fault),
    }
}

/// The path at this place, counted from 0.
fn shown_path(alloc: Global, paths: &[Text], place: usize) -> Result<Shown, AllocError> {
    let path = paths.get(place);
    Shown::of(alloc, path.map_or("", |path| path.as_str()))
}
