//! `itv sign BODY (--ring F | --signature SIG --keys F) --key ID --type TYPE [--onto ENVELOPE]`.
ghost use Rattle.std.specs.Prelude.{◌≡◌, ◌≢◌, IfErr, IfOk, MatchOption};
ghost use Rattle.std.specs.Io.KnownBytes.{Appends};
ghost use Rattle.it_commands.specs.SignOutput.{IsSignOutput};
ghost use Rattle.it_file_commands.specs.Commands.{SignsAsAsked, SignsAsMade, SignsBy, SignsByRing};
ghost use Rattle.it_file_commands.specs.Commands.{SignsOnto};

use crate::sign_fault::{GivenSignature, made_fault, unknown_key};
use crate::sign_onto_command;
use crate::sign_onto_command::Onto;
use it_commands::{run_sign, write_sign_notes};
use it_disk::{Disk, Fault, read_keys, read_ring};
use it_dsse::ring::HmacRing;
use it_key_commands::{MadeSignature, run_sign_made};
use it_outcome::{RunFault, Status};
use it_words::words::sign_words::{MadePaths, SignBy, SignWords};
use std::alloc::Global;
use std::io::Write;

/// A ring, and the path of its file.
#[derive(Clone, Copy)]
pub(crate) struct ReadRing<'a> {
    /// The path of the file.
    pub(crate) path: &'a str,
    /// The ring that was read there.
    pub(crate) ring: &'a HmacRing,
}

/// Reads the body, and writes its signed envelope, or, where an envelope is given, that one with
/// one more signature. What may not be meant of the body and its type goes to `notes`.
///
/// # Errors
///
/// The fault of a file that cannot be read, or is not what its option asks for, and `Fault::Run`
/// where the output could not be written, or memory was refused.
pub fn run<R: Disk + AllocGlobal, W: Write, N: Write>(
    rt: &R,
    words: &SignWords,
    out: &mut W,
    notes: &mut N,
) -> Result<Status, Fault>
    ensures ok { IfOk result (λ status. (text : _)
        × SignsAsAsked (R.holdings rt.now) words.now text status
        × Appends (W.contents out.old) (W.contents out.new) text) }
    ensures nothing { IfErr result (λ fault. fault ≢ Fault.Run RunFault.Write → out.new ≡ out.old) }
{
    let body = rt.file(words.body.as_str())?;
    let body = body.as_slice();
    let status = sign_as_asked(rt, words, body, out)?;
    write_sign_notes(rt.alloc(), words.kind.as_str(), body, notes);
    Ok(status)
}

/// Writes the envelope of the body, or the one that is given with one more signature.
fn sign_as_asked<R: Disk + AllocGlobal, W: Write>(
    rt: &R,
    words: &SignWords,
    body: &[u8],
    out: &mut W,
) -> Result<Status, Fault>
    ensures ok { let w = words.now in IfOk result (λ status. (status ≡ Status.Good) × (text : _)
        × MatchOption w.onto (SignsBy (R.holdings rt.now) w w.by body.now text)
        (λ onto. SignsOnto (R.holdings rt.now) w body.now onto text)
        × Appends (W.contents out.old) (W.contents out.new) text) }
    ensures nothing { IfErr result (λ fault. fault ≢ Fault.Run RunFault.Write → out.new ≡ out.old) }
{
    match &words.onto {
        None => sign_alone(rt, words, body, out),
        Some(onto) => {
            let path = onto.as_str();
            sign_onto_command::run(rt, &Onto { words, body, path }, out)
        }
    }
}

/// Writes the envelope of the body, signed as the words ask.
fn sign_alone<R: Disk + AllocGlobal, W: Write>(
    rt: &R,
    words: &SignWords,
    body: &[u8],
    out: &mut W,
) -> Result<Status, Fault>
    ensures ok { let w = words.now in IfOk result (λ status. (status ≡ Status.Good) × (text : _)
        × SignsBy (R.holdings rt.now) w w.by body.now text
        × Appends (W.contents out.old) (W.contents out.new) text) }
    ensures nothing { IfErr result (λ fault. fault ≢ Fault.Run RunFault.Write → out.new ≡ out.old) }
{
    match &words.by {
        SignBy::Ring(path) => sign_by_ring(rt, words, path.as_str(), body, out),
        SignBy::Made(paths) => sign_as_made(rt, words, paths, body, out),
    }
}

/// Reads the ring, and writes the envelope of the body under its secret.
fn sign_by_ring<R: Disk + AllocGlobal, W: Write>(
    rt: &R,
    words: &SignWords,
    path: &str,
    body: &[u8],
    out: &mut W,
) -> Result<Status, Fault>
    ensures ok { IfOk result (λ status. (status ≡ Status.Good) × (text : _)
        × SignsByRing (R.holdings rt.now) words.now path.now body.now text
        × Appends (W.contents out.old) (W.contents out.new) text) }
    ensures nothing { IfErr result (λ fault. fault ≢ Fault.Run RunFault.Write → out.new ≡ out.old) }
{
    let ring = read_ring(rt, path)?;
    let read = ReadRing { path, ring: &ring };
    Ok(sign_under(rt.alloc(), words, &read, body, out)?)
}

/// Writes the envelope of the body under the secret that the ring has for the id.
fn sign_under<W: Write>(
    alloc: Global,
    words: &SignWords,
    read: &ReadRing<'_>,
    body: &[u8],
    out: &mut W,
) -> Result<Status, Fault>
    ensures ok { let w = words.now in IfOk result (λ status. (status ≡ Status.Good) × (text : _)
        × IsSignOutput read.now.ring.now w.key w.kind body.now text
        × Appends (W.contents out.old) (W.contents out.new) text) }
    ensures nothing { IfErr result (λ fault. fault ≢ Fault.Run RunFault.Write → out.new ≡ out.old) }
{
    let id = words.key.as_str();
    match run_sign(alloc, read.ring, id, words.kind.as_str(), body, out) {
        Err(RunFault::UnknownKey) => Err(unknown_key(alloc, read.path, id)?),
        outcome => Ok(outcome?),
    }
}

/// Reads the public keys and the signature, and writes the envelope of the body with it.
fn sign_as_made<R: Disk + AllocGlobal, W: Write>(
    rt: &R,
    words: &SignWords,
    paths: &MadePaths,
    body: &[u8],
    out: &mut W,
) -> Result<Status, Fault>
    ensures ok { IfOk result (λ status. (status ≡ Status.Good) × (text : _)
        × SignsAsMade (R.holdings rt.now) words.now paths.now body.now text
        × Appends (W.contents out.old) (W.contents out.new) text) }
    ensures nothing { IfErr result (λ fault. fault ≢ Fault.Run RunFault.Write → out.new ≡ out.old) }
{
    let alloc = rt.alloc();
    let keys = read_keys(rt, paths.keys.as_str())?;
    let signature = rt.file(paths.signature.as_str())?;
    let made = MadeSignature {
        id: words.key.as_str(),
        kind: words.kind.as_str(),
        body,
        signature: signature.as_slice(),
    };
    match run_sign_made(alloc, &made, &keys, out) {
        Ok(status) => Ok(status),
        Err(fault) => {
            let given = GivenSignature {
                paths,
                made,
                keys: &keys,
            };
            Err(made_fault(alloc, &given, fault)?)
        }
    }
}
