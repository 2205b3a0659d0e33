//! `itv sign .. --onto ENVELOPE`.
ghost use Rattle.std.specs.Prelude.{◌≡◌, ◌≢◌, IfErr, IfOk};
ghost use Rattle.std.specs.Io.KnownBytes.{Appends};
ghost use Rattle.it_commands.specs.SignOntoOutput.{IsSignOntoOutput};
ghost use Rattle.it_file_commands.specs.Commands.{SignsOnto, SignsOntoAsMade, SignsOntoByRing};

use crate::sign_command::ReadRing;
use crate::sign_fault::{GivenSignature, made_fault, unknown_key};
use it_commands::run_sign_onto;
use it_disk::{Disk, Fault, Shown, read_keys, read_ring};
use it_dsse::signing::NewSignature;
use it_key_commands::{KeyFault, MadeSignature, run_sign_made_onto};
use it_outcome::{RunFault, Status};
use it_words::words::sign_words::{MadePaths, SignBy, SignWords};
use std::alloc::{AllocError, Global};
use std::io::Write;

/// A body that is signed onto an envelope.
#[derive(Clone, Copy)]
pub(crate) struct Onto<'a> {
    /// The words of the command.
    pub(crate) words: &'a SignWords,
    /// The body, which the envelope must already hold.
    pub(crate) body: &'a [u8],
    /// The path of the envelope.
    pub(crate) path: &'a str,
}

/// Reads the ring, or the public keys and the signature, and then the envelope, and writes the
/// envelope with one more signature.
pub(crate) fn run<R: Disk + AllocGlobal, W: Write>(
    rt: &R,
    onto: &Onto<'_>,
    out: &mut W,
) -> Result<Status, Fault>
    ensures ok { let o = onto.now in IfOk result (λ status. (status ≡ Status.Good) × (text : _)
        × SignsOnto (R.holdings rt.now) o.words.now o.body.now o.path.now text
        × Appends (W.contents out.old) (W.contents out.new) text) }
    ensures nothing { IfErr result (λ fault. fault ≢ Fault.Run RunFault.Write → out.new ≡ out.old) }
{
    match &onto.words.by {
        SignBy::Ring(path) => sign_by_ring(rt, onto, path.as_str(), out),
        SignBy::Made(paths) => sign_as_made(rt, onto, paths, out),
    }
}

/// Adds the signature under the ring's secret.
fn sign_by_ring<R: Disk + AllocGlobal, W: Write>(
    rt: &R,
    onto: &Onto<'_>,
    path: &str,
    out: &mut W,
) -> Result<Status, Fault>
    ensures ok { let o = onto.now in IfOk result (λ status. (status ≡ Status.Good) × (text : _)
        × (envelope : _) × (R.holdings rt.now).file o.path.now envelope
        × SignsOntoByRing (R.holdings rt.now) o.words.now path.now o.body.now envelope text
        × Appends (W.contents out.old) (W.contents out.new) text) }
    ensures nothing { IfErr result (λ fault. fault ≢ Fault.Run RunFault.Write → out.new ≡ out.old) }
{
    let ring = read_ring(rt, path)?;
    let envelope = rt.file(onto.path)?;
    let read = ReadRing { path, ring: &ring };
    Ok(sign_under(rt.alloc(), onto, &read, envelope.as_slice(), out)?)
}

/// Writes the envelope with one more signature, under the secret that the ring has for the id.
fn sign_under<W: Write>(
    alloc: Global,
    onto: &Onto<'_>,
    read: &ReadRing<'_>,
    envelope: &[u8],
    out: &mut W,
) -> Result<Status, Fault>
    ensures ok { let o = onto.now in let w = o.words.now in IfOk result
        (λ status. (status ≡ Status.Good) × (text : _)
        × IsSignOntoOutput read.now.ring.now w.key w.kind o.body.now envelope.now text
        × Appends (W.contents out.old) (W.contents out.new) text) }
    ensures nothing { IfErr result (λ fault. fault ≢ Fault.Run RunFault.Write → out.new ≡ out.old) }
{
    let id = onto.words.key.as_str();
    let added = NewSignature {
        ring: read.ring,
        id,
        kind: onto.words.kind.as_str(),
        body: onto.body,
    };
    match run_sign_onto(alloc, &added, envelope, out) {
        Ok(status) => Ok(status),
        Err(RunFault::UnknownKey) => Err(unknown_key(alloc, read.path, id)?),
        Err(fault) => Err(onto_fault(alloc, onto, fault)?),
    }
}

/// Adds the signature that was made elsewhere.
fn sign_as_made<R: Disk + AllocGlobal, W: Write>(
    rt: &R,
    onto: &Onto<'_>,
    paths: &MadePaths,
    out: &mut W,
) -> Result<Status, Fault>
    ensures ok { let o = onto.now in IfOk result (λ status. (status ≡ Status.Good) × (text : _)
        × (envelope : _) × (R.holdings rt.now).file o.path.now envelope
        × SignsOntoAsMade (R.holdings rt.now) o.words.now paths.now o.body.now envelope text
        × Appends (W.contents out.old) (W.contents out.new) text) }
    ensures nothing { IfErr result (λ fault. fault ≢ Fault.Run RunFault.Write → out.new ≡ out.old) }
{
    let alloc = rt.alloc();
    let keys = read_keys(rt, paths.keys.as_str())?;
    let signature = rt.file(paths.signature.as_str())?;
    let envelope = rt.file(onto.path)?;
    let made = MadeSignature {
        id: onto.words.key.as_str(),
        kind: onto.words.kind.as_str(),
        body: onto.body,
        signature: signature.as_slice(),
    };
    match run_sign_made_onto(alloc, &made, &keys, envelope.as_slice(), out) {
        Ok(status) => Ok(status),
        Err(fault) => {
            let given = GivenSignature {
                paths,
                made,
                keys: &keys,
            };
            Err(made_onto_fault(alloc, onto, &given, fault)?)
        }
    }
}

/// The fault of a signature that was made elsewhere, or of the envelope, with what it is about.
fn made_onto_fault(
    alloc: Global,
    onto: &Onto<'_>,
    given: &GivenSignature<'_>,
    fault: KeyFault,
) -> Result<Fault, AllocError>
    ensures { fault ≡ KeyFault.Run RunFault.Write → result ≡ Ok (Fault.Run RunFault.Write) }
{
    match fault {
        KeyFault::Run(fault) => onto_fault(alloc, onto, fault),
        fault => made_fault(alloc, given, fault),
    }
}

/// The fault of an envelope that is not one of the body, with the paths and words that it is about.
fn onto_fault(alloc: Global, onto: &Onto<'_>, fault: RunFault) -> Result<Fault, AllocError>
    ensures { fault ≡ RunFault.Write → result ≡ Ok (Fault.Run RunFault.Write) }
{
    match fault {
        RunFault::NoEnvelope => Ok(Fault::NoEnvelope {
            path: Shown::of(alloc, onto.path)?,
        }),
        RunFault::OtherPayload => Ok(Fault::OtherPayload {
            path: Shown::of(alloc, onto.path)?,
            body: Shown::of(alloc, onto.words.body.as_str())?,
        }),
        RunFault::OtherType => Ok(Fault::OtherType {
            path: Shown::of(alloc, onto.path)?,
            kind: Shown::of(alloc, onto.words.kind.as_str())?,
        }),
        fault => Ok(Fault::Run(fault)),
    }
}
