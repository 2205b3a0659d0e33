//! `itv signed ENVELOPE --keys F --trusted-root F`.
ghost use Rattle.std.specs.Prelude.{◌≡◌, ◌≢◌, ◌++◌, [], Some, true, IfErr, IfOk, OnErr, OnOk};
ghost use Rattle.std.specs.Io.KnownBytes.{Appends};
ghost use Rattle.std.specs.List.{flat_map};
ghost use Rattle.it_base.specs.Writing.{AppendsBeginning};
ghost use Rattle.it_command_checks.specs.CommandChecks.{command_checks};
ghost use Rattle.it_file_commands.specs.BundleNotes.{NotesBundle, bundle_note, bundle_notes};
ghost use Rattle.it_file_commands.specs.TrustedSigners.{ShowsTrustedSigners};

use crate::judging::judged_or_fault;
use it_base::writing::write_all_of;
use it_command_checks::command_checks::CommandChecks;
use it_disk::{Disk, Fault, read_keys, read_trusted_root};
use it_outcome::{RunFault, Status};
use it_public_keys::own_checks::OwnChecks;
use it_signers::run_signers;
use it_vouched::{CountedLines, JudgedLines, SilentLine, VouchedLines};
use it_words::words::signed_words::TrustedPaths;
use std::alloc::{AllocError, Global};
use std::io::Write;

/// Reads the keys and the trusted root, and writes the ids of the public keys that signed the
/// envelope, and of the identities for which the bundle vouches that holds it. Why a bundle vouches
/// for nobody goes to `notes`, where no id signed.
///
/// # Errors
///
/// The fault of a file that cannot be read, or is not what its option asks for,
/// `Fault::TooManyChecks`, and `Fault::Run` where the output could not be written, or memory was
/// refused.
pub(crate) fn run<R: Disk + AllocGlobal, W: Write, N: Write>(
    rt: &R,
    paths: &TrustedPaths,
    file: &[u8],
    out: &mut W,
    notes: &mut N,
) -> Result<Status, Fault>
    ensures ok { IfOk result (λ status. (text : _)
        × ShowsTrustedSigners (R.holdings rt.now) paths.now file.now text status
        × Appends (W.contents out.old) (W.contents out.new) text) }
    ensures nothing { IfErr result (λ fault. fault ≢ Fault.Run RunFault.Write → out.new ≡ out.old) }
    ensures noted { IfOk result (λ status. NotesBundle (R.holdings rt.now) paths.now file.now status
        (N.contents notes.old) (N.contents notes.new)) }
    ensures unnoted { OnErr result (notes.new ≡ notes.old) }
{
    let alloc = rt.alloc();
    let keys = read_keys(rt, paths.keys.as_str())?;
    let root = read_trusted_root(rt, paths.root.as_str())?;
    let counted = CountedLines::of_one(alloc, &root, file);
    let JudgedLines { vouched, silent } = judged_or_fault(counted)?;
    let checks = checks_with(alloc, vouched);
    let status = run_signers(alloc, file, &keys, &checks, out)?;
    note_silent(alloc, status, silent.as_slice(), notes);
    Ok(status)
}

/// The checks by public keys, of any number of signatures, and by what is vouched for.
fn checks_with(alloc: Global, vouched: VouchedLines) -> CommandChecks
    ensures { command_checks result.own.rings.items result.own.public_keys result.vouched
        ≡ command_checks [] true (Some vouched) }
{
    let own = OwnChecks::new(alloc, Vec::new(alloc), true, u64::MAX);
    CommandChecks::new(own, Some(vouched))
}

/// Writes why a bundle vouches for nobody, where no id signed, as far as memory suffices and it can
/// be written.
#[tactic(auto, using(crate::proofs::Noting::nothing_more))]
fn note_silent<N: Write>(alloc: Global, status: Status, silent: &[SilentLine], notes: &mut N)
    ensures { AppendsBeginning (N.contents notes.old) (N.contents notes.new)
        (bundle_notes status silent.now) }
{
    match status {
        Status::Refused => write_notes(alloc, silent, notes),
        Status::Good => {}
    }
}

/// Writes why a bundle vouches for nobody, as far as memory suffices and it can be written.
#[tactic(auto, using(crate::proofs::Noting::nothing_more))]
fn write_notes<N: Write>(alloc: Global, silent: &[SilentLine], notes: &mut N)
    ensures { AppendsBeginning (N.contents notes.old) (N.contents notes.new)
        (flat_map bundle_note silent.now) }
{
    if let Ok(text) = notes_on(alloc, silent) {
        let _ = write_all_of(notes, text.as_slice());
    }
}

fn notes_on(alloc: Global, silent: &[SilentLine]) -> Result<Vec<u8>, AllocError>
    ensures { IfOk result (λ text. text.items ≡ flat_map bundle_note silent.now) }
{
    let mut text = Vec::new(alloc);
    for bundle in silent {
        push_note(&mut text, bundle)?;
    }
    Ok(text)
}

fn push_note(text: &mut Vec<u8>, bundle: &SilentLine) -> Result<(), AllocError>
    ensures { OnOk result (text.new.items ≡ text.old.items ++ bundle_note bundle.now) }
{
    text.extend_from_slice(b"envelope: a bundle that vouches for nobody: ")?;
    bundle.shortfall.push_phrase(text)?;
    text.push(b'\n')?;
    Ok(())
}
