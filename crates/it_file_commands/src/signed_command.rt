//! `itv signed ENVELOPE (--ring F | --keys F) [--trusted-root F]`.
ghost use Rattle.std.specs.Prelude.{◌≡◌, ◌≢◌, [], ◌∷◌, IfErr, IfOk, OnErr, map};
ghost use Rattle.std.specs.Prelude.{string_bytes};
ghost use Rattle.std.specs.Io.KnownBytes.{Appends};
ghost use Rattle.it_dsse.specs.Panel.{panel_of};
ghost use Rattle.it_dsse.specs.Ring.{ring_check};
ghost use Rattle.it_commands.specs.SignedOutput.{IsSignedOutput};
ghost use Rattle.it_file_commands.specs.BundleNotes.{NotesSigners};
ghost use Rattle.it_file_commands.specs.Commands.{ShowsKeySigners, ShowsRingSigners, ShowsSigners};

use crate::signed_trusted;
use it_commands::run_signed_by;
use it_disk::{Disk, Fault, read_keys, read_ring};
use it_dsse::ring::HmacRing;
use it_key_commands::run_signed_by_keys;
use it_outcome::{RunFault, Status};
use it_public_keys::own_checks::{MOST_CHECKS, OwnChecks};
use it_words::words::signed_words::{SignedBy, SignedWords};
use std::alloc::Global;
use std::io::Write;

/// Reads the envelope and the ring or the public keys, and writes the ids that signed the envelope.
/// With a trusted root the file may be a bundle; why it vouches for nobody goes to `notes`, where
/// no id signed its envelope.
///
/// # Errors
///
/// The fault of a file that cannot be read, or is not what its option asks for,
/// `Fault::TooManyChecks` with a trusted root, and `Fault::Run` where the output could not be
/// written, or memory was refused.
pub fn run<R: Disk + AllocGlobal, W: Write, N: Write>(
    rt: &R,
    words: &SignedWords,
    out: &mut W,
    notes: &mut N,
) -> Result<Status, Fault>
    ensures ok { IfOk result (λ status. (text : _)
        × ShowsSigners (R.holdings rt.now) words.now text status
        × Appends (W.contents out.old) (W.contents out.new) text) }
    ensures nothing { IfErr result (λ fault. fault ≢ Fault.Run RunFault.Write → out.new ≡ out.old) }
    ensures noted { IfOk result (λ status. NotesSigners (R.holdings rt.now) words.now status
        (N.contents notes.old) (N.contents notes.new)) }
    ensures unnoted { OnErr result (notes.new ≡ notes.old) }
{
    let envelope = rt.file(words.envelope.as_str())?;
    let envelope = envelope.as_slice();
    match &words.by {
        SignedBy::Ring(path) => show_by_ring(rt, path.as_str(), envelope, out),
        SignedBy::Keys(path) => show_by_keys(rt, path.as_str(), envelope, out),
        SignedBy::Trusted(paths) => signed_trusted::run(rt, paths, envelope, out, notes),
    }
}

/// Reads the ring, and writes its ids that signed the envelope.
fn show_by_ring<R: Disk + AllocGlobal, W: Write>(
    rt: &R,
    path: &str,
    envelope: &[u8],
    out: &mut W,
) -> Result<Status, Fault>
    ensures ok { IfOk result (λ status. (text : _)
        × ShowsRingSigners (R.holdings rt.now) path.now envelope.now text status
        × Appends (W.contents out.old) (W.contents out.new) text) }
    ensures nothing { IfErr result (λ fault. fault ≢ Fault.Run RunFault.Write → out.new ≡ out.old) }
{
    let alloc = rt.alloc();
    let ring = read_ring(rt, path)?;
    let ids = ring.ids(alloc)?;
    Ok(show_by(alloc, envelope, ids.as_slice(), ring, out)?)
}

/// Writes those of the ids that signed the envelope, with signatures checked by the ring.
fn show_by<W: Write>(
    alloc: Global,
    envelope: &[u8],
    ids: &[String],
    ring: HmacRing,
    out: &mut W,
) -> Result<Status, Fault>
    ensures ok { IfOk result (λ status. (text : _)
        × IsSignedOutput (panel_of (ring_check ring ∷ [])) (map string_bytes ids.now)
        envelope.now text status
        × Appends (W.contents out.old) (W.contents out.new) text) }
    ensures nothing { IfErr result (λ fault. fault ≢ Fault.Run RunFault.Write → out.new ≡ out.old) }
{
    let checks = OwnChecks::new(alloc, vec![in alloc; ring]?, false, MOST_CHECKS);
    Ok(run_signed_by(alloc, envelope, ids, &checks, out)?)
}

/// Reads the public keys, and writes the ids of those that signed the envelope.
fn show_by_keys<R: Disk + AllocGlobal, W: Write>(
    rt: &R,
    path: &str,
    envelope: &[u8],
    out: &mut W,
) -> Result<Status, Fault>
    ensures ok { IfOk result (λ status. (text : _)
        × ShowsKeySigners (R.holdings rt.now) path.now envelope.now text status
        × Appends (W.contents out.old) (W.contents out.new) text) }
    ensures nothing { IfErr result (λ fault. fault ≢ Fault.Run RunFault.Write → out.new ≡ out.old) }
{
    let keys = read_keys(rt, path)?;
    Ok(run_signed_by_keys(rt.alloc(), envelope, &keys, out)?)
}
