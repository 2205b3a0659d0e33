//! Checkpoints, and what keeps a text from being one.
ghost use Rattle.std.specs.Prelude.{◌↔◌, ◌≡◌, ◌+◌, ◌≤◌, IfOk, IsTrue, MatchOption, OnErr, OnOk};
ghost use Rattle.std.specs.Prelude.{decimal, length, take};
ghost use Rattle.sha2.specs.Sha256.{sha256};
ghost use Rattle.it_base.specs.Base64Text.{base64_encoded};
ghost use Rattle.it_p256.specs.Key.{info_of};
ghost use Rattle.it_log_entry.specs.Checkpoint.{HasHint, IsCheckpoint, IsNoteSignature};
ghost use Rattle.it_log_entry.specs.Checkpoint.{IsSignedCheckpoint};
ghost use Rattle.it_log_entry.specs.CheckpointMisses.{AreTreeLines};
ghost use Rattle.it_log_entry.specs.inside.Lines.{IsSignedBy, texts_of};
ghost use Rattle.it_log_entry.specs.inside.NoCheckpoint.{IsNoCheckpoint};

use crate::inclusion_proof::InclusionProof;
use crate::note::{cut_at_empty, ended_lines, note_lines};
use crate::note_shortfall::NoteShortfall;
use crate::number::is_size_line;
use crate::signature_line::signatures_in;
use crate::stamp::decimal_text;
use it_base::base64_text::base64_text_of;
use it_base::sequence::Sequence;
use it_budget::Budget;
use it_log::{Log, LogKey};
use it_p256::is_signature;
use sha2::{Digest, Sha256};
use std::alloc::{AllocError, Global};

/// What keeps the note beside an inclusion proof from being a checkpoint of the proof's tree and
/// root of which one signature is the log's; `None` where it is one.
pub(crate) fn checkpoint_shortfall(
    alloc: Global,
    budget: &mut Budget,
    log: &Log,
    proof: &InclusionProof,
) -> Result<Option<NoteShortfall>, AllocError>
    ensures answer { IfOk result (λ missed. MatchOption missed
        (IsSignedCheckpoint log.now.key proof.now.checkpoint proof.now.size proof.now.root)
        (IsNoCheckpoint log.now.key proof.now.checkpoint proof.now.size proof.now.root)) }
    ensures most { budget.new.most ≡ budget.old.most }
    ensures grows { budget.old.checked ≤ budget.new.checked }
{
    let size = proof.size;
    let note = proof.checkpoint.as_str();
    let Some(all) = note_lines(alloc, note.as_bytes())? else {
        return Ok(Some(NoteShortfall::Form));
    };
    let Some((lines, below)) = cut_at_empty(all.as_slice()) else {
        return Ok(Some(NoteShortfall::Form));
    };
    let Some(signatures) = signatures_in(alloc, below)? else {
        return Ok(Some(NoteShortfall::Form));
    };
    if !are_tree_lines(alloc, lines)? {
        return Ok(Some(NoteShortfall::Form));
    }
    if !is_checkpoint(alloc, lines, size, &proof.root)? {
        return Ok(Some(NoteShortfall::Root));
    }
    if !is_signed_by(alloc, budget, log, lines, signatures.as_slice())? {
        return Ok(Some(NoteShortfall::Signature));
    }
    Ok(None)
}

/// Whether lines are those of a checkpoint of any tree.
fn are_tree_lines(alloc: Global, lines: &[&[u8]]) -> Result<bool, AllocError>
    ensures { IfOk result (λ are. IsTrue are ↔ AreTreeLines (texts_of lines.now)) }
{
    if lines.len() < 3 {
        return Ok(false);
    }
    is_size_line(alloc, lines[1])
}

/// Whether lines are those of a checkpoint of this tree.
fn is_checkpoint(
    alloc: Global,
    lines: &[&[u8]],
    size: u64,
    root: &[u8; 32],
) -> Result<bool, AllocError>
    ensures { IfOk result (λ is. IsTrue is ↔ IsCheckpoint (texts_of lines.now) size root.now) }
{
    if lines.len() < 3 {
        return Ok(false);
    }
    if !is_of_size(alloc, lines[1], size)? {
        return Ok(false);
    }
    is_of_root(alloc, lines[2], root)
}

fn is_of_size(alloc: Global, line: &[u8], size: u64) -> Result<bool, AllocError>
    ensures { IfOk result (λ is. IsTrue is ↔ (line.now ≡ decimal size)) }
{
    let text = decimal_text(alloc, size)?;
    Ok(line == text.as_bytes())
}

fn is_of_root(alloc: Global, line: &[u8], root: &[u8; 32]) -> Result<bool, AllocError>
    ensures { IfOk result (λ is. IsTrue is ↔ (line.now ≡ base64_encoded root.now)) }
{
    let text = base64_text_of(alloc, root.as_slice())?;
    Ok(line == text.as_bytes())
}

/// Whether one of the signatures of a note is the log's.
fn is_signed_by(
    alloc: Global,
    budget: &mut Budget,
    log: &Log,
    lines: &[&[u8]],
    signatures: &[Sequence<u8>],
) -> Result<bool, AllocError>
    ensures answer { IfOk result (λ is. IsTrue is
        ↔ IsSignedBy log.now.key (texts_of lines.now) signatures.now) }
    ensures most { budget.new.most ≡ budget.old.most }
    ensures grows { budget.old.checked ≤ budget.new.checked }
{
    let text = ended_lines(alloc, lines)?;
    for signature in signatures {
        if is_note_signature(budget, log, text.as_slice(), signature.as_slice())? {
            return Ok(true);
        }
    }
    Ok(false)
}

/// Whether a signature of a note is the log's, which takes one check. Without the hint about its
/// key it is not, and is not checked.
fn is_note_signature(
    budget: &mut Budget,
    log: &Log,
    text: &[u8],
    signature: &[u8],
) -> Result<bool, AllocError>
    ensures answer { IfOk result (λ is. IsTrue is
        ↔ IsNoteSignature log.now.key text.now signature.now) }
    ensures most { budget.new.most ≡ budget.old.most }
    ensures grows { budget.old.checked ≤ budget.new.checked }
    ensures checked { HasHint log.now.key signature.now
        → OnOk result (budget.new.checked ≡ budget.old.checked + 1) }
    ensures kept { OnErr result (budget.new.checked ≡ budget.old.checked) }
    ensures without { ¬ HasHint log.now.key signature.now
        → budget.new.checked ≡ budget.old.checked }
{
    let key = &log.key;
    if !has_hint(key, signature) {
        return Ok(false);
    }
    budget.take()?;
    Ok(is_signature(key.key(), &[text], &signature[4..]))
}

/// Whether a signature of a note has at least 4 bytes, and they are the hint about the key.
fn has_hint(key: &LogKey, signature: &[u8]) -> bool
    ensures hint { IsTrue result ↔ HasHint key.now signature.now }
    ensures long { IsTrue result → 4 ≤ length signature.now }
{
    let digest = Sha256::digest(key.info());
    match signature.split_first_chunk::<4>() {
        None => false,
        Some((hint, _)) => begins(&digest, hint),
    }
}

/// Whether a digest begins with these bytes.
fn begins(digest: &[u8; 32], hint: &[u8; 4]) -> bool
    ensures { IsTrue result ↔ (hint.now ≡ take 4 digest.now) }
{
    hint.as_slice() == &digest[..4]
}
