//! The provenance of a verification.
ghost use Rattle.std.specs.Prelude.{◌≡◌, IfOk};
ghost use Rattle.it_program.specs.Inputs.{AreEnvelopes, AreLookedAt, AreVouchedBy, IsProvenance};
ghost use Rattle.it_program.specs.inside.PassedOver.{NotesAuthorities, NotesRoot, NotesWhole};
ghost use Rattle.it_program.specs.inside.SilentNotes.{AreSilentBy, AreSilentIn};

use it_base::sequence::Sequence;
use it_base::text::Text;
use it_budget::Budget;
use it_disk::{Disk, Fault, LeftOut, bytes_if_given, read_trusted_root};
use it_file_commands::judged_or_fault;
use it_limits::lines_within_limit;
use it_root_notes::{notes_on_authorities, notes_on_logs};
use it_trust_root::TrustedRoot;
use it_unwrapped::unwrapped_lines;
use it_vouched::{CountedLines, JudgedLines, SilentLine, VouchedLines};
use it_vouches::MOST_CHECKS;
use it_words::words::verify_words::VerifyWords;
use std::alloc::{AllocError, Global};

/// The provenance as it is looked at, and what it vouches for.
#[derive(Drop)]
pub(crate) struct Provenance {
    /// The lines that are looked at. With a trusted root each bundle is replaced by its envelope.
    pub(crate) lines: Sequence<u8>,
    /// What the lines that were read vouch for, where a trusted root is given.
    pub(crate) vouched: Option<VouchedLines>,
    /// The lines that are bundles and vouch for nobody.
    pub(crate) silent: Sequence<SilentLine>,
    /// What is noted of the trusted root, where one is given.
    pub(crate) passed_over: Vec<u8>,
}

/// The provenance that the words name, or none where they name no file. With public keys its lines
/// that have too many signatures are added to what is left out.
pub(crate) fn read_provenance<R: Disk + AllocGlobal>(
    rt: &R,
    words: &VerifyWords,
    left_out: &mut Vec<LeftOut>,
) -> Result<Provenance, Fault>
    ensures provenance { IfOk result (λ provenance. IsProvenance (R.holdings rt.now) words.now
        provenance.lines provenance.vouched) }
    ensures silent { IfOk result
        (λ provenance. AreSilentIn (R.holdings rt.now) words.now provenance.silent) }
    ensures passed_over { IfOk result (λ provenance. NotesRoot (R.holdings rt.now)
        words.now.trusted_root provenance.silent provenance.passed_over.items) }
{
    let read = bytes_if_given(rt, &words.provenance)?;
    let Judged {
        vouched,
        silent,
        passed_over,
    } = judge(rt, &words.trusted_root, read.as_slice())?;
    let envelopes = envelopes(rt.alloc(), &words.trusted_root, read)?;
    let lines = looked_at(rt.alloc(), words.public_keys, envelopes, left_out)?;
    Ok(Provenance {
        lines,
        vouched,
        silent,
        passed_over,
    })
}

/// What is judged of the lines, where a trusted root is given.
#[derive(Drop)]
struct Judged {
    vouched: Option<VouchedLines>,
    silent: Sequence<SilentLine>,
    passed_over: Vec<u8>,
}

/// Judges the lines by the trusted root at the path, where one is given.
fn judge<R: Disk + AllocGlobal>(rt: &R, path: &Option<Text>, read: &[u8]) -> Result<Judged, Fault>
    ensures vouched { IfOk result
        (λ judged. AreVouchedBy (R.holdings rt.now) path.now read.now judged.vouched) }
    ensures silent { IfOk result
        (λ judged. AreSilentBy (R.holdings rt.now) path.now read.now judged.silent) }
    ensures passed_over { IfOk result (λ judged. NotesRoot (R.holdings rt.now) path.now
        judged.silent judged.passed_over.items) }
{
    let Some(path) = path else {
        return Ok(Judged {
            vouched: None,
            silent: Sequence::from(Vec::new(rt.alloc())),
            passed_over: Vec::new(rt.alloc()),
        });
    };
    let root = read_trusted_root(rt, path.as_str())?;
    let counted = CountedLines::of(rt.alloc(), &root, read);
    let JudgedLines { vouched, silent } = judged_or_fault(counted)?;
    let passed_over = notes_on_root(rt.alloc(), &root, silent.as_slice())?;
    Ok(Judged {
        vouched: Some(vouched),
        silent,
        passed_over,
    })
}

/// What is noted of a trusted root, by the lines that are bundles and vouch for nobody.
fn notes_on_root(
    alloc: Global,
    root: &TrustedRoot,
    silent: &[SilentLine],
) -> Result<Vec<u8>, AllocError>
    ensures { IfOk result (λ text. NotesWhole root.now silent.now text.items) }
{
    let mut text = notes_on_logs(alloc, root)?;
    let mut authorities = authorities_noted(alloc, root, silent)?;
    text.append(&mut authorities)?;
    Ok(text)
}

/// What is noted of the authorities, whose signatures are checked again for it, with a budget of
/// their own: nothing where no line is a bundle that vouches for nobody.
fn authorities_noted(
    alloc: Global,
    root: &TrustedRoot,
    silent: &[SilentLine],
) -> Result<Vec<u8>, AllocError>
    ensures { IfOk result (λ text. NotesAuthorities root.now silent.now text.items) }
{
    match silent {
        [] => Ok(Vec::new(alloc)),
        [..] => {
            let mut budget = Budget::new(MOST_CHECKS);
            notes_on_authorities(alloc, &mut budget, root)
        }
    }
}

/// The lines as envelopes: where a trusted root is given, that of each bundle in its place.
fn envelopes(
    alloc: Global,
    trusted_root: &Option<Text>,
    read: Sequence<u8>,
) -> Result<Sequence<u8>, AllocError>
    ensures { IfOk result (AreEnvelopes trusted_root.now read) }
{
    match trusted_root {
        None => Ok(read),
        Some(_) => unwrapped_lines(alloc, read.as_slice()),
    }
}

/// The lines that are looked at. Where signatures are limited, those that have too many are added
/// to what is left out.
fn looked_at(
    alloc: Global,
    limited: bool,
    envelopes: Sequence<u8>,
    left_out: &mut Vec<LeftOut>,
) -> Result<Sequence<u8>, AllocError>
    ensures { IfOk result (AreLookedAt limited envelopes) }
{
    if !limited {
        return Ok(envelopes);
    }
    let within = lines_within_limit(alloc, envelopes.as_slice())?;
    for over in within.left_out.as_slice() {
        left_out.push(LeftOut::Line(*over))?;
    }
    Ok(within.lines)
}
