//! What a verification is given.
ghost use Rattle.std.specs.Prelude.{◌≡◌, ◌⊎◌, IfOk, IsTrue, OnOk};
ghost use Rattle.std.specs.List.{AllZip};
ghost use Rattle.it_command_checks.specs.CommandChecks.{command_checks};
ghost use Rattle.it_disk.specs.Faults.{IsUnreadable};
ghost use Rattle.it_disk.specs.Reading.{AreLimited, HoldsIfGiven, HoldsRing};
ghost use Rattle.it_limits.specs.Limit.{IsWithinLimit};
ghost use Rattle.it_program.specs.Commands.{AreGiven};
ghost use Rattle.it_program.specs.Inputs.{AreInputs};
ghost use Rattle.it_program.specs.inside.PassedOver.{NotesRoot};
ghost use Rattle.it_program.specs.inside.SilentNotes.{AreSilentIn};

use crate::provenance::read_provenance;
use it_base::sequence::Sequence;
use it_base::text::Text;
use it_chain::bundle::Bundle;
use it_command_checks::command_checks::CommandChecks;
use it_disk::{Disk, Fault, LeftOut, TooMany, bytes, bytes_if_given, read_ring, too_many};
use it_dsse::ring::HmacRing;
use it_outcome::RunFault;
use it_public_keys::own_checks::OwnChecks;
use it_verify::inputs::Inputs;
use it_vouched::{SilentLine, VouchedLines};
use it_words::words::verify_words::VerifyWords;
use std::alloc::Global;

/// What a verification is given, and what of it is left out.
#[derive(Drop)]
pub(crate) struct Given {
    /// What is verified.
    pub(crate) inputs: Inputs,
    /// What it is verified by.
    pub(crate) checks: CommandChecks,
    /// The links and lines that are left out for their number of signatures.
    pub(crate) left_out: Vec<LeftOut>,
    /// The lines of the provenance that are bundles and vouch for nobody.
    pub(crate) silent: Sequence<SilentLine>,
    /// What is noted of the trusted root, where one is given.
    pub(crate) passed_over: Vec<u8>,
}

/// What is at the paths of the words. An input without a path is empty. With public keys, links and
/// lines of the provenance that have too many signatures are left out.
pub(crate) fn read_given<R: Disk + AllocGlobal>(rt: &R, words: &VerifyWords) -> Result<Given, Fault>
    ensures given { IfOk result (λ given. AreGiven (R.holdings rt.now) words.now given.inputs
        given.checks.vouched (command_checks given.checks.own.rings.items
        given.checks.own.public_keys given.checks.vouched)) }
    ensures silent { IfOk result
        (λ given. AreSilentIn (R.holdings rt.now) words.now given.silent) }
    ensures passed_over { IfOk result (λ given. NotesRoot (R.holdings rt.now)
        words.now.trusted_root given.silent given.passed_over.items) }
{
    let Read {
        inputs,
        vouched,
        left_out,
        silent,
        passed_over,
    } = read_inputs(rt, words)?;
    let rings = read_rings(rt, words.rings.as_slice())?;
    let own = OwnChecks::new(rt.alloc(), rings, words.public_keys, words.most_checks);
    Ok(Given {
        inputs,
        checks: CommandChecks::new(own, vouched),
        left_out,
        silent,
        passed_over,
    })
}

/// The inputs, what the provenance vouches for, and what is left out.
#[derive(Drop)]
struct Read {
    inputs: Inputs,
    vouched: Option<VouchedLines>,
    left_out: Vec<LeftOut>,
    silent: Sequence<SilentLine>,
    passed_over: Vec<u8>,
}

/// Reads the inputs in their order.
fn read_inputs<R: Disk + AllocGlobal>(rt: &R, words: &VerifyWords) -> Result<Read, Fault>
    ensures inputs { IfOk result
        (λ read. AreInputs (R.holdings rt.now) words.now read.inputs read.vouched) }
    ensures silent { IfOk result (λ read. AreSilentIn (R.holdings rt.now) words.now read.silent) }
    ensures passed_over { IfOk result (λ read. NotesRoot (R.holdings rt.now)
        words.now.trusted_root read.silent read.passed_over.items) }
{
    let mut left_out = Vec::new(rt.alloc());
    let moment = String::from_str(rt.alloc(), words.at.as_str())?;
    let policy = bytes(rt, &words.policy)?;
    let layout = layout(rt, words)?;
    let links = links(rt, words, &mut left_out)?;
    let records = records(rt, &words.records)?;
    let provenance = read_provenance(rt, words, &mut left_out)?;
    let inputs = Inputs {
        policy,
        layout,
        links,
        records,
        provenance: provenance.lines,
        sums: bytes_if_given(rt, &words.sums)?,
        sums512: bytes_if_given(rt, &words.sums512)?,
        moment: Text::from(moment),
        depth: words.depth,
    };
    Ok(Read {
        inputs,
        vouched: provenance.vouched,
        left_out,
        silent: provenance.silent,
        passed_over: provenance.passed_over,
    })
}

/// The rings at the paths, in their order.
fn read_rings<R: Disk + AllocGlobal>(rt: &R, paths: &[Text]) -> Result<Vec<HmacRing>, Fault>
    ensures { IfOk result (λ rings. AllZip (HoldsRing (R.holdings rt.now)) paths.now rings.items) }
{
    let mut rings = Vec::new(rt.alloc());
    for path in paths {
        rings.push(read_ring(rt, path.as_str())?)?;
    }
    Ok(rings)
}

/// The layout, which with public keys may not have too many signatures.
fn layout<R: Disk + AllocGlobal>(rt: &R, words: &VerifyWords) -> Result<Sequence<u8>, Fault>
    ensures holds { IfOk result (λ layout. (R.holdings rt.now).file words.now.layout layout) }
    ensures limited { IfOk result
        (λ layout. IsTrue words.now.public_keys → IsWithinLimit layout) }
{
    let layout = bytes(rt, &words.layout)?;
    let path = words.layout.as_str();
    refuse_too_many(rt.alloc(), path, layout.as_slice(), words.public_keys)?;
    Ok(layout)
}

/// Refuses the bytes of the file at a path where signatures are limited and it has too many.
fn refuse_too_many(alloc: Global, path: &str, bytes: &[u8], limited: bool) -> Result<(), Fault>
    ensures { OnOk result (IsTrue limited → IsWithinLimit bytes.now) }
{
    match too_many(alloc, bytes, limited)? {
        Some(count) => Err(too_many_in(alloc, path, count)),
        None => Ok(()),
    }
}

/// The fault of the file at a path, which has this many signatures.
fn too_many_in(alloc: Global, path: &str, count: usize) -> Fault
    ensures { IsUnreadable path.now result ⊎ (result ≡ Fault.Run RunFault.OutOfMemory) }
{
    match TooMany(count).in_file(alloc, path) {
        Ok(fault) => fault,
        Err(error) => Fault::from(error),
    }
}

/// The links. With public keys those that have too many signatures are added to what is left out.
fn links<R: Disk + AllocGlobal>(
    rt: &R,
    words: &VerifyWords,
    left_out: &mut Vec<LeftOut>,
) -> Result<Bundle, Fault>
    ensures holds { IfOk result (λ links. (R.holdings rt.now).links words.now.links words.now.depth
        words.now.public_keys links) }
    ensures limited { IfOk result (λ links. AreLimited words.now.public_keys links) }
{
    let mut links = rt.links(words.links.as_str(), words.depth, words.public_keys)?;
    left_out.append(&mut links.left_out)?;
    Ok(links.bundle)
}

/// The records in a folder, or none where no folder is given.
fn records<R: Disk + AllocGlobal>(
    rt: &R,
    folder: &Option<Text>,
) -> Result<Sequence<(Text, Sequence<u8>)>, Fault>
    ensures { IfOk result
        (λ records. HoldsIfGiven (R.holdings rt.now).records folder.now records) }
{
    match folder {
        Some(folder) => rt.records(folder.as_str()),
        None => Ok(Sequence::from(Vec::new(rt.alloc()))),
    }
}
