//! `itv link --name NAME [--materials SUMS] [--products SUMS]`.
ghost use Rattle.std.specs.Prelude.{◌≡◌, ◌≢◌, IfErr, IfOk};
ghost use Rattle.std.specs.Io.KnownBytes.{Appends};
ghost use Rattle.it_file_commands.specs.Commands.{MakesLink};

use it_disk::{Disk, Fault, bytes_if_given};
use it_making::run_link;
use it_outcome::{RunFault, Status};
use it_words::words::link_words::LinkWords;
use std::io::Write;

/// Reads the digest lists that are given, and writes the body of the link.
///
/// # Errors
///
/// The fault of a list that cannot be read, or has a bad line, and `Fault::Run` where the output
/// could not be written, or memory was refused.
pub fn run<R: Disk + AllocGlobal, W: Write>(
    rt: &R,
    words: &LinkWords,
    out: &mut W,
) -> Result<Status, Fault>
    ensures ok { IfOk result (λ status. (text : _)
        × MakesLink (R.holdings rt.now) words.now text status
        × Appends (W.contents out.old) (W.contents out.new) text) }
    ensures nothing { IfErr result (λ fault. fault ≢ Fault.Run RunFault.Write → out.new ≡ out.old) }
{
    let alloc = rt.alloc();
    let materials = bytes_if_given(rt, &words.materials)?;
    let products = bytes_if_given(rt, &words.products)?;
    let name = words.name.as_str();
    match run_link(alloc, name, materials.as_slice(), products.as_slice(), out) {
        Err(RunFault::BadMaterials(line)) => Err(Fault::bad_line(alloc, &words.materials, line)?),
        Err(RunFault::BadProducts(line)) => Err(Fault::bad_line(alloc, &words.products, line)?),
        outcome => Ok(outcome?),
    }
}
