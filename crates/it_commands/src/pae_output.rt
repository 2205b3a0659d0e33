//! `itv pae`: what is signed for a body.
ghost use Rattle.std.specs.Prelude.{◌≡◌, IfErr, IfOk, IsErrOf};
ghost use Rattle.std.specs.Io.KnownBytes.{Appends};
ghost use Rattle.it_base.specs.Writing.{AppendsBeginning};
ghost use Rattle.it_dsse.specs.Pae.{pae_of};
ghost use Rattle.it_outcome.specs.Outcome.{IsOutputFault};

use it_dsse::pae;
use it_outcome::output::{Output, put};
use it_outcome::{RunFault, Status};
use std::alloc::Global;
use std::io::Write;

/// Writes the pre-authentication encoding of a body of the type `kind` (DSSE v1.0, "Protocol"),
/// with no line feed after it.
///
/// # Errors
///
/// `Write` where the output could not be written; a beginning of it went out. `OutOfMemory` where
/// memory was refused; nothing went out.
pub fn run_pae<W: Write>(
    alloc: Global,
    kind: &str,
    body: &[u8],
    out: &mut W,
) -> Result<Status, RunFault>
    ensures ok { IfOk result (λ status. (status ≡ Status.Good)
        × Appends (W.contents out.old) (W.contents out.new) (pae_of kind.now body.now)) }
    ensures write { IsErrOf result RunFault.Write
        → AppendsBeginning (W.contents out.old) (W.contents out.new) (pae_of kind.now body.now) }
    ensures memory { IsErrOf result RunFault.OutOfMemory → out.new ≡ out.old }
    ensures faults { IfErr result IsOutputFault }
{
    let text = pae(alloc, kind, body)?;
    let status = Status::Good;
    put(out, &Output { text, status })
}
