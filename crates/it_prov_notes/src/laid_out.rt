//! Provenance that is one envelope, laid out over several lines.
ghost use Rattle.std.specs.Prelude.{◌↔◌, IfOk, IsTrue};
ghost use Rattle.it_prov.specs.ProvenanceLines.{AreLinesOf};
ghost use Rattle.it_prov_notes.specs.LaidOut.{IsLaidOut};

use it_chain::envelope_in;
use it_prov::provenance_lines::ProvenanceLines;
use std::alloc::{AllocError, Global};

/// Whether the provenance as a whole is one envelope that is laid out over several lines: the bytes
/// are an envelope, and none of their lines is one.
///
/// `provenance` is what is searched for an envelope on each line, and `lines` are those lines of it
/// that are envelopes. The answer is no for a line that is an envelope, even with empty lines
/// around it, and for several of them.
///
/// # Errors
///
/// `AllocError` where memory was refused.
pub fn is_laid_out(
    alloc: Global,
    provenance: &[u8],
    lines: &ProvenanceLines,
) -> Result<bool, AllocError>
    requires { AreLinesOf provenance.now lines.now }
    ensures { IfOk result (λ is. IsTrue is ↔ IsLaidOut provenance.now) }
{
    if !lines.envelopes.is_empty() {
        return Ok(false);
    }
    Ok(envelope_in(alloc, provenance)?.is_some())
}
