//! The envelope of a file.
ghost use Rattle.std.specs.Prelude.{IfOk};
ghost use Rattle.it_base.specs.Finds.{Finds};
ghost use Rattle.it_signers.specs.FileEnvelope.{HasEnvelope};

use it_borrowed::parts::from_bytes;
use it_bundle::{SigstoreBundle, read_bundle};
use it_dsse::envelope::Envelope;
use std::alloc::{AllocError, Global};

/// The envelope that the bytes are, or that they hold as a bundle; `None` where they are neither.
pub(crate) fn envelope_in(alloc: Global, bytes: &[u8]) -> Result<Option<Envelope>, AllocError>
    ensures { IfOk result (Finds (HasEnvelope bytes.now)) }
{
    if let Some(envelope) = from_bytes::<Envelope>(alloc, bytes)? {
        return Ok(Some(envelope));
    }
    match read_bundle(alloc, bytes)? {
        Some(SigstoreBundle { envelope, .. }) => Ok(Some(envelope)),
        None => Ok(None),
    }
}
