//! The signatures of different keys that share a nonce.
ghost use Rattle.std.specs.Prelude.{[], IfOk};
ghost use Rattle.it_sublayouts.specs.Counted.{AreCounted};
ghost use Rattle.it_strict.specs.Nonces.{AreSharedIn};
ghost use Rattle.it_verify.specs.Documents.{setting_of};

use it_dsse::checks::Checks;
use it_nonce_uses::uses_in_delivery;
use it_nonces::{SharedNonce, shared_nonces};
use it_sublayouts::CountedSublayout;
use it_verify::documents::Documents;
use it_verify::inputs::Inputs;
use std::alloc::{AllocError, Global};

/// Those of the signatures that count whose number r is that of an earlier one by a different key,
/// where these are the sublayouts that count. The `checks` check the signatures.
///
/// # Errors
///
/// `AllocError` where memory was refused, or where the checks refuse to check more signatures.
pub(crate) fn nonces_shared<C: Checks>(
    alloc: Global,
    inputs: &Inputs,
    documents: &Documents,
    sublayouts: &[CountedSublayout],
    checks: &C,
) -> Result<Vec<SharedNonce>, AllocError>
    requires { AreCounted (setting_of (C.panel checks.now) documents.now) inputs.now.depth []
        documents.now.layout inputs.now.links sublayouts.now }
    ensures { IfOk result (λ found.
        AreSharedIn (C.panel checks.now) inputs.now documents.now found.items) }
{
    let links = &inputs.links;
    let uses = uses_in_delivery(alloc, documents, links, sublayouts, checks)?;
    shared_nonces(alloc, uses.as_slice())
}
