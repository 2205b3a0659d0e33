//! The signatures that count for a delivery.
ghost use Rattle.std.specs.Prelude.{IfOk};
ghost use Rattle.it_nonce_uses.specs.DeliveryUses.{DeliveryUses};

use crate::layout_uses::{LayoutAt, layout_uses};
use crate::owner_uses::owner_uses;
use crate::sublayout_uses::sublayout_uses;
use it_chain::bundle::Bundle;
use it_dsse::checks::Checks;
use it_nonces::NonceUse;
use it_sublayouts::CountedSublayout;
use it_verify::documents::Documents;
use std::alloc::{AllocError, Global};

/// The signatures by ECDSA over P-256 that count for a delivery: those of the owners on the layout,
/// in the order of their ids; those of the functionaries of the layout's steps, in the order of the
/// steps, of the key ids and of the files; and those of each sublayout alike. The `checks` check
/// the signatures.
///
/// # Errors
///
/// `AllocError` where memory was refused, or where the checks refuse to check more signatures.
pub fn uses_in_delivery<C: Checks>(
    alloc: Global,
    documents: &Documents,
    links: &Bundle,
    sublayouts: &[CountedSublayout],
    checks: &C,
) -> Result<Vec<NonceUse>, AllocError>
    ensures { IfOk result (λ uses. DeliveryUses (C.panel checks.now) documents.now links.now
        sublayouts.now uses.items) }
{
    let outermost = LayoutAt {
        at: &[],
        layout: &documents.layout,
        links,
    };
    let owners = &documents.policy.owners;
    let mut uses = owner_uses(alloc, &documents.envelope, owners, checks)?;
    let mut of_layout = layout_uses(alloc, &outermost, checks)?;
    let mut of_sublayouts = sublayout_uses(alloc, links, sublayouts, checks)?;
    uses.append(&mut of_layout)?;
    uses.append(&mut of_sublayouts)?;
    Ok(uses)
}
