//! The signatures of functionaries on what is claimed for the steps of sublayouts.
ghost use Rattle.std.specs.Prelude.{◌≡◌, IfOk};
ghost use Rattle.it_chain.specs.Contents.{empty};
ghost use Rattle.it_findings.specs.Joined.{JoinedEach};
ghost use Rattle.it_nonce_uses.specs.LayoutUses.{SublayoutUses, folder_below};

use crate::layout_uses::{LayoutAt, layout_uses};
use it_base::text::Text;
use it_chain::bundle::Bundle;
use it_chain::folder_name;
use it_dsse::checks::Checks;
use it_nonces::NonceUse;
use it_sublayouts::CountedSublayout;
use std::alloc::{AllocError, Global};

/// The signatures on what is claimed for the steps of some sublayouts, in their order.
///
/// # Errors
///
/// `AllocError` where memory was refused, or where the checks refuse to check more signatures.
pub(crate) fn sublayout_uses<C: Checks>(
    alloc: Global,
    links: &Bundle,
    sublayouts: &[CountedSublayout],
    checks: &C,
) -> Result<Vec<NonceUse>, AllocError>
    ensures { IfOk result (λ uses.
        JoinedEach (SublayoutUses (C.panel checks.now) links.now) sublayouts.now uses.items) }
{
    let mut uses = Vec::new(alloc);
    for sublayout in sublayouts {
        let mut here = uses_below(alloc, links, sublayout, checks)?;
        uses.append(&mut here)?;
    }
    Ok(uses)
}

/// Those on what is claimed for the steps of a sublayout.
fn uses_below<C: Checks>(
    alloc: Global,
    links: &Bundle,
    sublayout: &CountedSublayout,
    checks: &C,
) -> Result<Vec<NonceUse>, AllocError>
    ensures { IfOk result (λ uses.
        SublayoutUses (C.panel checks.now) links.now sublayout.now uses.items) }
{
    let none = Bundle::new(alloc);
    let at = sublayout.at.as_slice();
    let level = LayoutAt {
        at,
        layout: &sublayout.layout,
        links: bundle_below(alloc, at, links, &none)?,
    };
    layout_uses(alloc, &level, checks)
}

/// The folder of a sublayout; a missing one is `none`.
fn bundle_below<'a>(
    alloc: Global,
    at: &[(Text, Text)],
    links: &'a Bundle,
    none: &'a Bundle,
) -> Result<&'a Bundle, AllocError>
    requires { none.now ≡ empty }
    ensures { IfOk result (λ bundle. bundle.now ≡ folder_below at.now links.now) }
{
    let mut bundle = links;
    for (step, id) in at {
        let name = folder_name(alloc, step.as_str(), id.as_str())?;
        bundle = bundle.dir(name.as_str()).unwrap_or(none);
    }
    Ok(bundle)
}
