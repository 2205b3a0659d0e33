//! Who signed an envelope.
ghost use Rattle.std.specs.Prelude.{IfOk};
ghost use Rattle.it_dsse.specs.Signed.{AreThose};
ghost use Rattle.it_prov.specs.Meets.{SignedByBuilder};
ghost use Rattle.it_prov_notes.specs.inside.Judged.{lent_builders};

use it_docs::policy::Builder;
use it_dsse::checks::Checks;
use it_dsse::envelope::Envelope;
use it_dsse::meter::Meter;
use it_prov::answers::has_signed;
use std::alloc::{AllocError, Global};

/// Those of the builders that signed an envelope, in their order. Each is asked about once, and the
/// meter rises by the signatures that are checked.
pub(crate) fn signers_among<'a, C: Checks>(
    alloc: Global,
    builders: &'a [Builder],
    envelope: &Envelope,
    checks: &C,
    meter: &mut Meter,
) -> Result<Vec<&'a Builder>, AllocError>
    ensures { IfOk result (λ signers. AreThose
        (SignedByBuilder (C.panel checks.now) envelope.now) builders.now
        (lent_builders signers.items)) }
{
    let mut signers = Vec::new(alloc);
    for builder in builders {
        let signed = has_signed(builder, envelope, checks, meter)?;
        if signed {
            signers.push(builder)?;
        }
    }
    Ok(signers)
}
