//! The levels that a policy gives builders.
ghost use Rattle.std.specs.Prelude.{◌≡◌, ◌↔◌, IfOk, IsTrue, max};
ghost use Rattle.std.specs.Option.{option_map_or};
ghost use Rattle.it_prov.specs.Best.{IsGreatest};
ghost use Rattle.it_prov.specs.inside.Judged.{IsBuiltBy, OfSome};

use it_docs::policy::Builder;
use it_dsse::checks::Checks;
use it_dsse::envelope::Envelope;
use it_dsse::meter::Meter;
use it_prov::answers::has_signed;
use std::alloc::AllocError;

/// The greatest level of those builders that have an id and signed an envelope, or `None` where
/// none did.
pub(crate) fn greatest_level<C: Checks>(
    builders: &[Builder],
    id: &str,
    envelope: &Envelope,
    checks: &C,
) -> Result<Option<u8>, AllocError>
    ensures { IfOk result (IsGreatest (OfSome
        (IsBuiltBy (C.panel checks.now) envelope.now id.now) builders.now)) }
{
    let mut best = None;
    for builder in builders {
        let built = has_built(builder, id, envelope, checks)?;
        if built {
            best = Some(greater(best, builder.level));
        }
    }
    Ok(best)
}

/// Whether a builder has an id and signed an envelope.
fn has_built<C: Checks>(
    builder: &Builder,
    id: &str,
    envelope: &Envelope,
    checks: &C,
) -> Result<bool, AllocError>
    ensures { IfOk result (λ built. IsTrue built
        ↔ IsBuiltBy (C.panel checks.now) envelope.now id.now builder.now builder.now.level) }
{
    if builder.id.as_str() != id {
        return Ok(false);
    }
    let mut meter = Meter { asked: 0 };
    has_signed(builder, envelope, checks, &mut meter)
}

/// The greater of a level and another, if there is another.
fn greater(other: Option<u8>, level: u8) -> u8
    ensures { result ≡ option_map_or (max level) other level }
{
    match other {
        Some(other) => level.max(other),
        None => level,
    }
}
