//! Under which key id a builder's key signed an envelope, where that is not its own.
ghost use Rattle.std.specs.FinMap.{get};
ghost use Rattle.std.specs.Prelude.{◌≡◌, List, Contains, IfOk, IfSome, Some};
ghost use Rattle.it_docs.specs.declared.policy.Builder.{Builder};
ghost use Rattle.it_hints.specs.SignedAs.{IsSignedAs};
ghost use Rattle.it_prov_notes.specs.ProvenanceNotes.{IsHinted};

use crate::note::HintedKey;
use it_base::text::Text;
use it_docs::policy::Builder;
use it_dsse::checks::Checks;
use it_dsse::envelope::Envelope;
use it_dsse::meter::Meter;
use it_hints::signed_as::{NamedKey, keyid_signed_as};
use std::alloc::{AllocError, Global};

/// The first key of the builders that made a signature which is tried for another key id, as long
/// as the meter allows it.
pub(crate) fn hinted_key<C: Checks>(
    alloc: Global,
    builders: &[Builder],
    envelope: &Envelope,
    checks: &C,
    meter: &mut Meter,
) -> Result<Option<HintedKey>, AllocError>
    ensures { IfOk result (λ found. IfSome found
        (IsHinted (C.panel checks.now) builders.now envelope.now)) }
{
    for builder in builders {
        let found = hinted_of(alloc, builder, envelope, checks, meter)?;
        if found.is_some() {
            return Ok(found);
        }
    }
    Ok(None)
}

/// The first such key of one builder.
fn hinted_of<C: Checks>(
    alloc: Global,
    builder: &Builder,
    envelope: &Envelope,
    checks: &C,
    meter: &mut Meter,
) -> Result<Option<HintedKey>, AllocError>
    ensures { (builders : List Builder) → Contains builders builder.now → IfOk result (λ found.
        IfSome found (IsHinted (C.panel checks.now) builders envelope.now)) }
{
    for (id, _) in builder.keys.iter() {
        if let Some(key) = named_key(builder, id.as_str()) {
            let found = hinted_as(alloc, envelope, &key, checks, meter)?;
            if found.is_some() {
                return Ok(found);
            }
        }
    }
    Ok(None)
}

/// The key that a builder has under an id.
fn named_key<'a>(builder: &'a Builder, id: &'a str) -> Option<NamedKey<'a>>
    ensures { IfSome result (λ key. get builder.now.keys key.id.now ≡ Some key.object.now) }
{
    let object = builder.keys.get(id)?;
    Some(NamedKey { id, object })
}

/// Under which key id a key signed the envelope.
fn hinted_as<C: Checks>(
    alloc: Global,
    envelope: &Envelope,
    key: &NamedKey<'_>,
    checks: &C,
    meter: &mut Meter,
) -> Result<Option<HintedKey>, AllocError>
    ensures { IfOk result (λ found. IfSome found (λ hinted. (hinted.id ≡ key.now.id.now)
        × IsSignedAs (C.panel checks.now) envelope.now hinted.id key.now.object.now
        hinted.keyid)) }
{
    let Some(keyid) = keyid_signed_as(alloc, envelope, key, checks, meter)? else {
        return Ok(None);
    };
    Ok(Some(HintedKey {
        id: Text::copy(alloc, key.id)?,
        keyid: Text::copy(alloc, keyid)?,
    }))
}
