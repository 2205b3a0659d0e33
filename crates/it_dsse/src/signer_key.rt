//! Who signed an envelope, by a panel of boxed checks.
ghost use Rattle.std.specs.Prelude.{◌≡◌, IfOk, map, string_bytes};
ghost use Rattle.it_base.specs.Finds.{Finds};
ghost use Rattle.it_dsse.specs.Meter.{raised};
ghost use Rattle.it_dsse.specs.Panel.{panel_of};
ghost use Rattle.it_dsse.specs.Signed.{AreThose, IsSigner, Signed, tries};

use crate::boxed::{Boxed, is_vouched_in, key_in};
use crate::check::SignatureCheck;
use crate::envelope::Envelope;
use crate::key_object::KeyObject;
use crate::meter::Meter;
use crate::signer::any_admitted;
use crate::signers::signed_ids_by;
use std::alloc::{AllocError, Global};

/// The key that signed the envelope, where some check of the panel knows the key that `id` and
/// `object` name and some signature is valid for it; `None` otherwise (DSSE v1.0, "Protocol"). The
/// key is given as the first place whose check knows it, with its number there.
///
/// The signatures whose hint is empty or equals `id` are tried in order by that check until one is
/// valid, and the meter rises by the number tried. Where no signature has such a hint, no check is
/// asked for a key. Takes no memory.
pub fn signed_by(
    envelope: &Envelope,
    id: &str,
    object: &KeyObject,
    panel: &[Box<dyn SignatureCheck>],
    meter: &mut Meter,
) -> Option<(usize, u32)>
    ensures answer { Finds
        (Signed (panel_of (map meaning panel.now)) envelope.now id.now object.now) result }
    ensures counted { meter.new ≡ raised meter.old
        (tries (panel_of (map meaning panel.now)) envelope.now id.now object.now) }
{
    if !any_admitted(envelope.signatures.as_slice(), id) {
        return None;
    }
    let Some(key) = key_in(panel, id, object) else {
        return None;
    };
    let vouched = is_vouched_in(envelope, id, key, panel, meter);
    if vouched { Some(key) } else { None }
}

/// Those of the given ids whose key signed the envelope, in the order given.
pub fn signed_ids(
    alloc: Global,
    envelope: &Envelope,
    ids: &[String],
    object: &KeyObject,
    panel: &[Box<dyn SignatureCheck>],
) -> Result<Vec<String>, AllocError>
    ensures { IfOk result (λ signers. AreThose (IsSigner (panel_of (map meaning panel.now))
        envelope.now object.now)
        (map string_bytes ids.now) (map string_bytes signers.items)) }
{
    signed_ids_by(alloc, envelope, ids, object, &Boxed { panel })
}
