//! The ids of the keys that signed an envelope.
ghost use Rattle.std.specs.Prelude.{IfOk, map, string_bytes};
ghost use Rattle.it_signers.specs.inside.SignerNames.{AreSignerNames};

use it_base::table::Table;
use it_dsse::checks::Checks;
use it_dsse::envelope::Envelope;
use it_dsse::is_signer;
use it_dsse::key_object::KeyObject;
use it_dsse::meter::Meter;
use std::alloc::{AllocError, Global};

/// The ids of the objects whose keys signed the envelope.
pub(crate) fn signer_names<C: Checks>(
    alloc: Global,
    envelope: &Envelope,
    objects: &Table<KeyObject>,
    checks: &C,
) -> Result<Vec<String>, AllocError>
    ensures { IfOk result (λ names. AreSignerNames (C.panel checks.now) objects.now envelope.now
        (map string_bytes names.items)) }
{
    let mut meter = Meter { asked: 0 };
    let mut names = Vec::new(alloc);
    for (id, object) in objects.iter() {
        let text = id.as_str();
        let signed = is_signer(envelope, text, object, checks, &mut meter)?;
        if signed {
            names.push(String::from_str(alloc, text)?)?;
        }
    }
    Ok(names)
}
