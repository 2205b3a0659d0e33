//! The signatures of owners.
ghost use Rattle.std.specs.Prelude.{IfOk, string_bytes};
ghost use Rattle.std.specs.FinMap.{entries};
ghost use Rattle.it_findings.specs.Joined.{JoinedEach};
ghost use Rattle.it_nonce_uses.specs.OwnerUses.{OwnerUses};

use it_base::table::Table;
use it_base::text::Text;
use it_dsse::checks::Checks;
use it_dsse::envelope::Envelope;
use it_dsse::key_object::KeyObject;
use it_nonces::{NonceUse, Role, Signer, envelope_uses};
use std::alloc::{AllocError, Global};

/// The signatures of owners on an envelope, in the order of the owners' ids.
///
/// # Errors
///
/// `AllocError` where memory was refused, or where the checks refuse to check more signatures.
pub(crate) fn owner_uses<C: Checks>(
    alloc: Global,
    envelope: &Envelope,
    owners: &Table<KeyObject>,
    checks: &C,
) -> Result<Vec<NonceUse>, AllocError>
    ensures { IfOk result (λ uses. JoinedEach (OwnerUses (C.panel checks.now) envelope.now)
        (entries owners.now) uses.items) }
{
    let mut uses = Vec::new(alloc);
    for (id, object) in owners.iter() {
        let mut here = uses_of_owner(alloc, envelope, id, object, checks)?;
        uses.append(&mut here)?;
    }
    Ok(uses)
}

fn uses_of_owner<C: Checks>(
    alloc: Global,
    envelope: &Envelope,
    id: &String,
    object: &KeyObject,
    checks: &C,
) -> Result<Vec<NonceUse>, AllocError>
    ensures { IfOk result (λ uses. OwnerUses (C.panel checks.now) envelope.now
        (string_bytes id.now, object.now) uses.items) }
{
    let owner = Signer {
        role: Role::Owner,
        id: Text::copy(alloc, id.as_str())?,
    };
    envelope_uses(alloc, envelope, &owner, object, checks)
}
