//! Which identities are keys of builders.
ghost use Rattle.std.specs.Prelude.{◌≡◌};
ghost use Rattle.it_signer_notes.specs.Signers.{is_listed};
ghost use Rattle.it_signer_notes.specs.inside.Lent.{lent};

use it_dsse::key_object::KeyObject;
use it_identity::Identity;
use it_vouched::describes;

/// Whether one of the keys describes the identity. Takes no memory.
pub(crate) fn is_listed(keys: &[&KeyObject], identity: &Identity) -> bool
    ensures { result ≡ is_listed (lent keys.now) identity.now }
{
    for key in keys {
        if describes(key, identity) {
            return true;
        }
    }
    false
}
