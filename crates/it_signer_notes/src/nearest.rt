//! The key that is nearest to an identity.
ghost use Rattle.std.specs.Prelude.{◌≡◌, find, option_map};
ghost use Rattle.it_signer_notes.specs.Nearest.{is_near};
ghost use Rattle.it_signer_notes.specs.inside.Lent.{lent};
ghost use Rattle.it_vouched.specs.ObjectIdentity.{has_identity};

use crate::before_at::is_alike;
use it_dsse::key_object::KeyObject;
use it_identity::Identity;
use it_vouched::IdentityKey;

/// The first of the keys that is near an identity. Takes no memory.
pub(crate) fn nearest<'a>(keys: &[&'a KeyObject], identity: &Identity) -> Option<&'a KeyObject>
    ensures { option_map (λ key. key.now) result ≡ find (is_near identity.now) (lent keys.now) }
{
    for key in keys {
        if is_near(identity, key) {
            return Some(*key);
        }
    }
    None
}

/// Whether a key describes an identity of the same issuer, whose name differs only after its
/// last `@`. Takes no memory.
fn is_near(identity: &Identity, key: &KeyObject) -> bool
    ensures { result ≡ is_near identity.now key.now }
{
    key.issuer.as_str().as_bytes() == identity.issuer.as_slice()
        && is_alike(key.identity.as_str().as_bytes(), identity.name.as_slice())
        && has_identity(key)
}

/// Whether a key describes an identity. Takes no memory.
fn has_identity(key: &KeyObject) -> bool
    ensures { result ≡ has_identity key.now }
{
    IdentityKey::in_object(key).is_some()
}
