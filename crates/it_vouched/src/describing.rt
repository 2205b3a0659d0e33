//! Whether a key object describes an identity.
ghost use Rattle.std.specs.Prelude.{◌≡◌};
ghost use Rattle.it_vouched.specs.ObjectIdentity.{describes};

use crate::identity_key::has_identity;
use it_dsse::key_object::KeyObject;
use it_identity::Identity;

/// Whether this is the identity that an object describes. Takes no memory.
pub fn describes(object: &KeyObject, identity: &Identity) -> bool
    ensures { result ≡ describes object.now identity.now }
{
    has_identity(object)
        && object.identity.as_str().as_bytes() == identity.name.as_slice()
        && object.issuer.as_str().as_bytes() == identity.issuer.as_slice()
}
