//! Key objects that describe identities.
ghost use Rattle.std.specs.Prelude.{◌↔◌, IsTrue};
ghost use Rattle.it_findings.specs.KeyIdentities.{HasIdentity};

use it_dsse::key_object::KeyObject;
use it_identity::is_short;

/// Whether an object describes an identity. Takes no memory.
pub(crate) fn has_identity(object: &KeyObject) -> bool
    ensures { IsTrue result ↔ HasIdentity object.now }
{
    object.scheme.as_str() == "Fulcio"
        && is_short(object.identity.as_str().as_bytes())
        && is_short(object.issuer.as_str().as_bytes())
}
