//! The keys of identities.
ghost use Rattle.std.specs.Prelude.{◌≡◌, nat_eq, option_map};
ghost use Rattle.it_identity.specs.Identity.{IsIdentity};
ghost use Rattle.it_identity.specs.Name.{number_of};
ghost use Rattle.it_numbers.specs.Bytes.{big};
ghost use Rattle.it_vouched.specs.ObjectIdentity.{has_identity, identity_in, is_short};

use it_dsse::key_name::KeyName;
use it_dsse::key_object::KeyObject;
use it_identity::{Identity, IdentityName, identity_name, name_of_texts};
use std::marker::Model;

/// The key of an identity, by the identity's name. To a contract it is the identity's number.
#[derive(Drop)]
pub struct IdentityKey {
    name: IdentityName,
}

impl Model for IdentityKey {
    ghost use Rattle.std.specs.Prelude.{ℕ};
    ghost use Rattle.it_numbers.specs.Bytes.{big};

    ghost Value = { ℕ };

    ghost view = { λ key. big key.name };
}

impl IdentityKey {
    /// The key of the identity that an object describes, if it describes one: by its scheme, its
    /// identity and its issuer alone. Takes no memory.
    pub fn in_object(object: &KeyObject) -> Option<IdentityKey>
        ensures { result ≡ option_map number_of (identity_in object.now) }
    {
        if !has_identity(object) {
            return None;
        }
        let identity = object.identity.as_str();
        let issuer = object.issuer.as_str();
        let name = name_of_texts(identity.as_bytes(), issuer.as_bytes());
        Some(IdentityKey { name })
    }

    /// The key's name at a place.
    pub fn name(&self, place: usize) -> KeyName
        ensures { result ≡ (place, self.now) }
    {
        KeyName::of(place, &self.name)
    }

    /// Whether it is the key of an identity. Takes no memory.
    pub(crate) fn is_of(&self, identity: &Identity) -> bool
        requires { IsIdentity identity.now }
        ensures { result ≡ nat_eq (number_of identity.now) self.now }
    {
        is_same_name(&identity_name(identity), &self.name)
    }
}

/// Whether an object describes an identity.
pub(crate) fn has_identity(object: &KeyObject) -> bool
    ensures { result ≡ has_identity object.now }
{
    object.scheme.as_str() == "Fulcio"
        && is_short(object.identity.as_str())
        && is_short(object.issuer.as_str())
}

/// Whether a text has 1 to 512 bytes.
fn is_short(text: &str) -> bool
    ensures { result ≡ is_short text.now }
{
    it_identity::is_short(text.as_bytes())
}

fn is_same_name(one: &IdentityName, other: &IdentityName) -> bool
    ensures { result ≡ nat_eq (big one.now) (big other.now) }
{
    one == other
}
