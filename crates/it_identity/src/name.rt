//! Names of identities, whose numbers are those of the identities.
ghost use Rattle.std.specs.Prelude.{◌≡◌, ◌+◌, ◌++◌, ◌≤◌, length, take, drop};
ghost use Rattle.it_identity.specs.Identity.{IsIdentity, IsShort};
ghost use Rattle.it_identity.specs.Name.{identity_name};

use crate::identity::Identity;

/// The bytes of both texts, preceded by the number of their kind and their counts, and padded with
/// zeros.
pub type IdentityName = [u8; 1029];

/// The name of an identity, which is that of no other.
pub fn identity_name(identity: &Identity) -> IdentityName
    requires { IsIdentity identity.now }
    ensures { result ≡ identity_name identity.now }
{
    name_of_texts(identity.name.as_slice(), identity.issuer.as_slice())
}

/// The name of the identity that has these two texts. Takes no memory.
pub fn name_of_texts(name: &[u8], issuer: &[u8]) -> IdentityName
    requires name { IsShort name.now }
    requires issuer { IsShort issuer.now }
    ensures { result ≡ identity_name (record { name = name.now; issuer = issuer.now }) }
{
    let mut bytes = [0; 1029];
    bytes[0] = 4;
    bytes[1] = (name.len() / 256) as u8;
    bytes[2] = (name.len() % 256) as u8;
    bytes[3] = (issuer.len() / 256) as u8;
    bytes[4] = (issuer.len() % 256) as u8;
    lay(&mut bytes, 5, name);
    lay(&mut bytes, 5 + name.len(), issuer);
    bytes
}

/// Puts a text over the bytes from a place on.
fn lay(bytes: &mut IdentityName, place: usize, text: &[u8])
    requires { place + length text.now ≤ 1029 }
    ensures { bytes.new
        ≡ take place bytes.old ++ text.now ++ drop (place + length text.now) bytes.old }
{
    bytes[place..place + text.len()].copy_from_slice(text);
}
