//! Names of keys, whose numbers are those of the keys.
ghost use Rattle.std.specs.Prelude.{◌≡◌, ◌≤◌, length};
ghost use Rattle.it_public_keys.specs.KeyNames.{name};

/// A key's bytes, preceded by the number of its kind and their count, and padded with zeros.
pub(crate) type Name = [u8; 560];

/// The name of the key of these bytes.
pub(crate) fn name_of(kind: u8, bytes: &[u8]) -> Name
    requires { length bytes.now ≤ 557 }
    ensures { result ≡ name kind bytes.now }
{
    let mut name = [0; 560];
    name[0] = kind;
    name[1] = (bytes.len() / 256) as u8;
    name[2] = (bytes.len() % 256) as u8;
    name[3..3 + bytes.len()].copy_from_slice(bytes);
    name
}
