//! The numbers of a key, at their places in its SubjectPublicKeyInfo.
ghost use Rattle.std.specs.Prelude.{◌≡◌, length};
ghost use Rattle.it_rsa.specs.Key.{Key};
ghost use Rattle.it_rsa_forms.specs.Info.{IsInfoOf};

use it_rsa::exponent_number;
use it_rsa_number::modulus::Modulus;

/// How many bytes come before those of the modulus.
const HEAD_SIZE: usize = 33;

/// The modulus of a key, which has `size` bytes there.
pub(crate) fn modulus_in(info: &[u8], size: usize) -> Modulus
    requires { (key : Key) × IsInfoOf info.now key × (size ≡ length key.modulus) }
    ensures { (key : Key) → IsInfoOf info.now key → result ≡ key.modulus }
{
    Modulus::from_bytes(modulus_bytes(info, size))
}

/// The bytes of the modulus.
fn modulus_bytes(info: &[u8], size: usize) -> &[u8]
    requires { (key : Key) × IsInfoOf info.now key × (size ≡ length key.modulus) }
    ensures { (key : Key) → IsInfoOf info.now key → result.now ≡ key.modulus }
{
    &info[HEAD_SIZE..HEAD_SIZE + size]
}

/// The exponent of a key, whose modulus has `size` bytes.
pub(crate) fn exponent_in(info: &[u8], size: usize) -> u32
    requires { (key : Key) × IsInfoOf info.now key × (size ≡ length key.modulus) }
    ensures { (key : Key) → IsInfoOf info.now key → result ≡ key.exponent }
{
    exponent_number(&info[HEAD_SIZE + size + 2..])
}
