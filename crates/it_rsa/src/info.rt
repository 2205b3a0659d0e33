//! The modulus and the exponent in a SubjectPublicKeyInfo.
ghost use Rattle.std.specs.Prelude.{◌≡◌, ℕ, ◌+◌, ◌*◌, ◌<◌, ◌≤◌, List, ◌∷◌, MatchOption, length};
ghost use Rattle.std.specs.Prelude.{slice_index};
ghost use Rattle.it_rsa.specs.inside.Parts.{AreParts, info_head, high, low};

/// The bytes of the two numbers of a key, highest first.
#[derive(Drop)]
pub(crate) struct KeyParts<'i> {
    pub(crate) modulus: &'i [u8],
    pub(crate) exponent: &'i [u8],
}

/// How many bytes come before those of the modulus.
const HEAD_SIZE: usize = 33;

/// The tag of an INTEGER.
const INTEGER: u8 = 2;

fn high_byte(n: usize) -> u8
    ensures { result ≡ high n }
{
    (n / 256 % 256) as u8
}

fn low_byte(n: usize) -> u8
    ensures { result ≡ low n }
{
    (n % 256) as u8
}

/// What comes before a modulus of `size` bytes, where the exponent has `count` bytes.
fn head(size: usize, count: usize) -> [u8; HEAD_SIZE]
    requires small { size ≤ 512 }
    requires short { count ≤ 4 }
    ensures { result ≡ info_head size count }
{
    let (info, bits) = (size + count + 31, size + count + 12);
    let (numbers, modulus) = (size + count + 7, size + 1);
    let (info_high, info_low) = (high_byte(info), low_byte(info));
    let (bits_high, bits_low) = (high_byte(bits), low_byte(bits));
    let (pair_high, pair_low) = (high_byte(numbers), low_byte(numbers));
    let (size_high, size_low) = (high_byte(modulus), low_byte(modulus));
    [
        48, 130, info_high, info_low, 48, 13, 6, 9, 42, 134, 72, 134, 247, 13, 1, 1, 1, 5, 0, 3,
        130, bits_high, bits_low, 0, 48, 130, pair_high, pair_low, 2, 130, size_high, size_low, 0,
    ]
}

/// How many bytes the INTEGER of the modulus has, if these bytes are those of a key.
fn integer_size(info: &[u8]) -> usize
    requires { 33 ≤ length info.now }
    ensures { result ≡ 256 * slice_index info.now 30 + slice_index info.now 31 }
{
    256 * info[30] as usize + info[31] as usize
}

/// The exponent's bytes after those of the modulus.
fn exponent_in(bytes: &[u8], count: usize) -> Option<&[u8]>
    requires { length bytes.now ≡ count + 2 }
    ensures { MatchOption result
        ((exponent : List ℕ) → length exponent ≡ count → bytes.now ≡ 2 ∷ count ∷ exponent → ⊥)
        (λ exponent. (length exponent.now ≡ count) × (bytes.now ≡ 2 ∷ count ∷ exponent.now)) }
{
    if bytes[0] != INTEGER {
        return None;
    }
    if bytes[1] as usize != count {
        return None;
    }
    Some(&bytes[2..])
}

/// The two numbers in a SubjectPublicKeyInfo, if the modulus has 256 to 512 bytes and the exponent
/// has 1 to 4.
pub(crate) fn key_parts(info: &[u8]) -> Option<KeyParts<'_>>
    ensures { MatchOption result
        ((modulus exponent : List ℕ) → AreParts info.now modulus exponent → ⊥)
        (λ parts. AreParts info.now parts.modulus.now parts.exponent.now) }
{
    if info.len() < HEAD_SIZE + 256 + 3 {
        return None;
    }
    let long = integer_size(info);
    if long < 257 {
        return None;
    }
    if long > 513 {
        return None;
    }
    let size = long - 1;
    if info.len() < HEAD_SIZE + size + 3 {
        return None;
    }
    let count = info.len() - HEAD_SIZE - size - 2;
    if count > 4 {
        return None;
    }
    let wanted = head(size, count);
    if &info[..HEAD_SIZE] != wanted.as_slice() {
        return None;
    }
    let Some(exponent) = exponent_in(&info[HEAD_SIZE + size..], count) else {
        return None;
    };
    Some(KeyParts {
        modulus: &info[HEAD_SIZE..HEAD_SIZE + size],
        exponent,
    })
}
