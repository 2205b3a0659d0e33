//! The mask generation function MGF1 with SHA-256 (RFC 8017, section B.2.1).
ghost use Rattle.std.specs.Prelude.{◌≡◌, ◌++◌, ◌≤◌, length};
ghost use Rattle.sha2.specs.Sha256.{sha256};
ghost use Rattle.it_numbers.specs.Bytes.{big_bytes};
ghost use Rattle.it_rsa.specs.Mask.{mgf1, xored};

use sha2::{Digest, Sha256};

/// The digest of two pieces, taken as one message.
fn digest_of_parts(first: &[u8], second: &[u8]) -> [u8; 32]
    ensures { result ≡ sha256 (first.now ++ second.now) }
{
    let mut hasher = Sha256::new();
    hasher.update(first);
    hasher.update(second);
    hasher.finalize()
}

/// A block of the mask.
fn mask_block(seed: &[u8], counter: u8) -> [u8; 32]
    ensures { result ≡ sha256 (seed.now ++ big_bytes 4 counter) }
{
    let bytes: [u8; 4] = [0, 0, 0, counter];
    digest_of_parts(seed, &bytes)
}

/// Applies the mask of a seed to at most 512 bytes, or removes it. Takes no memory.
pub fn unmask(bytes: &mut [u8], seed: &[u8])
    requires { length bytes.old ≤ 512 }
    ensures { bytes.new ≡ xored bytes.old (mgf1 seed.now (length bytes.old)) }
{
    let mut digest = [0; 32];
    for i in 0..bytes.len() {
        if i % 32 == 0 {
            digest = mask_block(seed, (i / 32) as u8);
        }
        bytes[i] = bytes[i] ^ digest[i % 32];
    }
}
