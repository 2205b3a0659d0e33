//! HMAC with SHA-256.
ghost use Rattle.std.specs.Prelude.{◌≡◌, ◌++◌, ◌≤◌, length};
ghost use Rattle.sha2.specs.Sha256.{sha256};
ghost use Rattle.it_dsse.specs.Hmac.{hmac, filled, block_of, masked};
ghost use Rattle.it_message.specs.Message.{joined};

use sha2::{Digest, Sha256};

const OUTER: u8 = 0x5c;

const INNER: u8 = 0x36;

/// The code of a message under a key (RFC 2104, with SHA-256 and its block of 64 bytes). Takes no
/// memory.
pub fn hmac_sha256(key: &[u8], message: &[u8]) -> [u8; 32]
    ensures { result ≡ hmac key.now message.now }
{
    hmac_sha256_parts(key, &[message])
}

/// The code, under a key, of the message that the parts make when joined. Takes no memory.
#[tactic(auto, unfolding(crate::specs::Hmac::hmac))]
pub fn hmac_sha256_parts(key: &[u8], message: &[&[u8]]) -> [u8; 32]
    ensures { result ≡ hmac key.now (joined message.now) }
{
    let block = block(key);
    let inner = keyed_digest(&block, INNER, message);
    keyed_digest(&block, OUTER, &[&inner])
}

/// The key as one block.
pub(crate) fn block(key: &[u8]) -> [u8; 64]
    ensures { result ≡ block_of key.now }
{
    if key.len() > 64 {
        let digest = Sha256::digest(key);
        fill(&digest)
    } else {
        fill(key)
    }
}

fn fill(key: &[u8]) -> [u8; 64]
    requires { length key.now ≤ 64 }
    ensures { result ≡ filled key.now }
{
    let mut block = [0u8; 64];
    block[..key.len()].copy_from_slice(key);
    block
}

fn masked_block(block: &[u8; 64], mask: u8) -> [u8; 64]
    ensures { result ≡ masked mask block.now }
{
    let mut out = *block;
    for byte in out.iter_mut() {
        *byte ^= mask;
    }
    out
}

fn keyed_digest(block: &[u8; 64], mask: u8, message: &[&[u8]]) -> [u8; 32]
    ensures { result ≡ sha256 (masked mask block.now ++ joined message.now) }
{
    let front = masked_block(block, mask);
    let mut hasher = Sha256::new();
    hasher.update(front.as_slice());
    for part in message {
        hasher.update(part);
    }
    hasher.finalize()
}
