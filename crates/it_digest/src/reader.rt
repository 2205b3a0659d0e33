//! The digest of what a reader gives.

ghost use Rattle.std.specs.Prelude.{◌≡◌, IfOk, IfSome};
ghost use Rattle.sha2.specs.Sha256.{sha256};
ghost use Rattle.sha2.specs.Sha512.{sha512};
ghost use Rattle.it_digest.specs.DigestSet.{in_sha256, in_sha512};
ghost use Rattle.it_digest.specs.Reader.{GaveAtMost, GaveMoreThan, IsDigestOfRest};
ghost use Rattle.it_digest.specs.inside.Rest.{IsOfRest};
ghost use Rattle.it_digest.specs.declared.reader.DigestFault.TheVariants as fault;

use sha2::{Digest, Sha256, Sha512};
use std::io::{self, Read};

/// How many bytes are asked for at once.
const BLOCK_SIZE: usize = 65_536;

/// Why no digest was computed.
#[derive(Clone, Copy, Debug, PartialEq, Eq)]
pub enum DigestFault {
    /// The reader returned an error.
    Read,
    /// More bytes came than the limit allows.
    TooLarge,
}

impl From<io::Error> for DigestFault {
    ghost from_gives = { λ _ e. e ≡ fault.Read };

    fn from(_error: io::Error) -> DigestFault {
        DigestFault::Read
    }
}

/// The SHA-256 (FIPS 180-4) of the bytes that the reader gives up to its end.
///
/// `limit` is how many bytes may come at most. The reader is asked for blocks, at most `limit` + 1
/// times, and never again after an error or its end.
///
/// # Errors
///
/// - `Read` where the reader returned an error; no read is retried.
/// - `TooLarge` where more than `limit` bytes came.
///
/// After either, the reader is where its last read left it.
pub fn sha256_of_reader<R: Read>(reader: &mut R, limit: u64) -> Result<[u8; 32], DigestFault>
    ensures ok { IfOk result
        (IsDigestOfRest in_sha256 (R.remaining reader.old) (R.remaining reader.new) limit) }
    ensures whole { IfOk result
        (λ digest. IfSome (R.remaining reader.old) (λ bytes. digest ≡ sha256 bytes)) }
    ensures too_large { result ≡ Err DigestFault.TooLarge
        → GaveMoreThan (R.remaining reader.old) (R.remaining reader.new) limit }
    ensures read { result ≡ Err DigestFault.Read
        → GaveAtMost (R.remaining reader.old) (R.remaining reader.new) limit }
{
    digest_of_rest::<Sha256, R>(reader, limit)
}

/// The SHA-512 (FIPS 180-4) of the bytes that the reader gives up to its end, as
/// [`sha256_of_reader`] computes their SHA-256.
///
/// # Errors
///
/// Those of [`sha256_of_reader`].
pub fn sha512_of_reader<R: Read>(reader: &mut R, limit: u64) -> Result<[u8; 64], DigestFault>
    ensures ok { IfOk result
        (IsDigestOfRest in_sha512 (R.remaining reader.old) (R.remaining reader.new) limit) }
    ensures whole { IfOk result
        (λ digest. IfSome (R.remaining reader.old) (λ bytes. digest ≡ sha512 bytes)) }
    ensures too_large { result ≡ Err DigestFault.TooLarge
        → GaveMoreThan (R.remaining reader.old) (R.remaining reader.new) limit }
    ensures read { result ≡ Err DigestFault.Read
        → GaveAtMost (R.remaining reader.old) (R.remaining reader.new) limit }
{
    digest_of_rest::<Sha512, R>(reader, limit)
}

/// The digest that hashers of this kind make of all that the reader gives.
fn digest_of_rest<D: Digest, R: Read>(reader: &mut R, limit: u64) -> Result<D::Output, DigestFault>
    ensures ok { IfOk result
        (IsOfRest D.digest_of (R.remaining reader.old) (R.remaining reader.new) limit) }
    ensures too_large { result ≡ Err DigestFault.TooLarge
        → GaveMoreThan (R.remaining reader.old) (R.remaining reader.new) limit }
    ensures read { result ≡ Err DigestFault.Read
        → GaveAtMost (R.remaining reader.old) (R.remaining reader.new) limit }
{
    let mut hasher = D::new();
    let mut buffer = [0; BLOCK_SIZE];
    let mut room = limit;
    loop {
        let count = reader.read(&mut buffer)?;
        if count == 0 {
            return Ok(hasher.finalize());
        }
        if count as u64 > room {
            return Err(DigestFault::TooLarge);
        }
        room -= count as u64;
        hasher.update(&buffer[..count]);
    }
}
