//! What a certificate log signed.
ghost use Rattle.std.specs.Prelude.{◌≡◌, ◌^◌, ◌<◌, ◌++◌, IfOk, OnOk, length};
ghost use Rattle.sha2.specs.Sha256.{sha256};
ghost use Rattle.it_certificate_log.specs.Counted.{counted};
ghost use Rattle.it_certificate_log.specs.SignedText.{signed_text, three_bytes};
ghost use Rattle.it_certificate_log.specs.Timestamp.{stamp_of};

use crate::timestamp::Timestamp;
use sha2::{Digest, Sha256};
use std::alloc::{AllocError, Global};

/// Version 1, and the kind of the signature.
const OF_TIMESTAMP: [u8; 2] = [0, 0];

/// The kind of the entry: a precertificate.
const OF_PRECERTIFICATE: [u8; 2] = [0, 1];

/// The bytes of which a timestamp has a signature (RFC 6962, section 3.2): by the issuer's key, the
/// bytes of a SubjectPublicKeyInfo, and by what the signature of the certificate is of, without the
/// extension of timestamps.
///
/// # Errors
///
/// `AllocError` where memory was refused.
pub fn signed_text(
    alloc: Global,
    issuer_key: &[u8],
    bare: &[u8],
    timestamp: &Timestamp<'_>,
) -> Result<Vec<u8>, AllocError>
    requires bare_short { length bare.now < 2 ^ 24 }
    requires extensions_short { length timestamp.now.extensions.now < 2 ^ 16 }
    ensures { IfOk result (λ v. v.items
        ≡ signed_text issuer_key.now bare.now (stamp_of timestamp.now)) }
{
    let mut text = Vec::new(alloc);
    text.extend_from_slice(&OF_TIMESTAMP)?;
    text.extend_from_slice(timestamp.moment)?;
    text.extend_from_slice(&OF_PRECERTIFICATE)?;
    let digest = key_hash(issuer_key);
    text.extend_from_slice(&digest)?;
    append_three_bytes(&mut text, bare.len())?;
    text.extend_from_slice(bare)?;
    append_counted(&mut text, timestamp.extensions)?;
    Ok(text)
}

fn key_hash(issuer_key: &[u8]) -> [u8; 32]
    ensures { result ≡ sha256 issuer_key.now }
{
    let mut hasher = Sha256::new();
    hasher.update(issuer_key);
    hasher.finalize()
}

fn append_three_bytes(text: &mut Vec<u8>, number: usize) -> Result<(), AllocError>
    requires { number < 2 ^ 24 }
    ensures { OnOk result (text.new.items ≡ text.old.items ++ three_bytes number) }
{
    text.push((number / 65_536) as u8)?;
    text.push((number / 256 % 256) as u8)?;
    text.push((number % 256) as u8)?;
    Ok(())
}

fn append_counted(text: &mut Vec<u8>, bytes: &[u8]) -> Result<(), AllocError>
    requires { length bytes.now < 2 ^ 16 }
    ensures { OnOk result (text.new.items ≡ text.old.items ++ counted bytes.now) }
{
    text.push((bytes.len() / 256) as u8)?;
    text.push((bytes.len() % 256) as u8)?;
    text.extend_from_slice(bytes)?;
    Ok(())
}
