//! The signatures of an envelope that are a signer's.
ghost use Rattle.std.specs.Prelude.{IfOk, map};
ghost use Rattle.it_nonces.specs.EnvelopeUses.{AreReadFrom, AreUses, EnvelopeUses, IsUseOrNone};

use crate::nonce_use::NonceUse;
use crate::signer::Signer;
use it_base::optional::push_some;
use it_dsse::checks::Checks;
use it_dsse::envelope::{Envelope, Signature};
use it_dsse::key_name::KeyName;
use it_dsse::key_object::KeyObject;
use it_p256::read_signature_value;
use it_valid_signatures::valid_signatures;
use std::alloc::{AllocError, Global};

/// The scheme of signatures by ECDSA over P-256 (in-toto 1.0, section 4.2).
const SCHEME: &str = "ecdsa-sha2-nistp256";

/// All signatures of an envelope that are the signer's, if the key object describes a key of ECDSA
/// over P-256 that the checks know, in the order of the envelope: those that are admitted for the
/// signer's id and valid for the key (DSSE v1.0, "Protocol"), and have numbers r and s. There are
/// none where it describes no such key.
///
/// # Errors
///
/// `AllocError` where memory was refused, or where the checks refuse to check more signatures.
pub fn envelope_uses<C: Checks>(
    alloc: Global,
    envelope: &Envelope,
    signer: &Signer,
    object: &KeyObject,
    checks: &C,
) -> Result<Vec<NonceUse>, AllocError>
    ensures { IfOk result (λ uses. EnvelopeUses (C.panel checks.now) envelope.now signer.now
        object.now uses.items) }
{
    if object.scheme.as_str() != SCHEME {
        return Ok(Vec::new(alloc));
    }
    let Some(key) = checks.find(signer.id.as_str(), object) else {
        return Ok(Vec::new(alloc));
    };
    key_uses(alloc, envelope, signer, &key, checks)
}

/// The signatures of an envelope that are the signer's by a key.
fn key_uses<C: Checks>(
    alloc: Global,
    envelope: &Envelope,
    signer: &Signer,
    key: &C::Found,
    checks: &C,
) -> Result<Vec<NonceUse>, AllocError>
    requires { C.stands checks.now key.now }
    ensures { IfOk result (λ uses. AreUses (C.panel checks.now) envelope.now signer.now
        (C.number checks.now key.now) uses.items) }
{
    let id = signer.id.as_str();
    let vouching = valid_signatures(alloc, envelope, id, key, checks)?;
    let name = checks.name(key);
    read_uses(alloc, signer, &name, vouching.as_slice())
}

/// Those of the signatures that have numbers r and s, as the signer's by a key of this name.
fn read_uses(
    alloc: Global,
    signer: &Signer,
    name: &KeyName,
    signatures: &[&Signature],
) -> Result<Vec<NonceUse>, AllocError>
    ensures { IfOk result (λ uses. AreReadFrom signer.now name.now
        (map (λ signature. signature.now) signatures.now) uses.items) }
{
    let mut uses = Vec::new(alloc);
    for &signature in signatures {
        let found = read_use(alloc, signer, name, signature)?;
        push_some(&mut uses, found)?;
    }
    Ok(uses)
}

/// A signature, as the signer's by a key of this name; `None` where it has no numbers r and s.
fn read_use(
    alloc: Global,
    signer: &Signer,
    name: &KeyName,
    signature: &Signature,
) -> Result<Option<NonceUse>, AllocError>
    ensures { IfOk result (IsUseOrNone signer.now name.now signature.now) }
{
    let Some(numbers) = read_signature_value(signature.sig.as_slice()) else {
        return Ok(None);
    };
    Ok(Some(NonceUse {
        signer: signer.copy(alloc)?,
        key: name.copied(),
        r: numbers.r,
    }))
}
