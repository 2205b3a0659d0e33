//! What a signature is that is not valid for its key.
ghost use Rattle.std.specs.Prelude.{◌≡◌, Some, Ok, IfOk, IfSome, IsTrue};
ghost use Rattle.base64.specs.Engines.{standard};
ghost use Rattle.base64.specs.GeneralPurpose.{decoded_of};
ghost use Rattle.hex.specs.Hex.{decode_of};
ghost use Rattle.it_dsse.specs.Pae.{pae_of};
ghost use Rattle.it_key_commands.specs.SignatureFlaw.{AreHalves, AreNumbers, IsBase64};
ghost use Rattle.it_key_commands.specs.SignatureFlaw.{IsHexadecimal};
ghost use Rattle.it_key_commands.specs.SignatureFlaw.{IsSignatureFlaw, without_space};
ghost use Rattle.it_key_commands.specs.Signers.{IsValidFor};

use crate::fault::SignatureFlaw;
use crate::made_signature::MadeSignature;
use crate::rsa_form::form_flaw;
use crate::signer::is_valid_for;
use crate::two_numbers::signature_form;
use hex::FromHexError;
use it_base::base64_text::decode_standard;
use it_base::sequence::Sequence;
use it_dsse::key_object::KeyObject;
use it_dsse::pae;
use it_dsse::payload_type::IN_TOTO;
use std::alloc::{AllocError, Global};

/// The types under which a body is tried: in-toto's, and two that are written in their place.
const KINDS: [&str; 3] = [IN_TOTO, "application/json", "text/plain"];

/// What a signature is that is not valid for the key that an object describes. `message` is what a
/// valid one signs.
pub(crate) fn signature_flaw(
    alloc: Global,
    object: &KeyObject,
    made: &MadeSignature<'_>,
    message: &[u8],
) -> Result<SignatureFlaw, AllocError>
    ensures { IfOk result (IsSignatureFlaw object.now message.now made.now.body.now
        made.now.signature.now) }
{
    if is_base64(alloc, object, message, made.signature)? {
        return Ok(SignatureFlaw::Base64);
    }
    if is_hexadecimal(alloc, object, message, made.signature)? {
        return Ok(SignatureFlaw::Hexadecimal);
    }
    if are_numbers(alloc, object, message, made.signature)? {
        return Ok(SignatureFlaw::TwoNumbers);
    }
    if is_valid_for(object, made.body, made.signature) {
        return Ok(SignatureFlaw::OfBody);
    }
    match other_kind(alloc, object, made)? {
        Some(kind) => Ok(SignatureFlaw::OfType(kind)),
        None => form_flaw(alloc, object, made, message),
    }
}

/// Whether a text is base64 of a valid signature.
fn is_base64(
    alloc: Global,
    object: &KeyObject,
    message: &[u8],
    text: &[u8],
) -> Result<bool, AllocError>
    ensures { IfOk result (λ is. IsTrue is → IsBase64 object.now message.now text.now) }
{
    match base64_bytes(alloc, text)? {
        Some(bytes) => Ok(is_valid_for(object, message, bytes.as_slice())),
        None => Ok(false),
    }
}

/// Whether a text is hexadecimal digits of a valid signature.
fn is_hexadecimal(
    alloc: Global,
    object: &KeyObject,
    message: &[u8],
    text: &[u8],
) -> Result<bool, AllocError>
    ensures { IfOk result (λ is. IsTrue is → IsHexadecimal object.now message.now text.now) }
{
    match hexadecimal_bytes(alloc, text)? {
        Some(bytes) => Ok(is_valid_for(object, message, bytes.as_slice())),
        None => Ok(false),
    }
}

/// Whether bytes are the two numbers of a valid signature, one after the other.
fn are_numbers(
    alloc: Global,
    object: &KeyObject,
    message: &[u8],
    numbers: &[u8],
) -> Result<bool, AllocError>
    ensures { IfOk result (λ are. IsTrue are → AreNumbers object.now message.now numbers.now) }
{
    let Some(half) = half_of(numbers) else {
        return Ok(false);
    };
    let form = signature_form(alloc, numbers, half)?;
    Ok(is_valid_for(object, message, form.as_slice()))
}

/// In how many bytes each of the two numbers of an ECDSA signature is, where these may be the two.
fn half_of(numbers: &[u8]) -> Option<usize>
    ensures { IfSome result (AreHalves numbers.now) }
{
    match numbers.len() {
        64 => Some(32),
        96 => Some(48),
        _ => None,
    }
}

/// A type under which the signature is valid for the body.
fn other_kind(
    alloc: Global,
    object: &KeyObject,
    made: &MadeSignature<'_>,
) -> Result<Option<&'static str>, AllocError>
    ensures { let m = made.now in IfOk result (λ found. IfSome found
        (λ kind. IsValidFor object.now (pae_of kind.now m.body.now) m.signature.now)) }
{
    for &kind in KINDS.as_slice() {
        let message = pae(alloc, kind, made.body)?;
        if is_valid_for(object, message.as_slice(), made.signature) {
            return Ok(Some(kind));
        }
    }
    Ok(None)
}

/// A text without its white space.
fn without_space(alloc: Global, text: &[u8]) -> Result<Vec<u8>, AllocError>
    ensures { IfOk result (λ digits. digits.items ≡ without_space text.now) }
{
    let mut digits = Vec::new(alloc);
    for byte in text {
        if *byte > 32 {
            digits.push(*byte)?;
        }
    }
    Ok(digits)
}

/// The bytes of a base64 text, whatever white space is in it.
fn base64_bytes(alloc: Global, text: &[u8]) -> Result<Option<Sequence<u8>>, AllocError>
    ensures { IfOk result (λ found. found ≡ decoded_of standard (without_space text.now)) }
{
    let digits = without_space(alloc, text)?;
    decode_standard(alloc, digits.as_slice())
}

/// The bytes of a hexadecimal text, whatever white space is in it.
fn hexadecimal_bytes(alloc: Global, text: &[u8]) -> Result<Option<Vec<u8>>, AllocError>
    ensures { IfOk result (λ found. IfSome found
        (λ bytes. decode_of (without_space text.now) ≡ Ok bytes.items)) }
{
    let digits = without_space(alloc, text)?;
    match hex::decode(alloc, digits.as_slice()) {
        Ok(bytes) => Ok(Some(bytes)),
        Err(FromHexError::OutOfMemory) => Err(AllocError),
        Err(_) => Ok(None),
    }
}
