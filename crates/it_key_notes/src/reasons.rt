//! What a key object says about why no check knows it.
ghost use Rattle.std.specs.Prelude.{◌≡◌, IfOk, codes};
ghost use Rattle.it_key_notes.specs.Reasons.{IsReason};

use crate::reason::Reason;
use hex::FromHex;
use it_base::text::Text;
use it_dsse::key_object::KeyObject;
use it_identity::Identity;
use it_pem::public_key_info;
use std::alloc::{AllocError, Global};

/// Why an object is not known, by its scheme.
pub(crate) fn reason_of(alloc: Global, object: &KeyObject) -> Result<Reason, AllocError>
    ensures { IfOk result (IsReason object.now) }
{
    match object.scheme.as_str() {
        "hmac-sha256" => Ok(Reason::NoSecret),
        "ed25519" => Ok(ed25519_reason(object)),
        "ecdsa-sha2-nistp256" => Ok(p256_reason(object)),
        "ecdsa-sha2-nistp384" => Ok(p384_reason(object)),
        "rsassa-pss-sha256" => Ok(rsa_reason(object)),
        "Fulcio" => identity_reason(alloc, object),
        other => Ok(Reason::OtherScheme(Text::copy(alloc, other)?)),
    }
}

fn ed25519_reason(object: &KeyObject) -> Reason
    requires { object.now.scheme ≡ codes "ed25519" }
    ensures { IsReason object.now result }
{
    let Ok(bytes) = <[u8; 32] as FromHex>::from_hex(object.public.as_str()) else {
        return Reason::NoDigits;
    };
    match it_ed25519::PublicKey::from_bytes(&bytes) {
        Some(_) => Reason::PublicKey,
        None => Reason::NoEd25519Key,
    }
}

fn p256_reason(object: &KeyObject) -> Reason
    requires { object.now.scheme ≡ codes "ecdsa-sha2-nistp256" }
    ensures { IsReason object.now result }
{
    let Some(info) = public_key_info(object.public.as_str()) else {
        return Reason::NoPemText;
    };
    match it_p256::PublicKey::from_info(info.as_bytes()) {
        Some(_) => Reason::PublicKey,
        None => Reason::NoP256Key,
    }
}

fn p384_reason(object: &KeyObject) -> Reason
    requires { object.now.scheme ≡ codes "ecdsa-sha2-nistp384" }
    ensures { IsReason object.now result }
{
    let Some(info) = public_key_info(object.public.as_str()) else {
        return Reason::NoPemText;
    };
    match it_p384::PublicKey::from_info(info.as_bytes()) {
        Some(_) => Reason::PublicKey,
        None => Reason::NoP384Key,
    }
}

fn rsa_reason(object: &KeyObject) -> Reason
    requires { object.now.scheme ≡ codes "rsassa-pss-sha256" }
    ensures { IsReason object.now result }
{
    let Some(info) = public_key_info(object.public.as_str()) else {
        return Reason::NoPemText;
    };
    match it_rsa::PublicKey::from_info(info.as_bytes()) {
        Some(_) => Reason::PublicKey,
        None => Reason::NoRsaKey,
    }
}

fn identity_reason(alloc: Global, object: &KeyObject) -> Result<Reason, AllocError>
    requires { object.now.scheme ≡ codes "Fulcio" }
    ensures { IfOk result (IsReason object.now) }
{
    let name = object.identity.as_str().as_bytes();
    let issuer = object.issuer.as_str().as_bytes();
    let Some(_) = Identity::of(alloc, name, issuer)? else {
        return Ok(Reason::NoIdentity);
    };
    Ok(Reason::Identity)
}
