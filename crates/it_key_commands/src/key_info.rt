//! Public keys as a SubjectPublicKeyInfo.
ghost use Rattle.std.specs.Prelude.{◌≡◌, MatchOption, MatchResult};
ghost use Rattle.it_key_commands.specs.KeyFile.{IsOfCurve};
ghost use Rattle.it_key_commands.specs.KeyInfo.{IsNoEd25519Info, IsNoKeyInfo, contents_of};
ghost use Rattle.it_key_commands.specs.KeyInfo.{ed25519_info, key_info, names_algorithm};
ghost use Rattle.it_key_commands.specs.inside.ReadKeys.{IsInfoFault};
ghost use Rattle.it_public_keys.specs.Keys.{IsKey};

use crate::fault::{Curve, FileFault};
use it_public_keys::key::Key;

/// What a SubjectPublicKeyInfo of an Ed25519 key has before the 32 bytes of the key (RFC 8410,
/// section 4).
const ED25519_PREFIX: [u8; 12] = [48, 42, 48, 5, 6, 3, 43, 101, 112, 3, 33, 0];

/// The object identifier of RSA keys, 1.2.840.113549.1.1.1 (RFC 3279, section 2.3.1).
const RSA_IDENTIFIER: [u8; 11] = [6, 9, 42, 134, 72, 134, 247, 13, 1, 1, 1];

/// The object identifier of keys of elliptic curves, 1.2.840.10045.2.1 (RFC 5480, section 2.1.1).
const CURVES_IDENTIFIER: [u8; 9] = [6, 7, 42, 134, 72, 206, 61, 2, 1];

/// The same, and the object identifier of P-256, 1.2.840.10045.3.1.7, of P-384, 1.3.132.0.34, of
/// P-521, 1.3.132.0.35 (RFC 5480, section 2.1.1.1), and of secp256k1, 1.3.132.0.10 (SEC 2, appendix
/// A.2).
const P256_IDENTIFIERS: [u8; 19] = [
    6, 7, 42, 134, 72, 206, 61, 2, 1, 6, 8, 42, 134, 72, 206, 61, 3, 1, 7,
];

const P384_IDENTIFIERS: [u8; 16] = [6, 7, 42, 134, 72, 206, 61, 2, 1, 6, 5, 43, 129, 4, 0, 34];

const P521_IDENTIFIERS: [u8; 16] = [6, 7, 42, 134, 72, 206, 61, 2, 1, 6, 5, 43, 129, 4, 0, 35];

const SECP256K1_IDENTIFIERS: [u8; 16] = [6, 7, 42, 134, 72, 206, 61, 2, 1, 6, 5, 43, 129, 4, 0, 10];

/// The public key of a SubjectPublicKeyInfo.
pub(crate) fn key_of(info: &[u8]) -> Result<Key, FileFault>
    ensures { MatchResult result (λ key. IsKey key × (info.now ≡ key_info key))
        (IsInfoFault info.now) }
{
    if let Some(bytes) = ed25519_bytes(info) {
        return ed25519_key(&bytes);
    }
    if let Some(key) = it_p256::PublicKey::from_info(info) {
        return Ok(Key::P256(key));
    }
    if let Some(key) = it_p384::PublicKey::from_info(info) {
        return Ok(Key::P384(key));
    }
    match it_rsa::PublicKey::from_info(info) {
        Some(key) => Ok(Key::Rsa(key)),
        None => Err(other_fault(info)),
    }
}

/// The 32 bytes of the key in a SubjectPublicKeyInfo of an Ed25519 key.
fn ed25519_bytes(info: &[u8]) -> Option<[u8; 32]>
    ensures { MatchOption result (IsNoEd25519Info info.now)
        (λ key. info.now ≡ ed25519_info key) }
{
    if info.len() != 44 {
        return None;
    }
    let (prefix, bytes) = info.split_at(12);
    if prefix != ED25519_PREFIX.as_slice() {
        return None;
    }
    let mut key = [0; 32];
    key.copy_from_slice(bytes);
    Some(key)
}

/// The Ed25519 key of 32 bytes.
fn ed25519_key(bytes: &[u8; 32]) -> Result<Key, FileFault>
    ensures { MatchResult result
        (λ key. IsKey key × (ed25519_info bytes.now ≡ key_info key))
        (IsInfoFault (ed25519_info bytes.now)) }
{
    match it_ed25519::PublicKey::from_bytes(bytes) {
        Some(key) => Ok(Key::Ed25519(key)),
        None => Err(FileFault::BadPoint),
    }
}

/// Why a SubjectPublicKeyInfo is not that of a key.
fn other_fault(info: &[u8]) -> FileFault
    requires { IsNoKeyInfo info.now }
    ensures { IsNoEd25519Info info.now → IsInfoFault info.now result }
{
    if names_algorithm(info, RSA_IDENTIFIER.as_slice()) {
        return FileFault::BadRsaKey;
    }
    if names_algorithm(info, CURVES_IDENTIFIER.as_slice()) {
        return FileFault::BadCurveKey(curve_of(info));
    }
    FileFault::OtherKind
}

/// Of which curve a SubjectPublicKeyInfo is.
fn curve_of(info: &[u8]) -> Curve
    ensures { IsOfCurve info.now result }
{
    if names_algorithm(info, P256_IDENTIFIERS.as_slice()) {
        return Curve::P256;
    }
    if names_algorithm(info, P384_IDENTIFIERS.as_slice()) {
        return Curve::P384;
    }
    if names_algorithm(info, P521_IDENTIFIERS.as_slice()) {
        return Curve::P521;
    }
    if names_algorithm(info, SECP256K1_IDENTIFIERS.as_slice()) {
        return Curve::Secp256k1;
    }
    Curve::Other
}

/// Whether the algorithm of a SubjectPublicKeyInfo has this object identifier.
fn names_algorithm(info: &[u8], identifier: &[u8]) -> bool
    ensures { result ≡ names_algorithm info.now identifier.now }
{
    contents_of(contents_of(info)).starts_with(identifier)
}

/// What follows the tag and the length with which bytes begin (X.690, section 8.1.3).
#[tactic(auto, unfolding(crate::specs::KeyInfo::contents_of))]
fn contents_of(bytes: &[u8]) -> &[u8]
    ensures { result.now ≡ contents_of bytes.now }
{
    let header = match bytes.get(1) {
        Some(129) => 3,
        Some(130) => 4,
        _ => 2,
    };
    if bytes.len() < header {
        return &[];
    }
    &bytes[header..]
}
