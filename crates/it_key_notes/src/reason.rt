//! Why no check knows a key object.
use it_base::text::Text;

/// Why no check knows a key object, as far as the object says it (in-toto 1.0, section 4.2).
#[derive(Drop)]
pub enum Reason {
    /// No check knows its scheme, which is this one.
    OtherScheme(Text),
    /// Its scheme is that of secrets: no ring has the secret.
    NoSecret,
    /// It describes a public key: those are checked only on request.
    PublicKey,
    /// Its public part should be an Ed25519 key, but is not 64 hexadecimal digits.
    NoDigits,
    /// Its public part is 64 hexadecimal digits, of bytes that are no Ed25519 key.
    NoEd25519Key,
    /// Its public part should be a public key's PEM text, but does not read as one.
    NoPemText,
    /// Its public part is a PEM text, of bytes that are no P-256 key.
    NoP256Key,
    /// Its public part is a PEM text, of bytes that are no P-384 key.
    NoP384Key,
    /// Its public part is a PEM text, of bytes that are no RSA key.
    NoRsaKey,
    /// It describes an identity: those are checked only with a trusted root.
    Identity,
    /// Its scheme is that of identities, but its identity or its issuer is empty or too long.
    NoIdentity,
}
