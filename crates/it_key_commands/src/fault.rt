//! Why a command on public keys stops.
ghost use Rattle.std.specs.Prelude.{◌≡◌};
ghost use Rattle.it_key_commands.specs.declared.fault.KeyFault.TheVariants.{Run};
ghost use Rattle.it_outcome.specs.declared.outcome.RunFault.TheVariants.{OutOfMemory};

use it_outcome::RunFault;
use std::alloc::AllocError;
use thiserror::Error;

/// Why a command on public keys stopped before its whole output went out.
#[derive(Clone, Copy, Debug, PartialEq, Eq, Error)]
pub enum KeyFault {
    /// A fault that other commands share.
    #[error("{0}")]
    Run(RunFault),
    /// No key object has the id.
    #[error("there is no key with that id")]
    UnknownId,
    /// The key object of the id describes no public key.
    #[error("the key with that id is not a public key that signatures are checked by")]
    NoPublicKey,
    /// The signature is not valid for the key of the id, but this.
    #[error("the signature is not one of the body by the key with that id: {0}")]
    BadSignature(SignatureFlaw),
    /// A name was given without exactly one file.
    #[error("a name is taken with one file only")]
    NotOneFile,
    /// The file at this place, counted from 0, is not a public key, for this reason.
    #[error("file {0}, counted from 0, is not a public key: it is {1}")]
    BadFile(usize, FileFault),
}

/// What a signature is that is not valid for its key, as far as trying it shows.
#[derive(Clone, Copy, Debug, PartialEq, Eq, Error)]
pub enum SignatureFlaw {
    /// The base64 text (RFC 4648, section 4) of a valid signature.
    #[error("it is the base64 text of one (base64 -d writes its bytes)")]
    Base64,
    /// The hexadecimal text (RFC 4648, section 8) of a valid signature.
    #[error("it is the hexadecimal text of one (xxd -r -p writes its bytes)")]
    Hexadecimal,
    /// The two numbers of a valid ECDSA signature, in 32 bytes each for P-256 and 48 for P-384.
    #[error("it is the two numbers of one in 64 or 96 bytes, and not their DER encoding")]
    TwoNumbers,
    /// A signature of the body itself.
    #[error("it is one of the body itself, and not of what itv pae writes of it")]
    OfBody,
    /// A signature of the body as of this other type.
    #[error("it is one of the body as of the type {0}")]
    OfType(&'static str),
    /// A signature by an RSA key in the older form, RSASSA-PKCS1-v1_5 (RFC 8017, section 8.2).
    #[error("it is one by PKCS #1 v1.5, and only RSASSA-PSS with a salt of 32 bytes is taken")]
    Pkcs1,
    /// A signature by an RSA key with a salt of this many bytes (RFC 8017, section 8.1).
    #[error("it is one by RSASSA-PSS with a salt of {0} bytes, and only one of 32 is taken")]
    OtherSalt(usize),
    /// None of these, where the key is of RSA.
    #[error("by RSA only RSASSA-PSS with SHA-256 and a salt of 32 bytes is taken, \
         and neither PKCS #1 v1.5 nor another salt")]
    OtherRsa,
    /// None of these, where the key is of another kind.
    #[error("sign what itv pae writes of it, and give the bytes of the signature alone")]
    Other,
}

/// Why a file is not a public key.
#[derive(Clone, Copy, Debug, PartialEq, Eq, Error)]
pub enum FileFault {
    /// It is not the PEM text of a public key (RFC 7468, section 13), but this.
    #[error("{0}")]
    NotPem(OtherFile),
    /// It is a PEM text of another label.
    #[error("{0}")]
    Other(OtherText),
    /// It is a public key of another kind than Ed25519, ECDSA over P-256 or P-384, and RSA.
    #[error("a public key of another kind (use Ed25519, ECDSA over P-256 or P-384, or RSA)")]
    OtherKind,
    /// It has the form of an Ed25519 key, but its point is not a key: undecodable (RFC 8032,
    /// section 5.1.3), or of small order.
    #[error("an Ed25519 key whose point is not on the curve, or of small order (make a new one)")]
    BadPoint,
    /// It is an elliptic-curve key, but not a key of P-256 or P-384 whose point is on the curve and
    /// written uncompressed (RFC 5480, section 2.2).
    #[error("{0}")]
    BadCurveKey(Curve),
    /// It is an RSA key, but its modulus does not have 2,048 to 4,096 bits in whole bytes, or its
    /// exponent is not an odd number from 3 to 2,147,483,647.
    #[error("an RSA key not of 2,048, 2,056, .. 4,096 bits, or of an exponent that is not taken \
         (make one of 3,072 bits with the exponent 65537)")]
    BadRsaKey,
}

/// What a file is that is not the PEM text of a public key, nor one with another label.
#[derive(Clone, Copy, Debug, PartialEq, Eq, Error)]
pub enum OtherFile {
    /// There is nothing in it but white space.
    #[error("empty")]
    Empty,
    /// A public key as OpenSSH writes it (RFC 4253, section 6.6).
    #[error("a public key of OpenSSH \
         (ssh-keygen -e -m PKCS8 writes one of RSA, P-256 or P-384 in PEM)")]
    OpenSsh,
    /// A JSON object, as a JWK (RFC 7517) or a file of keys.
    #[error("a JSON object, such as a JWK or a file of keys, and not a public key in PEM")]
    Json,
    /// Several public keys in PEM: a further one begins after the first line.
    #[error("more than one public key in PEM (write each into a file of its own)")]
    Several,
    /// A text before a public key in PEM.
    #[error("a public key in PEM after a text (remove all before -----BEGIN PUBLIC KEY-----)")]
    TextBefore,
    /// Anything else.
    #[error("not the PEM text of a public key (openssl pkey -pubin -pubout makes one of DER)")]
    Other,
}

/// Of which curve a key is that is not taken, by its object identifier (RFC 5480, section 2.1.1.1;
/// SEC 2, appendix A.2).
#[derive(Clone, Copy, Debug, PartialEq, Eq, Error)]
pub enum Curve {
    /// P-256, of which the point is not on the curve or not written uncompressed.
    #[error("a key of P-256 that is not an uncompressed point on the curve \
         (openssl pkey -pubin -pubout -ec_conv_form uncompressed writes a compressed one so)")]
    P256,
    /// P-384, of which the same holds.
    #[error("a key of P-384 that is not an uncompressed point on the curve \
         (openssl pkey -pubin -pubout -ec_conv_form uncompressed writes a compressed one so)")]
    P384,
    /// P-521.
    #[error("a key of the curve P-521 \
         (make a new one: of elliptic curves only P-256 and P-384 are taken)")]
    P521,
    /// The curve secp256k1.
    #[error("a key of secp256k1 \
         (make a new one: of elliptic curves only P-256 and P-384 are taken)")]
    Secp256k1,
    /// Any other.
    #[error("a key of another elliptic curve than P-256 and P-384 \
         (make a new one: only these two are taken)")]
    Other,
}

/// What a PEM text other than a public key is, by its label (RFC 7468, section 2).
#[derive(Clone, Copy, Debug, PartialEq, Eq, Error)]
pub enum OtherText {
    /// A private key, in one of its forms.
    #[error("a private key (openssl pkey -pubout writes its public key)")]
    PrivateKey,
    /// An RSA public key in its older form (RFC 8017, appendix A.1.1).
    #[error("an RSA key in its older form (openssl rsa -RSAPublicKey_in -pubout writes the newer)")]
    RsaPublicKey,
    /// A certificate.
    #[error("a certificate (openssl x509 -noout -pubkey writes its public key)")]
    Certificate,
    /// A PEM text of any other label.
    #[error("a PEM text of another label (a public key begins with -----BEGIN PUBLIC KEY-----)")]
    Unknown,
}

impl From<AllocError> for KeyFault {
    ghost from_gives = { λ _ fault. fault ≡ Run OutOfMemory };

    fn from(_error: AllocError) -> KeyFault {
        KeyFault::Run(RunFault::OutOfMemory)
    }
}

impl From<RunFault> for KeyFault {
    ghost from_gives = { λ fault whole. whole ≡ Run fault };

    fn from(fault: RunFault) -> KeyFault {
        KeyFault::Run(fault)
    }
}
