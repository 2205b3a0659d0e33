//! Envelopes, and reading them.
ghost use Rattle.std.specs.Prelude.{◌≡◌, ◌∷◌, ◌++◌, [], IfOk, IsErrOf};
ghost use Rattle.it_base.specs.Finds.{Finds};
ghost use Rattle.it_dsse.specs.declared.envelope.EnvelopeFault.TheVariants.{OutOfMemory};
ghost use Rattle.it_dsse.specs.Envelope.{EnvelopeOf, IsEnvelope, IsSignature};
ghost use Rattle.it_dsse.specs.Signed.{is_admitted};

use it_base::sequence::Sequence;
use it_base::text::Text;
use it_borrowed::base64_text::base64_part;
use it_borrowed::parts::{FromBorrowed, from_bytes, part, part_or};
use json::Value;
use std::alloc::{AllocError, Global};

/// A signature of an envelope (DSSE v1.0, "Envelope").
#[derive(Drop)]
pub struct Signature {
    /// A hint about the key, which is not authenticated. Empty where there is none.
    pub keyid: Text,
    /// The bytes of the signature.
    pub sig: Sequence<u8>,
}

impl Signature {
    /// Whether the signature is tried for an id: its hint is empty or is the id. Takes no memory.
    pub fn is_admitted(&self, id: &str) -> bool
        ensures { result ≡ is_admitted id.now self.now }
    {
        let hint = self.keyid.as_str();
        hint.is_empty() || hint == id
    }
}

/// A payload of some type with its signatures (DSSE v1.0, "Envelope").
#[derive(Drop)]
pub struct Envelope {
    /// The payload itself, decoded.
    pub payload: Sequence<u8>,
    /// The type of the payload, such as `application/vnd.in-toto+json`.
    pub payload_type: Text,
    /// The signatures, in the order of the document.
    pub signatures: Sequence<Signature>,
}

/// Why no envelope was read.
#[derive(Clone, Copy, Debug, PartialEq, Eq)]
pub enum EnvelopeFault {
    /// The bytes are not an envelope.
    BadEnvelope,
    /// Memory was refused.
    OutOfMemory,
}

impl From<AllocError> for EnvelopeFault {
    ghost from_gives = { λ _ e. e ≡ OutOfMemory };

    fn from(_e: AllocError) -> EnvelopeFault {
        EnvelopeFault::OutOfMemory
    }
}

impl Envelope {
    /// Reads an envelope from all of the bytes: the JSON form of DSSE v1.0, with padded base64 in
    /// either alphabet.
    ///
    /// # Errors
    ///
    /// `BadEnvelope` where the bytes are not an envelope, and `OutOfMemory` where memory was
    /// refused.
    pub fn read(alloc: Global, bytes: &[u8]) -> Result<Envelope, EnvelopeFault>
        ensures ok { IfOk result (λ envelope. EnvelopeOf bytes.now envelope) }
        ensures bad { IsErrOf result EnvelopeFault.BadEnvelope
            → (envelope : _) → ¬ EnvelopeOf bytes.now envelope }
    {
        from_bytes::<Envelope>(alloc, bytes)?.ok_or(EnvelopeFault::BadEnvelope)
    }

    /// The envelope of a body of type `kind`, such as `application/vnd.in-toto+json`, with one
    /// signature.
    ///
    /// # Errors
    ///
    /// `AllocError` where memory was refused.
    pub fn of_body(
        alloc: Global,
        kind: &str,
        body: &[u8],
        signature: Signature,
    ) -> Result<Envelope, AllocError>
        ensures { IfOk result (λ envelope. envelope ≡ record {
          payload = body.now;
          payload_type = kind.now;
          signatures = signature ∷ [];
        }) }
    {
        Ok(Envelope {
            payload: Sequence::from(Vec::from_slice(alloc, body)?),
            payload_type: Text::copy(alloc, kind)?,
            signatures: Sequence::from(Vec::from_array(alloc, [signature])?),
        })
    }

    /// The envelope with a signature after its own.
    ///
    /// # Errors
    ///
    /// `AllocError` where memory was refused.
    pub fn with_signature(self, signature: Signature) -> Result<Envelope, AllocError>
        ensures { IfOk result (λ more. more
            ≡ record self { signatures = self.signatures ++ signature ∷ [] }) }
    {
        let Envelope {
            payload,
            payload_type,
            signatures,
        } = self;
        let mut signatures = signatures.into_vec();
        signatures.push(signature)?;
        Ok(Envelope {
            payload,
            payload_type,
            signatures: Sequence::from(signatures),
        })
    }
}

impl FromBorrowed for Envelope {
    ghost is_of = { IsEnvelope };

    fn from_borrowed(alloc: Global, value: &Value<'_>) -> Result<Option<Envelope>, AllocError> {
        let Some(payload) = base64_part(alloc, value, "payload")? else {
            return Ok(None);
        };
        let Some(payload_type) = part::<Text>(alloc, value, "payloadType")? else {
            return Ok(None);
        };
        let Some(signatures) = part::<Sequence<Signature>>(alloc, value, "signatures")? else {
            return Ok(None);
        };
        Ok(Some(Envelope {
            payload,
            payload_type,
            signatures,
        }))
    }
}

impl FromBorrowed for Signature {
    ghost is_of = { IsSignature };

    fn from_borrowed(alloc: Global, value: &Value<'_>) -> Result<Option<Signature>, AllocError> {
        let Some(sig) = base64_part(alloc, value, "sig")? else {
            return Ok(None);
        };
        let no_hint = Text::from(String::new(alloc));
        let Some(keyid) = part_or::<Text>(alloc, value, "keyid", no_hint)? else {
            return Ok(None);
        };
        Ok(Some(Signature { keyid, sig }))
    }
}
