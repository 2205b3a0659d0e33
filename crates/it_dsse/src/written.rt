//! Writing envelopes.
ghost use Rattle.std.specs.Prelude.{◌≡◌, IfOk, IsErrOf, OnOk, string_bytes};
ghost use Rattle.std.specs.Io.KnownBytes.{Appends};
ghost use Rattle.serde_json.specs.Data.{string};
ghost use Rattle.serde_json.specs.View.{view};
ghost use Rattle.it_base.specs.Base64Text.{IsBase64, base64_encoded};
ghost use Rattle.it_base.specs.Sequence.{IsList};
ghost use Rattle.it_base.specs.Writing.{AppendsBeginning};
ghost use Rattle.it_dsse.specs.Envelope.{EnvelopeOf, IsEnvelope, IsSignature};
ghost use Rattle.it_dsse.specs.Written.{document_of, signature_document, signatures_document};
ghost use Rattle.it_dsse.specs.Written.{written_form};
ghost use Rattle.it_dsse.specs.declared.written.WriteFault.TheVariants as fault;

use crate::envelope::{Envelope, Signature};
use it_base::base64_text::base64_text_of;
use it_base::writing::{WriteError, write_all_of};
use serde_json::{Map, Value, put};
use std::alloc::{AllocError, Global};
use std::io::Write;

/// Why an envelope was not fully written.
#[derive(Clone, Copy, Debug, PartialEq, Eq)]
pub enum WriteFault {
    /// The writer returned an error, or accepted nothing.
    Write,
    /// Memory was refused.
    OutOfMemory,
}

impl From<AllocError> for WriteFault {
    ghost from_gives = { λ _ e. e ≡ fault.OutOfMemory };

    fn from(_e: AllocError) -> WriteFault {
        WriteFault::OutOfMemory
    }
}

impl From<WriteError> for WriteFault {
    ghost from_gives = { λ _ e. e ≡ fault.Write };

    fn from(_e: WriteError) -> WriteFault {
        WriteFault::Write
    }
}

impl Envelope {
    /// Writes the envelope as compact JSON (DSSE v1.0, "Envelope", its JSON form), with no line
    /// feed after it: its members in the order of their names' bytes, payload and signatures as
    /// base64 in the standard alphabet with padding, and an empty hint as an empty text. It reads
    /// back as the same envelope.
    ///
    /// # Errors
    ///
    /// `Write` where the writer returned an error, or 0 for bytes that it was given; part of the
    /// text may have been written, and no write was retried. `OutOfMemory` where memory was
    /// refused; nothing was written.
    pub fn write<W: Write>(&self, alloc: Global, out: &mut W) -> Result<(), WriteFault>
        ensures ok { OnOk result
            (Appends (W.contents out.old) (W.contents out.new) (written_form self.now)) }
        ensures written_reads { OnOk result (EnvelopeOf (written_form self.now) self.now) }
        ensures write { IsErrOf result WriteFault.Write
            → AppendsBeginning (W.contents out.old) (W.contents out.new) (written_form self.now) }
        ensures memory { IsErrOf result WriteFault.OutOfMemory → out.new ≡ out.old }
    {
        let value = envelope_value(alloc, self)?;
        let text = value.to_string(alloc)?;
        write_all_of(out, text.as_bytes())?;
        Ok(())
    }
}

fn envelope_value(alloc: Global, envelope: &Envelope) -> Result<Value, AllocError>
    ensures document { IfOk result (λ value. view value ≡ document_of envelope.now) }
    ensures reads_back { IfOk result (λ value. IsEnvelope (view value) envelope.now) }
{
    let mut members = Map::new(alloc);
    let payload = base64_value(alloc, envelope.payload.as_slice())?;
    put(&mut members, alloc, "payload", payload)?;
    let payload_type = Value::try_from_str(alloc, envelope.payload_type.as_str())?;
    put(&mut members, alloc, "payloadType", payload_type)?;
    let signatures = signatures_value(alloc, envelope.signatures.as_slice())?;
    put(&mut members, alloc, "signatures", signatures)?;
    Ok(Value::from(members))
}

fn signatures_value(alloc: Global, signatures: &[Signature]) -> Result<Value, AllocError>
    ensures document { IfOk result (λ value. view value ≡ signatures_document signatures.now) }
    ensures reads_back { IfOk result
        (λ value. IsList IsSignature (view value) signatures.now) }
{
    let mut values = Vec::new(alloc);
    for signature in signatures {
        values.push(signature_value(alloc, signature)?)?;
    }
    Ok(Value::from(values))
}

fn signature_value(alloc: Global, signature: &Signature) -> Result<Value, AllocError>
    ensures document { IfOk result (λ value. view value ≡ signature_document signature.now) }
    ensures reads_back { IfOk result (λ value. IsSignature (view value) signature.now) }
{
    let mut members = Map::new(alloc);
    let keyid = Value::try_from_str(alloc, signature.keyid.as_str())?;
    put(&mut members, alloc, "keyid", keyid)?;
    let sig = base64_value(alloc, signature.sig.as_slice())?;
    put(&mut members, alloc, "sig", sig)?;
    Ok(Value::from(members))
}

fn base64_value(alloc: Global, bytes: &[u8]) -> Result<Value, AllocError>
    ensures document { IfOk result (λ value. view value ≡ string (base64_encoded bytes.now)) }
    ensures reads_back { IfOk result (λ value. IsBase64 (view value) bytes.now) }
{
    let text = base64_text_of(alloc, bytes)?;
    Ok(Value::from(text))
}
