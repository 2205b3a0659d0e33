//! Who signed the provenance of a file, where lines vouch for it.
ghost use Rattle.std.specs.Prelude.{◌≡◌, IfOk, option_map};
ghost use Rattle.std.specs.FinMap.{entries};
ghost use Rattle.it_file_evidence.specs.Signer.{first_answer, object_for, object_of};
ghost use Rattle.it_file_evidence.specs.Signer.{object_signing, signer_among, signer_of};
ghost use Rattle.it_file_evidence.specs.inside.Asked.{signer_asked};

use it_base::text::Text;
use it_docs::policy::Builder;
use it_dsse::envelope::{Envelope, Signature};
use it_dsse::key_object::KeyObject;
use it_dsse::pae;
use it_identity::Identity;
use it_json_report::evidence::Signer;
use it_vouched::{Vouched, describes};
use std::alloc::{AllocError, Global};

/// What is asked about an envelope.
#[derive(Drop)]
pub(crate) struct Asked<'a> {
    /// The builders that may have signed it.
    pub(crate) builders: &'a [Builder],
    /// The id of those that are meant.
    pub(crate) id: &'a str,
    /// What its signatures sign.
    pub(crate) message: &'a [u8],
    /// Its signatures.
    pub(crate) signatures: &'a [Signature],
}

/// Who signed an envelope by the first line that vouches for it: an identity of a builder of an id.
/// `None` where no line does.
///
/// # Errors
///
/// `AllocError` where memory was refused.
pub(crate) fn signer_in(
    alloc: Global,
    vouched: &[Vouched],
    builders: &[Builder],
    id: &str,
    envelope: &Envelope,
) -> Result<Option<Signer>, AllocError>
    ensures { IfOk result
        (λ signer. signer ≡ signer_among vouched.now builders.now id.now envelope.now) }
{
    if vouched.is_empty() {
        return Ok(None);
    }
    let kind = envelope.payload_type.as_str();
    let message = pae(alloc, kind, envelope.payload.as_slice())?;
    let asked = Asked {
        builders,
        id,
        message: message.as_slice(),
        signatures: envelope.signatures.as_slice(),
    };
    signer_by_lines(alloc, vouched, &asked)
}

fn signer_by_lines(
    alloc: Global,
    vouched: &[Vouched],
    asked: &Asked<'_>,
) -> Result<Option<Signer>, AllocError>
    ensures { IfOk result (λ signer. signer ≡ first_answer (signer_asked asked.now) vouched.now) }
{
    for line in vouched {
        if let Some(object) = object_by_line(line, asked) {
            return Ok(Some(signer_of(alloc, object, line.time)?));
        }
    }
    Ok(None)
}

/// The signer whom an object describes.
fn signer_of(alloc: Global, object: &KeyObject, time: u64) -> Result<Signer, AllocError>
    ensures { IfOk result (λ signer. signer ≡ signer_of time object.now) }
{
    Ok(Signer {
        identity: Text::copy(alloc, object.identity.as_str())?,
        issuer: Text::copy(alloc, object.issuer.as_str())?,
        logged_at: time,
    })
}

/// The object of the identity for which a line vouches with the message and a signature.
fn object_by_line<'a>(line: &Vouched, asked: &Asked<'a>) -> Option<&'a KeyObject>
    ensures { option_map (λ object. object.now) result ≡ first_answer
        (object_signing asked.now.builders.now asked.now.id.now asked.now.message.now line.now)
        asked.now.signatures.now }
{
    for signature in asked.signatures {
        if let Some(object) = object_by_signature(line, signature, asked) {
            return Some(object);
        }
    }
    None
}

/// The same, with one of the signatures.
fn object_by_signature<'a>(
    line: &Vouched,
    signature: &Signature,
    asked: &Asked<'a>,
) -> Option<&'a KeyObject>
    ensures { option_map (λ object. object.now) result ≡ object_signing asked.now.builders.now
        asked.now.id.now asked.now.message.now line.now signature.now }
{
    if line.signature.as_slice() == signature.sig.as_slice()
        && line.message.as_slice() == asked.message
    {
        return object_of_builders(asked.builders, asked.id, signature, &line.identity);
    }
    None
}

/// The object of the first key of a builder of an id that is an identity, and for whose id a
/// signature is admitted.
fn object_of_builders<'a>(
    builders: &'a [Builder],
    id: &str,
    signature: &Signature,
    identity: &Identity,
) -> Option<&'a KeyObject>
    ensures { option_map (λ object. object.now) result
        ≡ first_answer (object_of id.now signature.now identity.now) builders.now }
{
    for builder in builders {
        if let Some(object) = object_of_builder(builder, id, signature, identity) {
            return Some(object);
        }
    }
    None
}

/// The same of one builder.
fn object_of_builder<'a>(
    builder: &'a Builder,
    id: &str,
    signature: &Signature,
    identity: &Identity,
) -> Option<&'a KeyObject>
    ensures { option_map (λ object. object.now) result
        ≡ object_of id.now signature.now identity.now builder.now }
{
    if builder.id.as_str() != id {
        return None;
    }
    object_among_keys(builder, signature, identity)
}

/// The same, whatever the builder's id is.
fn object_among_keys<'a>(
    builder: &'a Builder,
    signature: &Signature,
    identity: &Identity,
) -> Option<&'a KeyObject>
    ensures { option_map (λ object. object.now) result
        ≡ first_answer (object_for signature.now identity.now) (entries builder.now.keys) }
{
    for (id, object) in builder.keys.iter() {
        if signature.is_admitted(id.as_str()) && describes(object, identity) {
            return Some(object);
        }
    }
    None
}
