//! Signatures that were made elsewhere.
ghost use Rattle.std.specs.Prelude.{◌≡◌, ◌≢◌, IfErr, IfOk, OnOk};
ghost use Rattle.it_key_commands.specs.SignMadeOutput.{IsMadeUnder, IsSignMadeFault};
ghost use Rattle.it_key_commands.specs.SignMadeOutput.{made_signature};

use crate::fault::KeyFault;
use crate::signature_flaw::signature_flaw;
use crate::signer::is_signature;
use it_base::sequence::Sequence;
use it_base::table::Table;
use it_base::text::Text;
use it_dsse::envelope::Signature;
use it_dsse::key_object::KeyObject;
use it_dsse::pae;
use it_outcome::RunFault;
use std::alloc::{AllocError, Global};

/// A signature that was made elsewhere, with its body and its key's id.
#[derive(Clone, Copy)]
pub struct MadeSignature<'a> {
    /// The id of the key, which becomes the signature's hint.
    pub id: &'a str,
    /// The type of the body, such as `application/vnd.in-toto+json`.
    pub kind: &'a str,
    /// The body itself.
    pub body: &'a [u8],
    /// The signature's bytes, in the form of the key's scheme: 64 bytes for Ed25519.
    pub signature: &'a [u8],
}

impl MadeSignature<'_> {
    /// Checks that this is a signature of the body by the key that `objects` has under the id.
    pub(crate) fn check(&self, alloc: Global, objects: &Table<KeyObject>) -> Result<(), KeyFault>
        ensures ok { let m = self.now in OnOk result
            (IsMadeUnder objects.now m.id.now m.kind.now m.body.now m.signature.now) }
        ensures err { let m = self.now in IfErr result
            (IsSignMadeFault objects.now m.id.now m.kind.now m.body.now m.signature.now) }
        ensures unwritten { IfErr result (λ fault. fault ≢ KeyFault.Run RunFault.Write) }
    {
        let Some(object) = objects.get(self.id) else {
            return Err(KeyFault::UnknownId);
        };
        let message = pae(alloc, self.kind, self.body)?;
        if is_signature(object, message.as_slice(), self.signature)? {
            return Ok(());
        }
        let flaw = signature_flaw(alloc, object, self, message.as_slice())?;
        Err(KeyFault::BadSignature(flaw))
    }

    /// The signature as an envelope holds it.
    pub(crate) fn in_envelope(&self, alloc: Global) -> Result<Signature, AllocError>
        ensures { let m = self.now in IfOk result
            (λ signature. signature ≡ made_signature m.id.now m.signature.now) }
    {
        Ok(Signature {
            keyid: Text::copy(alloc, self.id)?,
            sig: Sequence::from(Vec::from_slice(alloc, self.signature)?),
        })
    }
}
