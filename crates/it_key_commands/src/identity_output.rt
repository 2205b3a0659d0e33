//! `itv key --identity`: a file of keys, made from an identity.
ghost use Rattle.std.specs.Prelude.{◌≡◌, ◌≢◌, IfErr, IfOk, IsErrOf, option_map};
ghost use Rattle.std.specs.Io.KnownBytes.{Appends};
ghost use Rattle.it_base.specs.Writing.{AppendsBeginning};
ghost use Rattle.it_outcome.specs.Outcome.{IsOutputFault};
ghost use Rattle.it_key_commands.specs.IdentityOutput.{IsIdentityOutput, identity_object};

use crate::key_output::keys_of;
use crate::keys_file::keys_text;
use it_base::text::Text;
use it_dsse::key_object::KeyObject;
use it_outcome::output::put_text;
use it_outcome::{RunFault, Status};
use std::alloc::{AllocError, Global};
use std::io::Write;

/// Writes the file of the key object of an identity (TAP 18): one JSON object, compact, and a line
/// feed. The identity is `name`, as a certificate names who signs, and `issuer`, who says so. Its
/// key object stands under its own id, which is formed as that of a public key is, or under `id`,
/// if one is given. What is written reads back as this object. The answer is `Good`.
///
/// # Errors
///
/// `OutOfMemory` where memory was refused; nothing went out. `Write` where the output could not be
/// written; a beginning of it went out.
pub fn run_identity<W: Write>(
    alloc: Global,
    name: &str,
    issuer: &str,
    id: Option<&str>,
    out: &mut W,
) -> Result<Status, RunFault>
    ensures ok { IfOk result (λ status. (status ≡ Status.Good) × (text : _)
        × IsIdentityOutput name.now issuer.now (option_map (λ text. text.now) id.entry) text
        × Appends (W.contents out.old) (W.contents out.new) text) }
    ensures write { IsErrOf result RunFault.Write → (text : _)
        × IsIdentityOutput name.now issuer.now (option_map (λ text. text.now) id.entry) text
        × AppendsBeginning (W.contents out.old) (W.contents out.new) text }
    ensures nothing { IfErr result (λ fault. fault ≢ RunFault.Write → out.new ≡ out.old) }
    ensures faults { IfErr result IsOutputFault }
{
    let text = identity_text(alloc, name, issuer, id)?;
    put_text(out, text.as_slice())
}

/// The text of the file of the identity's key object.
fn identity_text(
    alloc: Global,
    name: &str,
    issuer: &str,
    id: Option<&str>,
) -> Result<Vec<u8>, AllocError>
    ensures { IfOk result (λ text. IsIdentityOutput name.now issuer.now
        (option_map (λ text. text.now) id.entry) text.items) }
{
    let object = identity_object(alloc, name, issuer)?;
    let keys = keys_of(alloc, vec![in alloc; object]?, id)?;
    let text = keys_text(alloc, &keys)?;
    Ok(text)
}

/// The key object of an identity.
fn identity_object(alloc: Global, name: &str, issuer: &str) -> Result<KeyObject, AllocError>
    ensures { IfOk result (λ object. object ≡ identity_object name.now issuer.now) }
{
    Ok(KeyObject {
        keytype: Text::copy(alloc, "sigstore-oidc")?,
        scheme: Text::copy(alloc, "Fulcio")?,
        public: Text::copy(alloc, "")?,
        identity: Text::copy(alloc, name)?,
        issuer: Text::copy(alloc, issuer)?,
    })
}
