//! The line of a note.
ghost use Rattle.std.specs.Prelude.{◌≡◌, ◌++◌, OnOk};
ghost use Rattle.it_key_notes.specs.Line.{detail_of, key_line, phrase_of};

use crate::reason::Reason;
use crate::unknown_key::UnknownKey;
use it_report::name::push_cut_name;
use std::alloc::AllocError;

impl UnknownKey {
    /// Appends the line of the note, with names as `push_cut_name` writes them.
    ///
    /// # Errors
    ///
    /// `AllocError` where memory was refused; a part of the line may have been appended then.
    #[tactic(auto, unfolding(crate::specs::Line::key_line))]
    pub fn push_line(&self, text: &mut Vec<u8>) -> Result<(), AllocError>
        ensures { OnOk result (text.new.items ≡ text.old.items ++ key_line self.now) }
    {
        text.extend_from_slice(b"key ")?;
        push_cut_name(text, self.id.as_str().as_bytes())?;
        text.extend_from_slice(phrase(&self.reason).as_bytes())?;
        push_detail(text, &self.reason)?;
        text.push(b'\n')?;
        Ok(())
    }
}

/// What is said of a key object.
fn phrase(reason: &Reason) -> &'static str
    ensures { result.now ≡ phrase_of reason.now }
{
    match reason {
        Reason::OtherScheme(_) => ": no check knows its scheme, ",
        Reason::NoSecret => ": no ring has the secret of it",
        Reason::PublicKey => ": a public key, which is checked with --public-keys",
        Reason::NoDigits => ": its public is not 64 hexadecimal digits",
        Reason::NoEd25519Key => ": its public is no Ed25519 key: no point, or one of small order",
        Reason::NoPemText => ": its public does not read as a PEM text of a public key",
        Reason::NoP256Key => {
            ": its PEM text is no P-256 key that is taken: an uncompressed point of the curve"
        }
        Reason::NoP384Key => {
            ": its PEM text is no P-384 key that is taken: an uncompressed point of the curve"
        }
        Reason::NoRsaKey => {
            ": its PEM text is no RSA key that is taken: of 2,048 to 4,096 bits, in whole bytes"
        }
        Reason::Identity => ": an identity, which is checked with --trusted-root",
        Reason::NoIdentity => ": its identity or its issuer is empty or has more than 512 bytes",
    }
}

fn push_detail(text: &mut Vec<u8>, reason: &Reason) -> Result<(), AllocError>
    ensures { OnOk result (text.new.items ≡ text.old.items ++ detail_of reason.now) }
{
    match reason {
        Reason::OtherScheme(scheme) => push_cut_name(text, scheme.as_str().as_bytes()),
        _ => Ok(()),
    }
}
