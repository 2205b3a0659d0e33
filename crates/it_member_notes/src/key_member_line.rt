//! Notes on members of key objects, as lines for people.
ghost use Rattle.std.specs.Prelude.{◌≡◌, ◌++◌, OnOk};
ghost use Rattle.it_member_notes.specs.MemberLines.{key_member_line, other_key_id_form};
ghost use Rattle.it_member_notes.specs.MemberLines.{private_key_form};

use crate::key_member_note::KeyMemberNote;
use crate::place_words::push_key;
use crate::quoted::{push_quoted, push_text, push_told};
use it_findings::place::KeyPlace;
use std::alloc::{AllocError, Global};

impl KeyMemberNote {
    /// Appends the note as a line of English, which ends with a line feed. Names are written as
    /// reports write them.
    ///
    /// # Errors
    ///
    /// `AllocError` where memory was refused; a part of the line may have been appended then.
    pub fn push_line(&self, alloc: Global, out: &mut Vec<u8>) -> Result<(), AllocError>
        ensures { OnOk result (out.new.items ≡ out.old.items ++ key_member_line self.now) }
    {
        match self {
            KeyMemberNote::OtherKeyId { key, keyid } => {
                push_key(alloc, out, key)?;
                push_other_key_id(out, key, keyid.as_str())
            }
            KeyMemberNote::PrivateKey { key } => {
                push_key(alloc, out, key)?;
                push_private_key(out)
            }
        }
    }
}

fn push_other_key_id(out: &mut Vec<u8>, key: &KeyPlace, keyid: &str) -> Result<(), AllocError>
    ensures { OnOk result (out.new.items ≡ out.old.items ++ other_key_id_form key.now keyid.now) }
{
    let after = ", which is not looked at: the id that counts is ";
    push_told(out, " has the keyid ", keyid, after)?;
    push_quoted(out, key.id().as_str())?;
    push_text(out, "\n")
}

fn push_private_key(out: &mut Vec<u8>) -> Result<(), AllocError>
    ensures { OnOk result (out.new.items ≡ out.old.items ++ private_key_form) }
{
    push_text(out, ".keyval has a member \"private\" that is not empty: ")?;
    push_text(out, "a private key does not belong there, ")?;
    push_text(out, "since whoever reads it can sign with it\n")
}
