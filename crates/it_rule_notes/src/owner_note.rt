//! Which owners of a policy signed the layout.
ghost use Rattle.std.specs.FinMap.{entries};
ghost use Rattle.std.specs.List.{AllZip};
ghost use Rattle.std.specs.Prelude.{◌≡◌, ◌++◌, All, IfOk, OnOk};
ghost use Rattle.it_dsse.specs.Signed.{IsSigner};
ghost use Rattle.it_rule_notes.specs.Owner.{IsOnOwner, TellsOwner, owner_line, signed_as_line};

use crate::line::push_told;
use it_base::table::Table;
use it_base::text::Text;
use it_dsse::checks::Checks;
use it_dsse::envelope::Envelope;
use it_dsse::is_signer;
use it_dsse::key_object::KeyObject;
use it_dsse::meter::Meter;
use it_hints::signed_as::{NamedKey, keyid_signed_as};
use std::alloc::{AllocError, Global};

/// Whether an owner signed the layout's envelope.
#[derive(Drop)]
pub enum OwnerNote {
    /// The key of the owner with this id signed the envelope.
    Signed(Text),
    /// The key of the owner with this id did not sign the envelope.
    Unsigned(Text),
    /// The key of an owner made a signature of the envelope that is not tried for the owner's id.
    SignedAs {
        /// The id of the owner.
        id: Text,
        /// The key id that the signature names.
        keyid: Text,
    },
}

/// Says for each owner, in byte order of the ids, whether the owner's key signed the envelope of
/// the layout (in-toto 1.0, section 5.2), and if it did not, whether it did under another key id
/// that the signatures name.
///
/// `owners` are the key objects of a policy's owners under their ids, and the `checks` check the
/// signatures. The answer has one note for each owner.
///
/// # Errors
///
/// `AllocError` where memory was refused.
pub fn owner_notes<C: Checks>(
    alloc: Global,
    owners: &Table<KeyObject>,
    envelope: &Envelope,
    checks: &C,
) -> Result<Vec<OwnerNote>, AllocError>
    ensures each { IfOk result (λ notes. AllZip
        (IsOnOwner (C.panel checks.now) envelope.now)
        (entries owners.now) notes.items) }
    ensures told { IfOk result (λ notes. All
        (TellsOwner (C.panel checks.now) envelope.now owners.now) notes.items) }
{
    let mut notes = Vec::new(alloc);
    for (id, object) in owners.iter() {
        notes.push(owner_note(alloc, id.as_str(), object, envelope, checks)?)?;
    }
    Ok(notes)
}

/// Says whether the key with this id and object signed the envelope.
fn owner_note<C: Checks>(
    alloc: Global,
    id: &str,
    object: &KeyObject,
    envelope: &Envelope,
    checks: &C,
) -> Result<OwnerNote, AllocError>
    ensures { IfOk result (IsOnOwner (C.panel checks.now) envelope.now
        (id.now, object.now)) }
{
    let mut meter = Meter { asked: 0 };
    let signed = is_signer(envelope, id, object, checks, &mut meter)?;
    if signed {
        Ok(OwnerNote::Signed(Text::copy(alloc, id)?))
    } else {
        unsigned_note(alloc, id, object, envelope, checks)
    }
}

/// Says under which other key id, if any, the key with this id and object made a signature.
fn unsigned_note<C: Checks>(
    alloc: Global,
    id: &str,
    object: &KeyObject,
    envelope: &Envelope,
    checks: &C,
) -> Result<OwnerNote, AllocError>
    requires { ¬ IsSigner (C.panel checks.now) envelope.now object.now id.now }
    ensures { IfOk result (IsOnOwner (C.panel checks.now) envelope.now
        (id.now, object.now)) }
{
    let mut meter = Meter { asked: 0 };
    let key = NamedKey { id, object };
    let found = keyid_signed_as(alloc, envelope, &key, checks, &mut meter)?;
    let id = Text::copy(alloc, id)?;
    match found {
        None => Ok(OwnerNote::Unsigned(id)),
        Some(keyid) => Ok(OwnerNote::SignedAs {
            id,
            keyid: Text::copy(alloc, keyid)?,
        }),
    }
}

impl OwnerNote {
    /// Appends the note as a line for people.
    ///
    /// # Errors
    ///
    /// `AllocError` where memory was refused; a part of the line may have been appended then.
    pub fn push_line(&self, text: &mut Vec<u8>) -> Result<(), AllocError>
        ensures { OnOk result (text.new.items ≡ text.old.items ++ owner_line self.now) }
    {
        match self {
            OwnerNote::Signed(id) => push_told(text, "layout: owner ", id, " signed the layout\n"),
            OwnerNote::Unsigned(id) => {
                push_told(text, "layout: owner ", id, " did not sign the layout\n")
            }
            OwnerNote::SignedAs { id, keyid } => push_signed_as(text, id, keyid),
        }
    }
}

/// Appends that the key of an owner signed the layout under another key id.
#[tactic(auto, unfolding(crate::specs::Owner::signed_as_line))]
fn push_signed_as(text: &mut Vec<u8>, id: &Text, keyid: &Text) -> Result<(), AllocError>
    ensures { OnOk result
        (text.new.items ≡ text.old.items ++ signed_as_line id.now keyid.now) }
{
    push_told(
        text,
        "layout: the key of owner ",
        id,
        " signed the layout, ",
    )?;
    push_told(text, "but under the keyid ", keyid, "\n")
}
