//! The line of a note.
ghost use Rattle.std.specs.Prelude.{◌≡◌, ◌++◌, OnOk, find};
ghost use Rattle.it_signer_notes.specs.Nearest.{is_near};
ghost use Rattle.it_signer_notes.specs.SignerText.{listed_text, listing_text, signer_text};
ghost use Rattle.it_signer_notes.specs.inside.Lent.{lent};

use crate::nearest::nearest;
use it_dsse::key_object::KeyObject;
use it_identity::Identity;
use it_report::name::push_name;
use std::alloc::AllocError;

/// Appends the line of a note, which ends with a line feed, with names as `push_name` writes
/// them.
///
/// # Errors
///
/// `AllocError` where memory was refused; a part of the line may have been appended then.
pub(crate) fn push_line(
    text: &mut Vec<u8>,
    keys: &[&KeyObject],
    identity: &Identity,
) -> Result<(), AllocError>
    ensures { OnOk result
        (text.new.items ≡ text.old.items ++ signer_text (lent keys.now) identity.now) }
{
    text.extend_from_slice(b"the provenance is signed by ")?;
    push_name(text, identity.name.as_slice())?;
    text.extend_from_slice(b" of ")?;
    push_name(text, identity.issuer.as_slice())?;
    text.extend_from_slice(b", which is the key of no builder")?;
    push_listing(text, keys, identity)?;
    text.push(b'\n')?;
    Ok(())
}

/// Appends which identity the policy lists, if there is a key that is near.
fn push_listing(
    text: &mut Vec<u8>,
    keys: &[&KeyObject],
    identity: &Identity,
) -> Result<(), AllocError>
    ensures { OnOk result (text.new.items
        ≡ text.old.items ++ listing_text (find (is_near identity.now) (lent keys.now))) }
{
    let Some(key) = nearest(keys, identity) else {
        return Ok(());
    };
    push_listed(text, key)
}

/// Appends that the policy lists the identity of a key.
fn push_listed(text: &mut Vec<u8>, key: &KeyObject) -> Result<(), AllocError>
    ensures { OnOk result (text.new.items ≡ text.old.items ++ listed_text key.now) }
{
    text.extend_from_slice(b"; the policy lists ")?;
    push_name(text, key.identity.as_str().as_bytes())?;
    Ok(())
}
