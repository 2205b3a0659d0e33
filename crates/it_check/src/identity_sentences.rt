//! What is said of findings on key objects that describe identities, or are meant to.
ghost use Rattle.std.specs.Prelude.{◌≡◌, ◌++◌, OnOk};
ghost use Rattle.it_check.specs.IdentitySentence.{identity_sentence, incomplete_sentence};

use crate::writing::push_told;
use it_findings::place::KeyPlace;
use std::alloc::AllocError;

/// Appends what is said of a key object that describes an identity.
pub(crate) fn push_identity(text: &mut Vec<u8>, key: &KeyPlace) -> Result<(), AllocError>
    ensures { OnOk result (text.new.items ≡ text.old.items ++ identity_sentence key.now) }
{
    let after =
        " is an identity, whose signatures count only where a bundle in the provenance has them";
    push_told(text, "the key of ", key.id(), after)
}

/// Appends what is said of a key object that is meant to describe an identity, and describes none.
pub(crate) fn push_incomplete(text: &mut Vec<u8>, key: &KeyPlace) -> Result<(), AllocError>
    ensures { OnOk result (text.new.items ≡ text.old.items ++ incomplete_sentence key.now) }
{
    let after =
        " lacks an identity or an issuer of 1 to 512 bytes, so that no signature counts for it";
    push_told(text, "the key object of ", key.id(), after)
}
