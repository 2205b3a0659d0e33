//! A law about salts: a function that does nothing, and whose contract says what is true of every
//! signature.
ghost use Rattle.it_rsa_forms.specs.Laws.{SaltOf32IsTaken};

/// A signature with a salt of 32 bytes is one that `it_rsa` takes.
pub fn salt_of_32_is_taken()
    ensures { SaltOf32IsTaken }
{}
