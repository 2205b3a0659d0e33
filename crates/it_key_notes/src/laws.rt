//! A law about the definitions of notes on key objects: a function that does nothing, and whose
//! contract says what was proved.
ghost use Rattle.it_key_notes.specs.Laws.{AskedKeysAreKnown};

/// Where public keys are checked, there is no note on an object that describes one: that they
/// should be checked is said only where no check knows the object.
pub fn asked_keys_are_known()
    ensures { AskedKeysAreKnown }
{}
