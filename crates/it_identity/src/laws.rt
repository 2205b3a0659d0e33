//! Laws about identities: functions that do nothing, and whose contracts say what was proved.
ghost use Rattle.it_identity.specs.Laws.{NumbersAreLarge, NumbersTellIdentities, OneIdentity};

/// A key object describes at most one identity.
pub fn one_identity()
    ensures { OneIdentity }
{}

/// Two identities that are made of bytes and have one number are one identity.
pub fn numbers_tell_identities()
    ensures { NumbersTellIdentities }
{}

/// The number of an identity is above each number of up to 1,028 bytes. Those of the keys of rings
/// have 4 bytes and those of public keys 560, so it is that of no other key.
pub fn numbers_are_large()
    ensures { NumbersAreLarge }
{}
