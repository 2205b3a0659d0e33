//! Laws about the definitions of rings and envelopes: functions that do nothing, and whose
//! contracts state what is true of every ring, envelope and panel of checks.
ghost use Rattle.it_dsse.specs.Laws.{EarlierSignersStay, LastSignerSigned, NoOtherSigner, OneRing};

/// Bytes can be read as at most one ring.
pub fn one_ring()
    ensures { OneRing }
{}

/// Each key that signed an envelope, for any panel, still counts as a signer after one more
/// signature is added.
pub fn earlier_signers_stay()
    ensures { EarlierSignersStay }
{}

/// The key that adds a signature to an envelope counts as a signer, for a panel that asks the key's
/// ring first, under each key object of the ring's scheme.
pub fn last_signer_signed()
    ensures { LastSignerSigned }
{}

/// A signer of an envelope with an added signature, under an id that is not the hint of that
/// signature, signed it before, unless the hint is empty.
pub fn no_other_signer()
    ensures { NoOtherSigner }
{}
