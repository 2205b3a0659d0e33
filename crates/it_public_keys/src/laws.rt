//! Laws about the definitions of public keys: functions that do nothing, and whose contracts say
//! what was proved.
ghost use Rattle.it_public_keys.specs.Laws.{NoRingKnowsPublicKeys};
ghost use Rattle.it_public_keys.specs.Laws.{PublicKeyCheckKnowsNoSecrets, TestIsSignature};

/// A check's test of a signature is true exactly of the key's signatures of the message.
pub fn test_is_signature()
    ensures { TestIsSignature }
{}

/// No ring of secrets knows an object that describes a public key.
pub fn no_ring_knows_public_keys()
    ensures { NoRingKnowsPublicKeys }
{}

/// The check of public keys knows no object of a ring's scheme.
pub fn public_key_check_knows_no_secrets()
    ensures { PublicKeyCheckKnowsNoSecrets }
{}
