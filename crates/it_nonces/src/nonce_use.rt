//! A signature that counts, by its number r.

use crate::signer::Signer;
use it_dsse::key_name::KeyName;
use it_p256_limbs::Limbs;

/// A signature of ECDSA over P-256 that is valid for a key (FIPS 186-5, section 6.4).
#[derive(Drop)]
pub struct NonceUse {
    /// Whose it is.
    pub signer: Signer,
    /// The key for which it is valid.
    pub key: KeyName,
    /// Its number r, which follows from the nonce.
    pub r: Limbs,
}
