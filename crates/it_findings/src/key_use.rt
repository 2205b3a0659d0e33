//! A key that a policy lists, with its holder.

use crate::listed_key::ListedKey;
use crate::place::KeyPlace;
use crate::shared_key::Holder;

/// A key, and whose it is.
#[derive(Drop)]
pub struct KeyUse {
    /// The place of its object.
    pub place: KeyPlace,
    /// Its holder.
    pub holder: Holder,
    /// The key.
    pub key: ListedKey,
}
