//! Keys with more than one holder.
ghost use Rattle.std.specs.Prelude.{◌≡◌, ◌↔◌, IfOk, IsTrue};

use crate::place::KeyPlace;
use it_base::text::Text;
use std::alloc::{AllocError, Global};

/// Whose a key is.
#[derive(Drop)]
pub enum Holder {
    /// The owner with this id.
    Owner(Text),
    /// A builder.
    Builder {
        /// Its id.
        id: Text,
        /// The level that it is trusted to reach.
        level: u8,
    },
}

/// A key that an earlier holder has as well.
#[derive(Drop)]
pub struct SharedKey {
    /// The place of its object.
    pub place: KeyPlace,
    /// Its holder there.
    pub holder: Holder,
    /// The first of its holders.
    pub first: Holder,
}

impl Holder {
    /// A copy, in memory of `alloc`.
    ///
    /// # Errors
    ///
    /// `AllocError` where memory was refused.
    pub fn copy(&self, alloc: Global) -> Result<Holder, AllocError>
        ensures { IfOk result (λ copy. copy ≡ self.now) }
    {
        Ok(match self {
            Holder::Owner(id) => Holder::Owner(Text::copy(alloc, id.as_str())?),
            Holder::Builder { id, level } => Holder::Builder {
                id: Text::copy(alloc, id.as_str())?,
                level: *level,
            },
        })
    }

    /// Whether it is the same holder. Takes no memory.
    pub fn is_same(&self, other: &Holder) -> bool
        ensures { IsTrue result ↔ (self.now ≡ other.now) }
    {
        match (self, other) {
            (Holder::Owner(id), Holder::Owner(other_id)) => id.as_str() == other_id.as_str(),
            (
                Holder::Builder { id, level },
                Holder::Builder {
                    id: other_id,
                    level: other_level,
                },
            ) => id.as_str() == other_id.as_str() && *level == *other_level,
            _ => false,
        }
    }
}
