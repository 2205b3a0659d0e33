//! Which keys are made for many signatures.
ghost use Rattle.std.specs.Prelude.{◌≡◌};

use crate::named_key::NamedKey;
use std::alloc::Global;
use std::cell::Cell;

/// How many keys are made for many signatures at most, those that are found first: together they
/// take less than 3 megabytes.
const MOST: usize = 64;

/// How many more keys are made for many signatures.
#[derive(Drop)]
pub(crate) struct ForMany {
    left: Cell<usize>,
}

impl ForMany {
    /// None is made yet.
    pub(crate) fn new() -> ForMany {
        ForMany {
            left: Cell::new(MOST),
        }
    }

    /// The same key, made for many signatures while few are.
    pub(crate) fn made(&self, alloc: Global, key: NamedKey) -> NamedKey
        ensures { result ≡ key }
    {
        match self.left.get().checked_sub(1) {
            Some(left) => {
                self.left.set(left);
                key.for_many(alloc)
            }
            None => key,
        }
    }
}
