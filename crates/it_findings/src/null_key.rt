//! Key objects that are null, and where they are.
ghost use Rattle.std.specs.Prelude.{◌≡◌, IfOk};

use it_base::text::Text;
use std::alloc::{AllocError, Global};

/// A list of key objects under their ids (in-toto 1.0 section 4.2), in a policy or a layout. Places
/// count from 0.
#[derive(Clone, Copy)]
pub enum KeyList {
    /// The owners of a policy.
    Owners,
    /// The keys of a builder.
    OfBuilder {
        /// The place of its expectation in the policy.
        expectation: usize,
        /// Its place in the expectation.
        builder: usize,
    },
    /// The keys of a layout.
    OfLayout,
}

/// A key id under which null stands in place of a key object, so that it counts as missing.
#[derive(Drop)]
pub struct NullKey {
    /// The list.
    pub list: KeyList,
    /// The id.
    pub id: Text,
}

impl NullKey {
    /// A copy, in memory of `alloc`.
    ///
    /// # Errors
    ///
    /// `AllocError` where memory was refused.
    pub fn copy(&self, alloc: Global) -> Result<NullKey, AllocError>
        ensures { IfOk result (λ copy. copy ≡ self.now) }
    {
        Ok(NullKey {
            list: self.list,
            id: Text::copy(alloc, self.id.as_str())?,
        })
    }
}
