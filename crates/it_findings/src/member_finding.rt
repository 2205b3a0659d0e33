//! Findings on members.
ghost use Rattle.std.specs.Prelude.{◌≡◌, IfOk};

use crate::place::{KeyPlace, Place};
use it_base::text::Text;
use it_repeats::repeated_member::RepeatedMember;
use it_repeats::root::Root;
use std::alloc::{AllocError, Global};

/// Something about a member of a policy or a layout that may not be what its author meant.
#[derive(Drop)]
pub enum MemberFinding {
    /// A member that comes again in its object, so that it does not count.
    Repeated {
        /// The document that has the object.
        root: Root,
        /// The member.
        member: RepeatedMember,
    },
    /// A member that is not looked at, and that no standard knows.
    Unread {
        /// The place of the object that has the member.
        place: Place,
        /// The name of the member.
        name: Text,
    },
    /// The `keyval` of the key object at this place has a private key.
    PrivateKey(KeyPlace),
}

impl MemberFinding {
    /// A copy, in memory of `alloc`.
    ///
    /// # Errors
    ///
    /// `AllocError` where memory was refused.
    pub fn copy(&self, alloc: Global) -> Result<MemberFinding, AllocError>
        ensures { IfOk result (λ copy. copy ≡ self.now) }
    {
        Ok(match self {
            MemberFinding::Repeated { root, member } => MemberFinding::Repeated {
                root: *root,
                member: member.copy(alloc)?,
            },
            MemberFinding::Unread { place, name } => MemberFinding::Unread {
                place: place.copy(alloc)?,
                name: Text::copy(alloc, name.as_str())?,
            },
            MemberFinding::PrivateKey(key) => MemberFinding::PrivateKey(key.copy(alloc)?),
        })
    }
}
