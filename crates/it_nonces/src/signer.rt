//! Whose signatures count.
ghost use Rattle.std.specs.Prelude.{◌≡◌, IfOk};

use it_base::sequence::Sequence;
use it_base::text::Text;
use std::alloc::{AllocError, Global};

/// As what somebody signs.
#[derive(Drop)]
pub enum Role {
    /// As an owner of the policy.
    Owner,
    /// As a functionary of a step of a layout.
    Functionary {
        /// The sublayouts down to the layout, the outermost first: each by the name of its step and
        /// the key id that signed it. Empty for the outermost layout.
        at: Sequence<(Text, Text)>,
        /// The name of the step.
        step: Text,
    },
}

/// Somebody who signs.
#[derive(Drop)]
pub struct Signer {
    /// As what.
    pub role: Role,
    /// The key id, or the id of the owner.
    pub id: Text,
}

impl Signer {
    /// A copy, in memory of `alloc`.
    ///
    /// # Errors
    ///
    /// `AllocError` where memory was refused.
    pub fn copy(&self, alloc: Global) -> Result<Signer, AllocError>
        ensures { IfOk result (λ copy. copy ≡ self.now) }
    {
        Ok(Signer {
            role: self.role.copy(alloc)?,
            id: Text::copy(alloc, self.id.as_str())?,
        })
    }
}

impl Role {
    /// A copy, in memory of `alloc`.
    ///
    /// # Errors
    ///
    /// `AllocError` where memory was refused.
    pub fn copy(&self, alloc: Global) -> Result<Role, AllocError>
        ensures { IfOk result (λ copy. copy ≡ self.now) }
    {
        match self {
            Role::Owner => Ok(Role::Owner),
            Role::Functionary { at, step } => {
                Role::functionary(alloc, at.as_slice(), step.as_str())
            }
        }
    }

    /// That of a functionary of a step of the layout at a place.
    ///
    /// # Errors
    ///
    /// `AllocError` where memory was refused.
    pub fn functionary(alloc: Global, at: &[(Text, Text)], step: &str) -> Result<Role, AllocError>
        ensures { IfOk result (λ role. role ≡ Role.Functionary at.now step.now) }
    {
        let at = copied_place(alloc, at)?;
        let step = Text::copy(alloc, step)?;
        Ok(Role::Functionary { at, step })
    }
}

/// A copy of the place of a layout, in memory of `alloc`: the sublayouts down to it.
///
/// # Errors
///
/// `AllocError` where memory was refused.
pub fn copied_place(
    alloc: Global,
    at: &[(Text, Text)],
) -> Result<Sequence<(Text, Text)>, AllocError>
    ensures { IfOk result (λ copy. copy ≡ at.now) }
{
    let mut copy = Vec::new(alloc);
    for (step, id) in at {
        let step = Text::copy(alloc, step.as_str())?;
        let id = Text::copy(alloc, id.as_str())?;
        copy.push((step, id))?;
    }
    Ok(Sequence::from(copy))
}
