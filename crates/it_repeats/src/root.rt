//! The documents that have findings.
ghost use Rattle.std.specs.Prelude.{◌≡◌};
ghost use Rattle.it_repeats.specs.Parts.{root_part};

use crate::part::Part;

/// A document in which members that come again are found.
#[derive(Clone, Copy)]
pub enum Root {
    /// A policy.
    Policy,
    /// The body of a layout.
    Layout,
}

impl Root {
    /// The part that the whole document is. Takes no memory.
    pub(crate) fn part(self) -> Part
        ensures { result ≡ root_part self }
    {
        match self {
            Root::Policy => Part::Policy,
            Root::Layout => Part::Layout,
        }
    }
}
