//! Why a layout was not read.
ghost use Rattle.std.specs.Prelude.{◌≡◌};
ghost use Rattle.it_docs.specs.declared.layout_fault.LayoutFault.TheVariants.{OutOfMemory};

use it_base::text::Text;
use std::alloc::AllocError;

/// A part of a layout that can fail, in the order in which parts are checked.
#[derive(Drop)]
pub enum LayoutPart {
    /// The document is not a JSON object.
    Json,
    /// `_type` is not `layout`.
    WrongType,
    /// `expires` is not a moment.
    Expires,
    /// `keys` is not an object from id to key object.
    Keys,
    /// `steps` is not a list.
    Steps,
    /// The step at this index, from 0, is not a step.
    Step(usize),
    /// `inspect` is not a list.
    Inspects,
    /// The inspection at this index, from 0, is not an inspection.
    Inspect(usize),
    /// This name is the first that equals an earlier one, steps before inspections.
    DuplicateName(Text),
}

/// Why no layout was read.
#[derive(Drop)]
pub enum LayoutFault {
    /// This part is the first that fails.
    BadLayout(LayoutPart),
    /// Memory was refused.
    OutOfMemory,
}

impl From<AllocError> for LayoutFault {
    ghost from_gives = { λ _ e. e ≡ OutOfMemory };

    fn from(_e: AllocError) -> LayoutFault {
        LayoutFault::OutOfMemory
    }
}
