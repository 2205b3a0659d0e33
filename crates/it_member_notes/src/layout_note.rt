//! Notes on what a layout asks for.
ghost use Rattle.std.specs.Prelude.{◌≡◌, IfOk};

use crate::rule_list_note::RuleListNote;
use it_base::text::Text;
use it_docs::rule::Side;
use std::alloc::{AllocError, Global};

/// A step or an inspection of a layout.
#[derive(Drop)]
pub enum Item {
    /// The step of this name.
    Step(Text),
    /// The inspection of this name.
    Inspection(Text),
}

/// Something that a layout asks for, and that may not be what its author meant.
#[derive(Drop)]
pub enum LayoutNote {
    /// Something about a list of rules.
    Rules {
        /// Whose rules they are.
        item: Item,
        /// The side that the rules judge.
        side: Side,
        /// The note.
        note: RuleListNote,
    },
    /// A key id may sign for a step, and the layout has no key object for it.
    NoKeyObject {
        /// The name of the step.
        step: Text,
        /// The key id.
        id: Text,
    },
}

impl Item {
    /// A copy of the item, in memory of `alloc`.
    ///
    /// # Errors
    ///
    /// `AllocError` where memory was refused.
    pub fn copy(&self, alloc: Global) -> Result<Item, AllocError>
        ensures { IfOk result (λ copy. copy ≡ self.now) }
    {
        Ok(match self {
            Item::Step(name) => Item::Step(Text::copy(alloc, name.as_str())?),
            Item::Inspection(name) => Item::Inspection(Text::copy(alloc, name.as_str())?),
        })
    }
}
