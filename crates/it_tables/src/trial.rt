//! What the documents of tables are tried with.
ghost use Rattle.std.specs.Prelude.{IfOk, Option, String};
ghost use Rattle.std.specs.declared.alloc.Global.{Global};
ghost use Rattle.serde_json.specs.Data.{Data};
ghost use Rattle.serde_json.specs.View.{view};

use crate::row_fault::RowFault;
use serde_json::Value;
use std::alloc::Global;

/// Tries the documents of tables.
pub trait Trial {
    // how a document differs from what it wants: nothing where it agrees
    ghost is_difference: { Data → Option (String Global) → Type 0 };

    /// How a document differs from what it wants, in words, or `None` where it agrees.
    ///
    /// # Errors
    ///
    /// Says why the document is not tried: a member is missing or unfit, its call is unknown, or
    /// memory was refused.
    fn difference(&self, alloc: Global, document: &Value) -> Result<Option<String>, RowFault>
        ensures { IfOk result (is_difference (view document.now)) };
}
