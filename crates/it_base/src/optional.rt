//! Values that may be missing.
ghost use Rattle.std.specs.Prelude.{◌≡◌, ◌++◌, [], OnOk};
ghost use Rattle.std.specs.List.{cons_option};

use std::alloc::AllocError;

/// Appends a value to the others, if there is one.
///
/// # Errors
///
/// `AllocError` where memory was refused.
pub fn push_some<T: Drop>(values: &mut Vec<T>, value: Option<T>) -> Result<(), AllocError>
    ensures { OnOk result (values.new.items ≡ values.old.items ++ cons_option value []) }
{
    if let Some(value) = value {
        values.push(value)?;
    }
    Ok(())
}
