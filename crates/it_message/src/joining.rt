//! Messages in parts, as one.
ghost use Rattle.std.specs.Prelude.{◌≡◌, IfOk};
ghost use Rattle.it_message.specs.Message.{joined};

use std::alloc::{AllocError, Global};

/// The message that the parts make, one after another.
///
/// # Errors
///
/// `AllocError` where memory was refused.
pub fn join(alloc: Global, parts: &[&[u8]]) -> Result<Vec<u8>, AllocError>
    ensures { IfOk result (λ message. message.items ≡ joined parts.now) }
{
    let mut message = Vec::new(alloc);
    for part in parts {
        message.extend_from_slice(part)?;
    }
    Ok(message)
}
