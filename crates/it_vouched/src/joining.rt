//! Messages in parts.
ghost use Rattle.std.specs.Prelude.{◌≡◌};
ghost use Rattle.std.specs.Str.{bytes_eq};
ghost use Rattle.it_message.specs.Message.{joined};

/// Whether the parts, one after another, make the message. Takes no memory.
pub(crate) fn is_joined(message: &[u8], parts: &[&[u8]]) -> bool
    ensures { result ≡ bytes_eq message.now (joined parts.now) }
{
    let mut rest = message;
    for part in parts {
        match rest.strip_prefix(part) {
            Some(after) => rest = after,
            None => return false,
        }
    }
    rest.is_empty()
}
