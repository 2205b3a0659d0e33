//! The braces of a text, each of which can begin an object.
ghost use Rattle.std.specs.Prelude.{◌≡◌};
ghost use Rattle.it_objects.specs.Objects.{braces};

/// How many of the bytes are an opening brace, `{`. Takes no memory.
pub fn braces_in(bytes: &[u8]) -> usize
    ensures { result ≡ braces bytes.now }
{
    bytes.iter().filter(|byte| **byte == b'{').count()
}
