//! What stands before the last `@` of a name, such as the workflow that an identity names without
//! the branch or tag that it ran for.
ghost use Rattle.std.specs.Prelude.{◌≡◌, option_map};
ghost use Rattle.it_signer_notes.specs.Nearest.{before_at, is_alike};

/// Whether two names each have an `@`, and have the same before the last one. Takes no memory.
pub(crate) fn is_alike(one: &[u8], other: &[u8]) -> bool
    ensures { result ≡ is_alike one.now other.now }
{
    match (before_at(one), before_at(other)) {
        (Some(front), Some(other_front)) => front == other_front,
        _ => false,
    }
}

/// What stands before the last `@` of a name, if it has one. Takes no memory.
fn before_at(name: &[u8]) -> Option<&[u8]>
    ensures { option_map (λ front. front.now) result ≡ before_at name.now }
{
    let mut rest = name;
    while let Some((last, front)) = rest.split_last() {
        if *last == b'@' {
            return Some(front);
        }
        rest = front;
    }
    None
}
