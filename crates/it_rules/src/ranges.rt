//! The range of sorted paths that begin with a front, found by binary search.
ghost use Rattle.std.specs.Prelude.{◌≡◌};
ghost use Rattle.it_rules.specs.Ranges.{AreInOrder, IsFrontRange};
ghost use Rattle.it_rules.specs.inside.FrontOrder.{is_before as is_before_of};
ghost use Rattle.it_rules.specs.inside.FrontOrder.{is_reached as is_reached_of};

/// The range of the paths that begin with a front: those at the places from the first number to
/// before the second. Takes no memory.
///
/// `paths` are in the order of their bytes, and all different.
pub fn front_range(paths: &[&str], front: &str) -> (usize, usize)
    requires { AreInOrder paths.now }
    ensures { IsFrontRange paths.now front.now result.0 result.1 }
{
    let start = paths.partition_point(|path| is_before(path, front));
    let end = paths.partition_point(|path| is_reached(path, front));
    (start, end)
}

/// Whether a path comes before a front.
fn is_before(path: &str, front: &str) -> bool
    ensures { result ≡ is_before_of path.now front.now }
{
    path < front
}

/// Whether a path comes before a front or begins with it.
fn is_reached(path: &str, front: &str) -> bool
    ensures { result ≡ is_reached_of path.now front.now }
{
    is_before(path, front) || path.starts_with(front)
}
