//! Where a tree is split.
ghost use Rattle.std.specs.Prelude.{◌<◌};
ghost use Rattle.it_merkle.specs.Tree.{IsSplit};

/// The largest power of two below a size.
pub(crate) fn split_of(size: u64) -> u64
    requires { 1 < size }
    ensures { IsSplit size result }
{
    let mut split = 1;
    while split < size - split {
        split *= 2;
    }
    split
}
