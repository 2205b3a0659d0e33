//! Build levels.
ghost use Rattle.std.specs.Prelude.{◌≡◌, ◌⊎◌, Some};
ghost use Rattle.it_prov.specs.Best.{IsGreatest};

/// The greater of two levels, either of which may be absent.
pub(crate) fn greater(one: Option<u8>, other: Option<u8>) -> Option<u8>
    ensures { IsGreatest (λ n. (one ≡ Some n) ⊎ (other ≡ Some n)) result }
{
    match (one, other) {
        (Some(level), Some(further)) if level < further => other,
        (Some(_), _) => one,
        (None, _) => other,
    }
}
