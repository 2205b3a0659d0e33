//! How many validity checks were asked for.
ghost use Rattle.std.specs.Prelude.{◌≡◌};
ghost use Rattle.it_dsse.specs.Meter.{raised};

/// A count of validity checks, which stops at the greatest `u64`.
#[derive(Clone, Copy, Debug, PartialEq, Eq)]
pub struct Meter {
    /// How many checks were asked for.
    pub asked: u64,
}

impl Meter {
    /// Counts one more check. At the greatest `u64` the count stays as it is.
    pub fn raise(&mut self)
        ensures { self.new ≡ raised self.old 1 }
    {
        self.asked = self.asked.saturating_add(1);
    }
}
