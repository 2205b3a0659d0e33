//! Windows of time.
ghost use Rattle.std.specs.Prelude.{◌↔◌, IsTrue};
ghost use Rattle.it_log.specs.Window.{LiesIn};

/// The time in which something is trusted, in nanoseconds since 1970-01-01T00:00:00Z. Both ends
/// belong to it.
#[derive(Clone, Copy, Debug, PartialEq, Eq)]
pub struct Window {
    /// The first moment.
    pub start: i128,
    /// The last moment; `None` where the time has no end.
    pub end: Option<i128>,
}

impl Window {
    /// Whether a moment lies in the window. Takes no memory.
    pub fn contains(&self, moment: i128) -> bool
        ensures { IsTrue result ↔ LiesIn self.now moment }
    {
        if moment < self.start {
            return false;
        }
        match self.end {
            Some(end) => moment <= end,
            None => true,
        }
    }
}
