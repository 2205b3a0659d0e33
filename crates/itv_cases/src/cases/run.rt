//! A case that was run.
ghost use Rattle.std.specs.Prelude.{◌≡◌, ◌↔◌, IsTrue};

use crate::cases::answer::Answer;
use crate::cases::wanted::Wanted;
use it_base::text::Text;

/// What a case wants, and what the verification gave.
#[derive(Drop)]
pub(crate) struct Run {
    /// The name of the case.
    pub(crate) name: Text,
    /// The answer that is wanted.
    pub(crate) wanted: Wanted,
    /// The answer of `run_verify`.
    pub(crate) given: Answer,
}

impl Run {
    ghost use Rattle.itv_cases.specs.Agreement.{Agrees, agrees};

    /// Whether the verification gave what is wanted.
    pub(crate) fn agrees(&self) -> bool
        ensures equal { IsTrue result ↔ Agrees self.now }
        ensures value { result ≡ agrees self.now }
    {
        self.given.meets(&self.wanted)
    }
}
