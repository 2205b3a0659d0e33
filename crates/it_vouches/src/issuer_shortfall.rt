//! Why a leaf is not attested.
ghost use Rattle.std.specs.Prelude.{◌≡◌};
ghost use Rattle.it_vouches.specs.IssuerMissed.{issuer_place};
ghost use Rattle.it_vouches.specs.inside.Further.{IsFurther};

use it_issued::{IssueShortfall, LogShortfall};

/// How many conditions there are of an authority that is to have issued a leaf.
const ISSUE_CONDITIONS: u8 = 5;

/// The condition that a leaf misses with an authority: the first of these that is true.
#[derive(Clone, Copy, Debug, PartialEq, Eq)]
pub enum IssuerShortfall {
    /// The authority did not issue it, for this reason.
    Issue(IssueShortfall),
    /// No certificate log promised the authority to log it, for this reason.
    Log(LogShortfall),
}

impl IssuerShortfall {
    /// How many conditions come before this one: the higher, the further the leaf comes.
    pub fn place(self) -> u8
        ensures { result ≡ issuer_place self }
    {
        match self {
            IssuerShortfall::Issue(missed) => missed.place(),
            IssuerShortfall::Log(missed) => ISSUE_CONDITIONS + missed.place(),
        }
    }

    /// The further of two conditions.
    pub(crate) fn further(self, other: IssuerShortfall) -> IssuerShortfall
        ensures { IsFurther issuer_place self other result }
    {
        if self.place() < other.place() {
            other
        } else {
            self
        }
    }
}
