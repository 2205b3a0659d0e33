//! How far a leaf comes by entries.
ghost use Rattle.std.specs.Prelude.{◌≡◌};
ghost use Rattle.it_vouches.specs.inside.Further.{IsFurther};
ghost use Rattle.it_vouches.specs.inside.Shows.{attestation_place};

use crate::issuer_shortfall::IssuerShortfall;
use it_log_entry::EntryShortfall;

/// What is known of a leaf by entries.
#[derive(Clone, Copy, Drop)]
pub(crate) enum Attestation {
    /// None of them reads.
    NoEntry,
    /// No log vouches by any; this is the furthest condition that they miss.
    NoLog(EntryShortfall),
    /// A log vouches by one, but at no such entry's time the leaf was issued and promised to be
    /// logged; this is the furthest condition that it misses.
    NoIssuer(IssuerShortfall),
    /// A log vouches by one of this time, in seconds, at which the leaf was issued and promised to
    /// be logged.
    Attested(u64),
}

impl Attestation {
    /// The one by which the leaf comes further.
    pub(crate) fn further(self, other: Attestation) -> Attestation
        ensures { IsFurther attestation_place self other result }
    {
        if self.place() < other.place() {
            other
        } else {
            self
        }
    }

    /// How far the leaf comes: the higher, the further.
    fn place(self) -> u8
        ensures { result ≡ attestation_place self }
    {
        match self {
            Attestation::NoEntry => 0,
            Attestation::NoLog(missed) => 1 + missed.place(),
            Attestation::NoIssuer(missed) => 15 + missed.place(),
            Attestation::Attested(_) => 25,
        }
    }
}
