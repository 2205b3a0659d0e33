//! Which condition an entry misses.
ghost use Rattle.std.specs.Prelude.{◌≡◌};
ghost use Rattle.it_log_entry.specs.Place.{place_of};

use crate::body_shortfall::BodyShortfall;
use crate::note_shortfall::NoteShortfall;

/// The condition that an entry misses where a log does not vouch by it: the first of these.
#[derive(Clone, Copy, Debug, PartialEq, Eq)]
pub enum EntryShortfall {
    /// It is of another log.
    Log,
    /// Its time is outside that of the log.
    Time,
    /// It is of a kind that is not read.
    Kind,
    /// This part of its body is not about the signature.
    Body(BodyShortfall),
    /// It has no inclusion proof, and needs one.
    NoProof,
    /// Its inclusion proof does not lead to its root.
    Inclusion,
    /// The checkpoint of its inclusion proof is not one of that root that the log signed.
    Checkpoint(NoteShortfall),
    /// The log did not sign the entry's time (the promise).
    Promise,
}

impl EntryShortfall {
    /// How many conditions come before it: the greater, the further the entry came.
    pub fn place(self) -> u8
        ensures { result ≡ place_of self }
    {
        match self {
            EntryShortfall::Log => 0,
            EntryShortfall::Time => 1,
            EntryShortfall::Kind => 2,
            EntryShortfall::Body(part) => 3 + part.place(),
            EntryShortfall::NoProof => 8,
            EntryShortfall::Inclusion => 9,
            EntryShortfall::Checkpoint(missed) => 10 + missed.place(),
            EntryShortfall::Promise => 13,
        }
    }
}
