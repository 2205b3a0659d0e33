//! How much is still looked at that a verification does not look at.

use it_dsse::envelope::Envelope;
use it_dsse::meter::Meter;
use it_dsse::payload_type::IN_TOTO;

/// The most bytes, in all, of lines that are no envelopes and of payloads that no expected builder
/// signed that are looked at.
const MOST_BYTES: usize = 2_097_152;

/// After this many signatures on envelopes of other types than in-toto's, which a verification does
/// not check, no more are looked at.
const MOST_SIGNATURES: u64 = 40;

/// How much is still looked at.
#[derive(Drop)]
pub(crate) struct Room {
    bytes: usize,
    signatures: u64,
    /// How many signatures were tried under other key ids than those of the keys.
    pub hinted: Meter,
}

impl Room {
    /// All of it.
    pub fn new() -> Room {
        Room {
            bytes: MOST_BYTES,
            signatures: MOST_SIGNATURES,
            hinted: Meter { asked: 0 },
        }
    }

    /// Whether the signatures of an envelope are still checked: those of in-toto's type always are.
    pub fn has_signatures(&self, envelope: &Envelope) -> bool {
        self.signatures > 0 || envelope.payload_type.as_str() == IN_TOTO
    }

    /// Notes how many signatures of an envelope were checked.
    pub fn count(&mut self, envelope: &Envelope, meter: &Meter) {
        if envelope.payload_type.as_str() != IN_TOTO {
            self.signatures = self.signatures.saturating_sub(meter.asked);
        }
    }

    /// Whether there is room for so many bytes. If so, there is less room from then on.
    pub fn takes(&mut self, bytes: usize) -> bool {
        if bytes > self.bytes {
            return false;
        }
        self.bytes -= bytes;
        true
    }
}
