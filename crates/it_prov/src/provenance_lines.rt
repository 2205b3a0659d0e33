//! The lines of a provenance that are envelopes (one envelope per line is this profile's choice).
ghost use Rattle.std.specs.Prelude.{IfOk};
ghost use Rattle.it_prov.specs.ProvenanceLines.{AreLinesOf};

use it_borrowed::parts::from_bytes;
use it_digest::sums::split_line;
use it_dsse::envelope::Envelope;
use std::alloc::{AllocError, Global};

/// The lines of a provenance that are envelopes (DSSE v1.0), as they were read.
#[derive(Drop)]
pub struct ProvenanceLines {
    /// The envelopes, in the order of their lines.
    pub envelopes: Vec<Envelope>,
    /// The place of each envelope's line among all lines, from 1.
    pub places: Vec<u64>,
}

impl ProvenanceLines {
    /// Reads each line of a provenance as an envelope. A line that is not one is skipped.
    ///
    /// # Errors
    ///
    /// `AllocError` where memory was refused.
    pub fn read(alloc: Global, provenance: &[u8]) -> Result<ProvenanceLines, AllocError>
        ensures { IfOk result (AreLinesOf provenance.now) }
    {
        let mut envelopes = Vec::new(alloc);
        let mut places = Vec::new(alloc);
        let mut rest = provenance;
        let mut place = 0;
        while !rest.is_empty() {
            let (line, after) = split_line(rest);
            place += 1;
            if let Some(envelope) = from_bytes::<Envelope>(alloc, line)? {
                envelopes.push(envelope)?;
                places.push(place)?;
            }
            rest = after;
        }
        Ok(ProvenanceLines { envelopes, places })
    }
}
