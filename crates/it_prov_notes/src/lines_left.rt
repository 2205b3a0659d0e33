//! The lines of the provenance that are envelopes, one after another.
ghost use Rattle.std.specs.Prelude.{◌≡◌, ◌∷◌, List, ℕ, suc};
ghost use Rattle.it_base.specs.Finds.{FindsAs};
ghost use Rattle.it_dsse.specs.Envelope.{EnvelopeOf};
ghost use Rattle.it_prov.specs.ProvenanceLines.{AreReadFrom};

use it_dsse::envelope::Envelope;
use it_prov::provenance_lines::ProvenanceLines;

/// Those lines that are envelopes which were not yet come to.
#[derive(Drop)]
pub(crate) struct LinesLeft<'a> {
    /// The envelopes.
    envelopes: &'a [Envelope],
    /// The places of their lines.
    places: &'a [u64],
}

impl<'a> LinesLeft<'a> {
    /// All of them.
    pub fn of(lines: &'a ProvenanceLines) -> LinesLeft<'a>
        ensures envelopes { result.envelopes.now ≡ lines.now.envelopes.items }
        ensures places { result.places.now ≡ lines.now.places.items }
    {
        LinesLeft {
            envelopes: lines.envelopes.as_slice(),
            places: lines.places.as_slice(),
        }
    }

    /// The envelope that the line at a place is, or `None` where it is none. Each line is asked for
    /// once, in their order.
    pub fn next_at(&mut self, place: u64) -> Option<&'a Envelope>
        ensures { (line : List ℕ) (lines : List (List ℕ))
            → AreReadFrom place (line ∷ lines) self.old.envelopes.now self.old.places.now
            → FindsAs (λ envelope. envelope.now) (EnvelopeOf line) result
            × AreReadFrom (suc place) lines self.new.envelopes.now self.new.places.now }
    {
        let (next, places) = self.places.split_first()?;
        if *next != place {
            return None;
        }
        let (envelope, envelopes) = self.envelopes.split_first()?;
        self.envelopes = envelopes;
        self.places = places;
        Some(envelope)
    }
}
