//! The files that can count for a step.
ghost use Rattle.std.specs.Prelude.{◌≡◌, ◌++◌, IfOk, OnOk, map};
ghost use Rattle.it_base.specs.Finds.{Finds, FindsAs};
ghost use Rattle.it_dsse.specs.Envelope.{EnvelopeOf};
ghost use Rattle.it_chain.specs.Candidate.{IsCandidate};
ghost use Rattle.it_chain.specs.inside.ClaimedFiles.{files_at};
ghost use Rattle.it_chain.specs.inside.Candidates.{AreRead, IsCandidateAt};
ghost use Rattle.it_chain.specs.inside.Hints.{admitted_for};
ghost use Rattle.it_chain.specs.inside.Places.{items_at};

use crate::held_file::HeldFile;
use crate::hints::Hints;
use it_base::optional::push_some;
use it_borrowed::parts::from_bytes;
use it_dsse::envelope::Envelope;
use it_dsse::payload_type::IN_TOTO;
use std::alloc::{AllocError, Global};
use std::marker::Model;

/// The envelopes in some files that can hold a body for a step. A contract sees the envelopes.
#[derive(Drop)]
pub(crate) struct Candidates<'a> {
    envelopes: Vec<&'a Envelope>,
    hints: Hints,
}

impl<'a> Model for Candidates<'a> {
    ghost use Rattle.std.specs.Prelude.{List, map};
    ghost use Rattle.it_dsse.specs.declared.envelope.Envelope.{Envelope};

    ghost Value = { List Envelope };

    ghost use Rattle.it_chain.specs.inside.Hints.{AreHints};

    ghost view = { λ c. map (λ envelope. envelope.now) c.envelopes.items };

    ghost invariant = { λ c. AreHints (map (λ envelope. envelope.now) c.envelopes.items) c.hints };
}

impl<'a> Candidates<'a> {
    /// The candidates in the files at some places. Their payloads are not read: anybody can send a
    /// file, and its signatures have not been checked yet.
    pub fn at(
        alloc: Global,
        files: &'a [HeldFile],
        places: &[usize],
    ) -> Result<Candidates<'a>, AllocError>
        ensures { IfOk result (AreRead (files_at files.now places.now)) }
    {
        let mut envelopes = Vec::new(alloc);
        for place in places {
            push_some(&mut envelopes, candidate_at(files, *place))?;
        }
        let hints = Hints::of(alloc, envelopes.as_slice())?;
        Ok(Candidates { envelopes, hints })
    }

    /// The envelopes that a key can have signed under an id: those with a signature that has no
    /// hint, and then those of which each signature has one and one of them the id.
    pub fn admitted(&self, alloc: Global, id: &str) -> Result<Vec<&'a Envelope>, AllocError>
        ensures { IfOk result (λ found. map (λ envelope. envelope.now) found.items
            ≡ admitted_for id.now self.now) }
    {
        let envelopes = self.envelopes.as_slice();
        let mut found = Vec::new(alloc);
        push_at(&mut found, envelopes, self.hints.unhinted.as_slice())?;
        push_at(&mut found, envelopes, self.hints.named.under(id))?;
        Ok(found)
    }
}

/// Appends the envelopes at some places to the others.
fn push_at<'a>(
    found: &mut Vec<&'a Envelope>,
    envelopes: &[&'a Envelope],
    places: &[usize],
) -> Result<(), AllocError>
    ensures { OnOk result (found.new.items
        ≡ found.old.items ++ items_at envelopes.now places.now) }
{
    for place in places {
        push_some(found, envelopes.get(*place).copied())?;
    }
    Ok(())
}

fn candidate_at(files: &[HeldFile], place: usize) -> Option<&Envelope>
    ensures { FindsAs (λ envelope. envelope.now) (IsCandidateAt files.now place) result }
{
    match files.get(place) {
        Some(file) => candidate_in(file),
        None => None,
    }
}

/// The envelope of the in-toto type that a file's bytes are, or `None` where they are not one.
/// Takes no memory.
pub fn candidate_in(file: &HeldFile) -> Option<&Envelope>
    ensures { FindsAs (λ envelope. envelope.now) (IsCandidate file.now.bytes) result }
{
    let envelope = file.envelope()?;
    if envelope.payload_type.as_str() != IN_TOTO {
        return None;
    }
    Some(envelope)
}

/// Reads bytes as an envelope (DSSE v1.0, "Envelope"), or `None` where they are not one.
///
/// # Errors
///
/// `AllocError` where memory was refused.
pub fn envelope_in(alloc: Global, bytes: &[u8]) -> Result<Option<Envelope>, AllocError>
    ensures { IfOk result (Finds (EnvelopeOf bytes.now)) }
{
    from_bytes(alloc, bytes)
}
