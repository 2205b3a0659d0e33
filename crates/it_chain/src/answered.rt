//! What was answered for sublayouts, so that each is verified once over a folder, whichever key ids
//! signed it and whichever layouts lead there.
ghost use Rattle.std.specs.Prelude.{◌≡◌, List, ℕ, None, Some, IfOk, OnErr, OnOk, option_map};
ghost use Rattle.std.specs.Prelude.{string_bytes, MatchOption};
ghost use Rattle.it_dsse.specs.Meter.{raised};
ghost use Rattle.it_chain.specs.Answered.{IsFresh, IsGiven, IsTaken, answer_at, within_at};
ghost use Rattle.it_chain.specs.inside.Answered.{IsKept, IsRecalled};

use crate::record::Recorded;
use it_dsse::meter::Meter;
use std::alloc::{AllocError, Global};
use std::collections::BTreeMap;

/// What a sublayout came to.
#[derive(Drop)]
pub(crate) struct Answer {
    /// The artifacts that it records.
    pub recorded: Recorded,
    /// What was asked to get the answer.
    pub asked: Meter,
}

/// The answers for the sublayouts over a folder, by their payloads, and those over the folders in
/// it. They are kept by the verifications of layouts over that folder, to which they are lent.
#[derive(Drop)]
pub struct AnsweredSublayouts {
    by_payload: BTreeMap<Vec<u8>, Answer>,
    folders: BTreeMap<String, AnsweredSublayouts>,
}

impl AnsweredSublayouts {
    /// No answers. Takes no memory.
    pub fn new(alloc: Global) -> AnsweredSublayouts
        ensures { IsFresh result }
    {
        AnsweredSublayouts {
            by_payload: BTreeMap::new(alloc),
            folders: BTreeMap::new(alloc),
        }
    }

    /// What the sublayout in a payload records over this folder, if that was answered. The meter
    /// then rises as if it were asked again.
    pub(crate) fn recall(
        &self,
        alloc: Global,
        payload: &[u8],
        meter: &mut Meter,
    ) -> Result<Option<Recorded>, AllocError>
        ensures told { IfOk result (IsRecalled (answer_at self.now payload.now)
            meter.old meter.new) }
        ensures unchanged { OnErr result (meter.new ≡ meter.old) }
    {
        let Some(answer) = self.at(payload) else {
            return Ok(None);
        };
        let recorded = answer.recorded.copy(alloc)?;
        raise_by(meter, answer.asked);
        Ok(Some(recorded))
    }

    fn at(&self, payload: &[u8]) -> Option<&Answer>
        ensures { option_map (λ answer. answer.now) result ≡ answer_at self.now payload.now }
    {
        self.by_payload.get(payload)
    }

    /// Keeps the answer for the sublayout in a payload over this folder.
    pub(crate) fn keep(&mut self, payload: Vec<u8>, answer: Answer) -> Result<(), AllocError>
        ensures { OnOk result (IsKept self.old self.new payload.items answer) }
    {
        self.by_payload.insert(payload, answer)?;
        Ok(())
    }

    /// Takes out the answers over a folder in this one; there are none where nothing was answered
    /// over it.
    pub fn take(&mut self, alloc: Global, folder: &str) -> AnsweredSublayouts
        ensures taken { MatchOption (within_at self.old folder.now) (IsFresh result)
            (λ within. result ≡ within) }
        ensures left { IsTaken self.old self.new folder.now }
    {
        match self.folders.remove(folder) {
            Some(within) => within,
            None => AnsweredSublayouts::new(alloc),
        }
    }

    /// Gives back the answers over a folder in this one, in place of those that are there.
    ///
    /// # Errors
    ///
    /// `AllocError` where memory was refused.
    pub fn give(&mut self, folder: String, within: AnsweredSublayouts) -> Result<(), AllocError>
        ensures { OnOk result (IsGiven self.old self.new (string_bytes folder) within) }
    {
        self.folders.insert(folder, within)?;
        Ok(())
    }
}

/// Raises a meter as far as another was from 0.
pub(crate) fn raise_by(meter: &mut Meter, asked: Meter)
    ensures { meter.new ≡ raised meter.old asked.asked }
{
    meter.asked = meter.asked.saturating_add(asked.asked);
}
