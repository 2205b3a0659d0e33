//! Which files of a bundle are claimed for which steps (in-toto 1.0 section 4.4, names of link
//! files).
ghost use Rattle.std.specs.Prelude.{◌≡◌, ◌↔◌, List, ℕ, IfOk, IsTrue, MatchOption};
ghost use Rattle.it_chain.specs.inside.ClaimedFiles.{ClaimsIn};
ghost use Rattle.it_chain.specs.inside.Places.{places_under};
ghost use Rattle.it_chain.specs.ClaimedFiles.{IsClaimed};

use crate::held_file::HeldFile;
use crate::places::Places;
use std::alloc::{AllocError, Global};

/// The places of files in a bundle, by the names of the steps that the files are claimed for.
#[derive(Drop)]
pub(crate) struct Claims {
    by_step: Places,
}

impl Claims {
    /// The places of those files that are claimed for some step.
    pub fn of(alloc: Global, files: &[HeldFile]) -> Result<Claims, AllocError>
        ensures { IfOk result (ClaimsIn files.now) }
    {
        let mut by_step = Places::new(alloc);
        for (place, file) in files.iter().enumerate() {
            if let Some(step) = claimed_step(file.name()) {
                by_step.add(String::from_str(alloc, step)?, place)?;
            }
        }
        Ok(Claims { by_step })
    }

    /// The places of the files that are claimed for a step, in the order of the files.
    pub fn places(&self, step: &str) -> &[usize]
        ensures { result.now ≡ places_under self.now.by_step step.now }
    {
        self.by_step.under(step)
    }
}

/// The name of the step for which a file's name claims the file (in-toto 1.0 section 4.4), or
/// `None` where there is none. Takes no memory.
pub fn claimed_step(name: &str) -> Option<&str>
    ensures { MatchOption result ((step : List ℕ) → ¬ IsClaimed step name.now)
        (λ step. IsClaimed step.now name.now) }
{
    let front = name.strip_suffix(".link")?;
    let (step, middle) = front.rsplit_once('.')?;
    if middle.is_empty() { None } else { Some(step) }
}

/// Whether a file's name claims the file for a step (in-toto 1.0 section 4.4). Takes no memory.
pub fn is_claimed(step: &str, name: &str) -> bool
    ensures { IsTrue result ↔ IsClaimed step.now name.now }
{
    match claimed_step(name) {
        Some(found) => found == step,
        None => false,
    }
}
