//! How refusals are made.
ghost use Rattle.std.specs.Prelude.{◌≡◌, IfOk};
ghost use Rattle.it_chain.specs.First.{here as here_of, under as under_of};
ghost use Rattle.it_chain.specs.inside.Sublayouts.{IsUnder};
ghost use Rattle.it_chain.specs.declared.refusal.ChainError.TheVariants.{Refused};

use crate::refusal::{ChainError, ChainFault, ChainRefusal};
use it_base::sequence::Sequence;
use it_base::text::Text;
use std::alloc::{AllocError, Global};

/// The refusal for a fault of the layout itself.
pub(crate) fn here(alloc: Global, fault: ChainFault) -> ChainRefusal
    ensures { result ≡ here_of fault }
{
    ChainRefusal {
        at: Sequence::from(Vec::new(alloc)),
        fault,
    }
}

/// The error for a fault of the layout itself.
pub(crate) fn refused(alloc: Global, fault: ChainFault) -> ChainError
    ensures { result ≡ Refused (here_of fault) }
{
    ChainError::Refused(here(alloc, fault))
}

/// The error of the sublayout that is signed by a key id for a step.
pub(crate) fn under(alloc: Global, step: &str, id: &str, error: ChainError) -> ChainError
    ensures { IsUnder step.now id.now error result }
{
    match error {
        ChainError::Refused(refusal) => match put_under(alloc, step, id, refusal) {
            Ok(refusal) => ChainError::Refused(refusal),
            Err(_) => ChainError::OutOfMemory,
        },
        ChainError::OutOfMemory => ChainError::OutOfMemory,
    }
}

fn put_under(
    alloc: Global,
    step: &str,
    id: &str,
    refusal: ChainRefusal,
) -> Result<ChainRefusal, AllocError>
    ensures { IfOk result (λ outer. outer ≡ under_of step.now id.now refusal) }
{
    let ChainRefusal { at, fault } = refusal;
    let mut at = at.into_vec();
    at.insert(0, (Text::copy(alloc, step)?, Text::copy(alloc, id)?))?;
    Ok(ChainRefusal {
        at: Sequence::from(at),
        fault,
    })
}
