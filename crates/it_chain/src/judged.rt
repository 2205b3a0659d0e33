//! The records of a layout's steps, and what the layout comes to by its rules over them.
ghost use Rattle.std.specs.Prelude.{◌≡◌};
ghost use Rattle.it_chain.specs.Judged.{settled};

use crate::chain::Chain;
use crate::refusal::{ChainError, ChainRefusal};

/// The records with which a layout's steps hold, whether or not its rules hold over them.
#[derive(Drop)]
pub struct JudgedChain {
    /// The records of the steps.
    pub chain: Chain,
    /// The refusal by the first rule that fails, or `None` where all hold.
    pub failed: Option<ChainRefusal>,
}

impl JudgedChain {
    /// The records, where all rules hold over them.
    ///
    /// # Errors
    ///
    /// `Refused` with the first rule that fails.
    pub fn settled(self) -> Result<Chain, ChainError>
        ensures { result ≡ settled self }
    {
        let JudgedChain { chain, failed } = self;
        match failed {
            None => Ok(chain),
            Some(refusal) => Err(ChainError::Refused(refusal)),
        }
    }
}
