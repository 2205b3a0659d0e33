//! The result of a layout over a bundle: one record for each of its steps.
use it_base::sequence::Sequence;
use it_base::text::Text;
use it_digest::artifacts::Artifacts;

/// The record of a step, on which everything that counts for the step agrees.
#[derive(Drop)]
pub struct StepResult {
    /// The name of the step.
    pub name: Text,
    /// The materials of the step.
    pub materials: Artifacts,
    /// The products of the step.
    pub products: Artifacts,
    /// How many different keys signed a body that counts for the step.
    pub keys: u64,
}

/// The records of a layout's steps.
#[derive(Drop)]
pub struct Chain {
    /// One for each step, in the layout's order.
    pub steps: Sequence<StepResult>,
}
