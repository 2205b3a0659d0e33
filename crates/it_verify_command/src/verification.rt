//! What is asked of a verification.
use crate::output_form::OutputForm;
use it_verify::inputs::Inputs;
use it_vouched::Vouched;

/// What is asked of a verification: whether delivered files were made as the owners prescribed, by
/// which checks, and in which form the answer is written.
#[derive(Drop)]
pub struct Verification<'a, C> {
    /// What is verified.
    pub inputs: &'a Inputs,
    /// What checks the signatures.
    pub checks: &'a C,
    /// What lines of the provenance vouch for, which is told of a delivery that is accepted.
    pub vouched: &'a [Vouched],
    /// The form of the output.
    pub form: &'a OutputForm,
}
