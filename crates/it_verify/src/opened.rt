//! Inputs of which the policy is read as a document.
ghost use Rattle.std.specs.Prelude.{◌≡◌, IfOk};

use crate::inputs::Inputs;
use it_borrowed::document_text::DocumentText;
use json::Scratch;
use std::alloc::{AllocError, Global};

/// The inputs of a verification, and the document that the policy is, which is read once for the
/// verification and for all that is told beside its verdict.
#[derive(Drop)]
pub struct Opened<'i> {
    /// The inputs.
    pub inputs: &'i Inputs,
    /// The policy of the inputs.
    pub policy: DocumentText<'i>,
    /// It is the policy of these inputs.
    pub ghost of_inputs: { policy ≡ inputs.now.policy },
}

impl<'i> Opened<'i> {
    /// Reads the document that the policy of the inputs is, if it is one. `scratch` keeps its texts
    /// that are written with escapes.
    ///
    /// # Errors
    ///
    /// `AllocError` where memory was refused.
    pub fn read(
        alloc: Global,
        inputs: &'i Inputs,
        scratch: &'i mut Scratch,
    ) -> Result<Opened<'i>, AllocError>
        ensures { IfOk result (λ opened. opened.inputs.now ≡ inputs.now) }
    {
        let policy = DocumentText::read(alloc, inputs.policy.as_slice(), scratch)?;
        Ok(Opened { inputs, policy })
    }
}
