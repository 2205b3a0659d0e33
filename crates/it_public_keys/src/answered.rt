//! Answers on signatures.
ghost use Rattle.std.specs.Prelude.{◌≡◌, IfOk, IfSome};
ghost use Rattle.it_public_keys.specs.Validity.{is_signature_with};

use crate::named_key::NamedKey;
use crate::question::Question;
use std::alloc::{AllocError, Global};
use std::rc::Rc;

/// Whether a signature is a key's, with all that this depends on.
#[derive(Drop)]
pub(crate) struct Answered {
    key: Rc<NamedKey>,
    digest: [u8; 32],
    message: Rc<Vec<u8>>,
    sig: Vec<u8>,
    valid: bool,
    ghost right: { valid ≡ is_signature_with key.value digest message.value.items sig.items },
}

impl Answered {
    /// The answer on a signature.
    pub(crate) fn new(
        alloc: Global,
        question: &Question,
        sig: &[u8],
        valid: bool,
    ) -> Result<Answered, AllocError>
        requires { valid ≡ is_signature_with question.now.key.value question.now.digest
            question.now.message.value.items sig.now }
    {
        Ok(Answered {
            key: question.key.clone()?,
            digest: question.digest,
            message: question.message.clone()?,
            sig: Vec::from_slice(alloc, sig)?,
            valid,
        })
    }

    /// The answer, where it is the one on this signature. All that it depends on is compared.
    pub(crate) fn to(&self, question: &Question, sig: &[u8]) -> Option<bool>
        ensures { IfSome result (λ valid. valid ≡ is_signature_with question.now.key.value
            question.now.digest question.now.message.value.items sig.now) }
    {
        let same = self.key.is_same(&question.key)
            && self.digest == question.digest
            && self.message.as_slice() == question.message.as_slice()
            && self.sig.as_slice() == sig;
        if same { Some(self.valid) } else { None }
    }
}
