//! The memory of a run, and its budget.
ghost use Rattle.std.specs.Prelude.{◌≡◌, ◌&&◌, ℕ, IfOk, IfSome, List, [], OnErr, OnOk, Some};
ghost use Rattle.std.specs.Prelude.{if◌then◌else◌, option_map};
ghost use Rattle.it_message.specs.Message.{joined};
ghost use Rattle.it_dsse.specs.Meter.{raised};
ghost use Rattle.it_dsse.specs.Signed.{is_admitted};
ghost use Rattle.it_dsse.specs.Vouched.{is_vouched_by, tries_by};
ghost use Rattle.it_public_keys.specs.DecodedKeys.{key_in};
ghost use Rattle.it_public_keys.specs.NamedKeys.{is_valid_for, number_of, public_key_check};
ghost use Rattle.it_public_keys.specs.OwnKeys.{found_key};
ghost use Rattle.it_public_keys.specs.Validity.{is_signature_with};
ghost use Rattle.it_public_keys.specs.inside.Questions.{check_of};

use crate::for_many::ForMany;
use crate::found_key::FoundKey;
use crate::named_key::{NamedKey, key_of};
use crate::question::Question;
use crate::remembered::Remembered;
use it_budget::SharedBudget;
use it_dsse::asked::Asked;
use it_dsse::envelope::Signature;
use it_dsse::key_object::KeyObject;
use it_dsse::meter::Meter;
use std::alloc::{AllocError, Global};
use std::cell::RefCell;
use std::rc::Rc;

/// Remembers keys and answers, and counts the answers that are computed. Where there is no more
/// room, nothing more is remembered, and the answers are the same.
#[derive(Drop)]
pub(crate) struct Memory {
    alloc: Global,
    remembered: RefCell<Remembered>,
    budget: SharedBudget,
    for_many: ForMany,
}

impl Memory {
    /// A memory of nothing, and the number of signatures that may be checked.
    pub(crate) fn new(alloc: Global, most_checks: u64) -> Memory {
        Memory {
            alloc,
            remembered: RefCell::new(Remembered::new(alloc)),
            budget: SharedBudget::new(most_checks),
            for_many: ForMany::new(),
        }
    }

    /// The key that an object describes, if it describes one. It is decoded the first time.
    pub(crate) fn find(&self, object: &KeyObject) -> Option<FoundKey>
        ensures { option_map found_key result ≡ key_in object.now }
    {
        if let Some(key) = self.key(object) {
            return Some(FoundKey::Shared(key));
        }
        let key = self.for_many.made(self.alloc, key_of(object)?);
        Some(self.keep_key(object, key))
    }

    /// The key that an object describes, if it is remembered.
    fn key(&self, object: &KeyObject) -> Option<Rc<NamedKey>>
        ensures { IfSome result (λ key. key_in object.now ≡ Some key.value) }
    {
        let remembered = self.remembered.try_borrow().ok()?;
        remembered.key(object)
    }

    /// Shares the key that an object describes, and remembers it.
    fn keep_key(&self, object: &KeyObject, key: NamedKey) -> FoundKey
        requires { key_in object.now ≡ Some key }
        ensures { found_key result ≡ key }
    {
        let key = match Rc::new(self.alloc, key) {
            Ok(key) => key,
            Err(refused) => return FoundKey::Once(refused.value),
        };
        self.keep_shared(object, &key);
        FoundKey::Shared(key)
    }

    /// Remembers the key that an object describes.
    fn keep_shared(&self, object: &KeyObject, key: &Rc<NamedKey>)
        requires { key_in object.now ≡ Some key.now.value }
    {
        let Ok(key) = key.clone() else {
            return;
        };
        if let Ok(mut remembered) = self.remembered.try_borrow_mut() {
            let _ = remembered.keep_key(self.alloc, object, key);
        }
    }

    /// Whether one of the signatures is admitted and valid, each checked the first time.
    pub(crate) fn any_valid(
        &self,
        key: &FoundKey,
        asked: &Asked<'_>,
        meter: &mut Meter,
    ) -> Result<bool, AllocError>
        ensures answer { IfOk result (λ valid. valid ≡ is_vouched_by public_key_check
            asked.now.id.now (number_of (found_key key.now)) (joined asked.now.message.now)
            asked.now.signatures.now) }
        ensures counted { OnOk result (meter.new ≡ raised meter.old (tries_by public_key_check
            asked.now.id.now (number_of (found_key key.now)) (joined asked.now.message.now)
            asked.now.signatures.now)) }
        ensures kept { OnErr result (meter.new ≡ meter.old) }
    {
        let question = self.question(key, asked.message)?;
        let mut tried = *meter;
        let valid = self.any_answered(&question, asked.signatures, asked.id, &mut tried)?;
        *meter = tried;
        Ok(valid)
    }

    /// Whether one of the signatures is admitted for `id` and is what the question asks for. The
    /// meter rises by the number of admitted signatures up to and including the first such one.
    fn any_answered(
        &self,
        question: &Question,
        signatures: &[Signature],
        id: &str,
        meter: &mut Meter,
    ) -> Result<bool, AllocError>
        ensures answer { IfOk result (λ valid. valid ≡ is_vouched_by (check_of question.now) id.now
            0 [] signatures.now) }
        ensures counted { OnOk result (meter.new ≡ raised meter.old (tries_by
            (check_of question.now) id.now 0 [] signatures.now)) }
    {
        for signature in signatures {
            let valid = self.vouches(question, signature, id, meter)?;
            if valid {
                return Ok(true);
            }
        }
        Ok(false)
    }

    /// Whether a signature is admitted for `id` and is what the question asks for. The meter rises
    /// by one where it is admitted.
    fn vouches(
        &self,
        question: &Question,
        signature: &Signature,
        id: &str,
        meter: &mut Meter,
    ) -> Result<bool, AllocError>
        ensures answer { IfOk result (λ valid. valid ≡ (is_admitted id.now signature.now
            && (check_of question.now).is_valid 0 [] signature.now.sig)) }
        ensures counted { OnOk result (meter.new ≡ raised meter.old
            (if is_admitted id.now signature.now then 1 else 0)) }
    {
        if !signature.is_admitted(id) {
            return Ok(false);
        }
        meter.raise();
        self.is_valid(question, signature.sig.as_slice())
    }

    /// Whether `sig` is what the question asks for, computed the first time. Without the form of a
    /// signature by the key it is not, and nothing is computed. An error where no check is left.
    fn is_valid(&self, question: &Question, sig: &[u8]) -> Result<bool, AllocError>
        ensures { IfOk result (λ valid. valid ≡ is_signature_with question.now.key.value
            question.now.digest question.now.message.value.items sig.now) }
    {
        if !question.has_form(sig) {
            return Ok(false);
        }
        if let Some(valid) = self.answer(question, sig) {
            return Ok(valid);
        }
        self.budget.take()?;
        let valid = question.check(sig);
        self.keep_answer(question, sig, valid);
        Ok(valid)
    }

    /// Whether a check was refused because the budget had none left.
    pub(crate) fn is_spent(&self) -> bool {
        self.budget.is_spent()
    }

    /// What signatures of the message by the key are asked.
    fn question(&self, key: &FoundKey, message: &[&[u8]]) -> Result<Question, AllocError>
        ensures { IfOk result (λ question. (sig : List ℕ)
            → is_signature_with question.key.value question.digest question.message.value.items sig
            ≡ is_valid_for (number_of (found_key key.now)) (joined message.now) sig) }
    {
        let FoundKey::Shared(key) = key else {
            return Err(AllocError);
        };
        let (digest, part) = key.as_ref().looked_at(self.alloc, message)?;
        let part = Rc::new(self.alloc, part)?;
        let (message, number) = self.message(part)?;
        let key = key.clone()?;
        Ok(Question {
            key,
            digest,
            message,
            number,
        })
    }

    /// A message, as it is remembered with its number where there is room for it.
    fn message(&self, message: Rc<Vec<u8>>) -> Result<(Rc<Vec<u8>>, Option<usize>), AllocError>
        ensures { IfOk result (λ found. found.0.value.items ≡ message.value.items) }
    {
        let again = message.clone()?;
        match self.keep_message(message) {
            Some((known, number)) => Ok((known, Some(number))),
            None => Ok((again, None)),
        }
    }

    /// A message as it is remembered, and its number; `None` where there is no room for it.
    fn keep_message(&self, message: Rc<Vec<u8>>) -> Option<(Rc<Vec<u8>>, usize)>
        ensures { IfSome result (λ found. found.0.value.items ≡ message.value.items) }
    {
        let mut remembered = self.remembered.try_borrow_mut().ok()?;
        remembered.message(message)
    }

    /// The answer on a signature, if it is remembered.
    pub(crate) fn answer(&self, question: &Question, sig: &[u8]) -> Option<bool>
        ensures { IfSome result (λ valid. valid ≡ is_signature_with question.now.key.value
            question.now.digest question.now.message.value.items sig.now) }
    {
        let remembered = self.remembered.try_borrow().ok()?;
        remembered.answer(self.alloc, question, sig)
    }

    /// Remembers the answer on a signature.
    pub(crate) fn keep_answer(&self, question: &Question, sig: &[u8], valid: bool)
        requires { valid ≡ is_signature_with question.now.key.value question.now.digest
            question.now.message.value.items sig.now }
    {
        if let Ok(mut remembered) = self.remembered.try_borrow_mut() {
            let _ = remembered.keep_answer(self.alloc, question, sig, valid);
        }
    }
}
