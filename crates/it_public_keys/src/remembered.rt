//! What is remembered in a run.
ghost use Rattle.std.specs.Prelude.{◌≡◌, IfSome, Some};
ghost use Rattle.it_public_keys.specs.DecodedKeys.{key_in};
ghost use Rattle.it_public_keys.specs.Validity.{is_signature_with};

use crate::answered::Answered;
use crate::known_key::KnownKey;
use crate::named_key::NamedKey;
use crate::question::Question;
use it_dsse::key_object::KeyObject;
use std::alloc::{AllocError, Global};
use std::collections::BTreeMap;
use std::rc::Rc;

/// How many keys are remembered at most.
const MOST_KEYS: usize = 4096;
/// How many bytes of messages and answers are remembered at most.
const MOST_BYTES: usize = 32 * 1024 * 1024;
/// How many bytes an answer counts beside its signature.
const ANSWER_BYTES: usize = 512;

/// Keys that were decoded and signatures that were checked. What a search finds is compared with
/// what is asked, so nothing rests on the places.
#[derive(Drop)]
pub(crate) struct Remembered {
    /// Keys, by their public part.
    keys: BTreeMap<String, KnownKey>,
    /// Messages, with their numbers.
    messages: BTreeMap<Rc<Vec<u8>>, usize>,
    /// Answers, each at the place of its question.
    answers: BTreeMap<Vec<u8>, Answered>,
    /// How many more bytes of messages and answers are remembered.
    room: usize,
}

impl Remembered {
    /// Nothing yet.
    pub(crate) fn new(alloc: Global) -> Remembered {
        Remembered {
            keys: BTreeMap::new(alloc),
            messages: BTreeMap::new(alloc),
            answers: BTreeMap::new(alloc),
            room: MOST_BYTES,
        }
    }

    /// The key that an object describes, if it is remembered.
    pub(crate) fn key(&self, object: &KeyObject) -> Option<Rc<NamedKey>>
        ensures { IfSome result (λ key. key_in object.now ≡ Some key.value) }
    {
        let known = self.keys.get(object.public.as_str())?;
        known.of(object)
    }

    /// Remembers the key that an object describes, while there is room.
    pub(crate) fn keep_key(
        &mut self,
        alloc: Global,
        object: &KeyObject,
        key: Rc<NamedKey>,
    ) -> Result<(), AllocError>
        requires { key_in object.now ≡ Some key.value }
    {
        if self.keys.len() >= MOST_KEYS {
            return Ok(());
        }
        let known = KnownKey::new(alloc, object, key)?;
        let public = String::from_str(alloc, object.public.as_str())?;
        self.keys.insert(public, known)?;
        Ok(())
    }

    /// The message as it is remembered, and its number; `None` where there is no room for it.
    pub(crate) fn message(&mut self, message: Rc<Vec<u8>>) -> Option<(Rc<Vec<u8>>, usize)>
        ensures { IfSome result (λ found. found.0.value.items ≡ message.value.items) }
    {
        if let Some((known, number)) = self.messages.get_key_value(&message) {
            return the_same(known, &message, *number);
        }
        let left = self.room.checked_sub(message.len())?;
        let number = self.messages.len();
        let again = message.clone().ok()?;
        self.messages.insert(message, number).ok()?;
        self.room = left;
        Some((again, number))
    }

    /// The answer on a signature, if it is remembered.
    pub(crate) fn answer(&self, alloc: Global, question: &Question, sig: &[u8]) -> Option<bool>
        ensures { IfSome result (λ valid. valid ≡ is_signature_with question.now.key.value
            question.now.digest question.now.message.value.items sig.now) }
    {
        let place = question.place_of(alloc, sig).ok()??;
        let answered = self.answers.get(place.as_slice())?;
        answered.to(question, sig)
    }

    /// Remembers the answer on a signature, while there is room.
    pub(crate) fn keep_answer(
        &mut self,
        alloc: Global,
        question: &Question,
        sig: &[u8],
        valid: bool,
    ) -> Result<(), AllocError>
        requires { valid ≡ is_signature_with question.now.key.value question.now.digest
            question.now.message.value.items sig.now }
    {
        let Some(left) = self.room.checked_sub(sig.len() + ANSWER_BYTES) else {
            return Ok(());
        };
        let Some(place) = question.place_of(alloc, sig)? else {
            return Ok(());
        };
        let answered = Answered::new(alloc, question, sig, valid)?;
        self.answers.insert(place, answered)?;
        self.room = left;
        Ok(())
    }
}

/// The message that is remembered, where it is this one.
fn the_same(
    known: &Rc<Vec<u8>>,
    message: &Rc<Vec<u8>>,
    number: usize,
) -> Option<(Rc<Vec<u8>>, usize)>
    ensures { IfSome result (λ found. found.0.value.items ≡ message.now.value.items) }
{
    if known.as_slice() != message.as_slice() {
        return None;
    }
    let known = known.clone().ok()?;
    Some((known, number))
}
