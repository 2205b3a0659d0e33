//! The places, in a policy or a layout, of objects whose members have a meaning.
ghost use Rattle.std.specs.Prelude.{◌≡◌, IfOk};
ghost use Rattle.it_findings.specs.KeyPlaces.{id_of, list_of};

use crate::null_key::KeyList;
use it_base::text::Text;
use std::alloc::{AllocError, Global};

/// A place in a policy or a layout. Numbers count from 0.
#[derive(Drop)]
pub enum Place {
    /// The whole policy.
    Policy,
    /// This expectation of a policy.
    Expectation(usize),
    /// A builder of an expectation of a policy.
    Builder {
        /// The number of the expectation.
        expectation: usize,
        /// The number of the builder.
        builder: usize,
    },
    /// The whole layout.
    Layout,
    /// This step of a layout.
    Step(usize),
    /// This inspection of a layout.
    Inspection(usize),
    /// A key object.
    Key(KeyPlace),
    /// The `keyval` of a key object.
    KeyValue(KeyPlace),
}

/// The place of a key object.
#[derive(Drop)]
pub enum KeyPlace {
    /// In a policy's `owners`, under this id.
    Owner(Text),
    /// In the `keys` of a builder of a policy.
    Builder {
        /// The number of the expectation.
        expectation: usize,
        /// The number of the builder.
        builder: usize,
        /// The id of the key.
        id: Text,
    },
    /// In a layout's `keys`, under this id.
    Layout(Text),
}

impl Place {
    /// A copy of the place, in memory of `alloc`.
    ///
    /// # Errors
    ///
    /// `AllocError` where memory was refused.
    pub fn copy(&self, alloc: Global) -> Result<Place, AllocError>
        ensures { IfOk result (λ copy. copy ≡ self.now) }
    {
        Ok(match self {
            Place::Policy => Place::Policy,
            Place::Expectation(number) => Place::Expectation(*number),
            Place::Builder {
                expectation,
                builder,
            } => Place::Builder {
                expectation: *expectation,
                builder: *builder,
            },
            Place::Layout => Place::Layout,
            Place::Step(number) => Place::Step(*number),
            Place::Inspection(number) => Place::Inspection(*number),
            Place::Key(key) => Place::Key(key.copy(alloc)?),
            Place::KeyValue(key) => Place::KeyValue(key.copy(alloc)?),
        })
    }
}

impl KeyPlace {
    /// The id under which the key object stands. Takes no memory.
    pub fn id(&self) -> &Text
        ensures { result.now ≡ id_of self.now }
    {
        match self {
            KeyPlace::Owner(id) | KeyPlace::Layout(id) => id,
            KeyPlace::Builder { id, .. } => id,
        }
    }

    /// The list in which the key object stands. Takes no memory.
    pub fn list(&self) -> KeyList
        ensures { result ≡ list_of self.now }
    {
        match self {
            KeyPlace::Owner(_) => KeyList::Owners,
            KeyPlace::Builder {
                expectation,
                builder,
                ..
            } => KeyList::OfBuilder {
                expectation: *expectation,
                builder: *builder,
            },
            KeyPlace::Layout(_) => KeyList::OfLayout,
        }
    }

    /// A copy of the place, in memory of `alloc`.
    ///
    /// # Errors
    ///
    /// `AllocError` where memory was refused.
    pub fn copy(&self, alloc: Global) -> Result<KeyPlace, AllocError>
        ensures { IfOk result (λ copy. copy ≡ self.now) }
    {
        Ok(match self {
            KeyPlace::Owner(id) => KeyPlace::Owner(Text::copy(alloc, id.as_str())?),
            KeyPlace::Builder {
                expectation,
                builder,
                id,
            } => KeyPlace::Builder {
                expectation: *expectation,
                builder: *builder,
                id: Text::copy(alloc, id.as_str())?,
            },
            KeyPlace::Layout(id) => KeyPlace::Layout(Text::copy(alloc, id.as_str())?),
        })
    }
}
