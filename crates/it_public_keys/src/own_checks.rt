//! The checks of a command: rings of secrets, and public keys.
ghost use Rattle.std.specs.Prelude.{◌≡◌};
ghost use Rattle.it_dsse.specs.Panel.{panel_of};

use crate::found_key::FoundKey;
use crate::memory::Memory;
use crate::rings::key_in;
use it_dsse::asked::Asked;
use it_dsse::check::SignatureCheck;
use it_dsse::checks::Checks;
use it_dsse::envelope::Signature;
use it_dsse::key_name::KeyName;
use it_dsse::key_object::KeyObject;
use it_dsse::meter::Meter;
use it_dsse::ring::HmacRing;
use std::alloc::{AllocError, Global};

/// How many signatures are checked by public keys at most, where no other number is asked for.
pub const MOST_CHECKS: u64 = 20_000;

/// The checks of a command: its rings, in order, and after them that of public keys, where it is
/// asked for. A public key is decoded once, and each signature is checked once for a key, as far as
/// there is room to remember them. No more signatures are checked by public keys than a budget
/// allows: past it, what would need one more answers with an error. What is remembered, and what a
/// ring checks, costs none of it.
#[derive(Drop)]
pub struct OwnChecks {
    /// The rings.
    pub rings: Vec<HmacRing>,
    /// Whether public keys are known.
    pub public_keys: bool,
    /// What is remembered of public keys, and the budget.
    memory: Memory,
}

impl OwnChecks {
    /// The checks by these rings and, where they are asked for, by public keys, which check
    /// `most_checks` signatures at most.
    pub fn new(
        alloc: Global,
        rings: Vec<HmacRing>,
        public_keys: bool,
        most_checks: u64,
    ) -> OwnChecks
        ensures rings { result.rings ≡ rings }
        ensures public_keys { result.public_keys ≡ public_keys }
    {
        OwnChecks {
            rings,
            public_keys,
            memory: Memory::new(alloc, most_checks),
        }
    }

    /// Whether public keys would have had to check more signatures than they may.
    pub fn is_spent(&self) -> bool {
        self.memory.is_spent()
    }
}

/// A key that was found.
#[derive(Drop)]
pub enum OwnKey {
    /// That of a ring, by the ring's place and the key's number there.
    Ring(usize, u32),
    /// A public key.
    Public(FoundKey),
}

impl Checks for OwnChecks {
    type Found = OwnKey;

    ghost use Rattle.it_public_keys.specs.OwnChecks.{own_checks};
    ghost use Rattle.it_public_keys.specs.OwnKeys.{found_number, Stands};

    ghost panel = { λ s. panel_of (own_checks s.rings.items s.public_keys) };

    ghost number = { found_number };

    ghost stands = { Stands };

    fn find(&self, id: &str, object: &KeyObject) -> Option<OwnKey> {
        if let Some((place, number)) = key_in(self.rings.as_slice(), id, object) {
            return Some(OwnKey::Ring(place, number));
        }
        if !self.public_keys {
            return None;
        }
        match self.memory.find(object) {
            Some(key) => Some(OwnKey::Public(key)),
            None => None,
        }
    }

    fn any_valid(
        &self,
        key: &OwnKey,
        message: &[&[u8]],
        signatures: &[Signature],
        id: &str,
        meter: &mut Meter,
    ) -> Result<bool, AllocError> {
        match key {
            OwnKey::Ring(place, number) => {
                let ring = &self.rings[*place];
                Ok(ring.any_valid(*number, message, signatures, id, meter))
            }
            OwnKey::Public(key) => {
                let asked = Asked {
                    message,
                    signatures,
                    id,
                };
                self.memory.any_valid(key, &asked, meter)
            }
        }
    }

    fn name(&self, key: &OwnKey) -> KeyName {
        match key {
            OwnKey::Ring(place, number) => KeyName::numbered(*place, *number),
            OwnKey::Public(key) => key.as_key().name(self.rings.len()),
        }
    }
}
