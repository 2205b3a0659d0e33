//! Names of keys.
ghost use Rattle.std.specs.Prelude.{◌≡◌, ◌&&◌, ◌≤◌, length, nat_eq};
ghost use Rattle.std.proofs.Common.{rules};
ghost use Rattle.std.specs.Cmp.{partial_order_from_own_ties};
ghost use Rattle.std.specs.Cmp.Rules.{comparing};
ghost use Rattle.std.specs.Ordering.{nat_cmp, on, then_cmp, as_partial_cmp};
ghost use Rattle.it_numbers.specs.Bytes.{big};

use std::cmp::Ordering;
use std::marker::Model;

/// The most bytes of the number of a key.
const MOST_BYTES: usize = 1029;

/// The name of a key: a place and a number of up to 1,029 bytes. To a contract it is the pair of
/// the two, so names with the same place and number are the same.
#[derive(Drop)]
pub struct KeyName {
    place: usize,
    /// The number, highest byte first.
    number: [u8; MOST_BYTES],
}

impl Model for KeyName {
    ghost use Rattle.it_dsse.specs.Panel.{KeyNumber};
    ghost use Rattle.it_numbers.specs.Bytes.{big};

    ghost Value = { KeyNumber };

    ghost view = { λ name. (name.place, big name.number) };
}

impl KeyName {
    /// The name of a key that has a number at a place.
    pub fn numbered(place: usize, number: u32) -> KeyName
        ensures { result ≡ (place, number) }
    {
        KeyName::of(place, &number.to_be_bytes())
    }

    /// The name of a key whose number these bytes make, highest first.
    pub fn of(place: usize, number: &[u8]) -> KeyName
        requires { length number.now ≤ 1029 }
        ensures { result ≡ (place, big number.now) }
    {
        let mut bytes = [0; MOST_BYTES];
        bytes[MOST_BYTES - number.len()..].copy_from_slice(number);
        KeyName {
            place,
            number: bytes,
        }
    }

    /// The same name again.
    pub fn copied(&self) -> KeyName
        ensures { result ≡ self.now }
    {
        KeyName {
            place: self.place,
            number: self.number,
        }
    }
}

fn is_same_number(one: &[u8; MOST_BYTES], other: &[u8; MOST_BYTES]) -> bool
    ensures { result ≡ nat_eq (big one.now) (big other.now) }
{
    one == other
}

fn compared(one: &[u8; MOST_BYTES], other: &[u8; MOST_BYTES]) -> Ordering
    ensures { result ≡ nat_cmp (big one.now) (big other.now) }
{
    one.cmp(other)
}

impl PartialEq for KeyName {
    ghost eq = { λ a b. nat_eq a.0 b.0 && nat_eq a.1 b.1 };

    ghost laws = { Prim.search (comparing, rules) };

    fn eq(&self, other: &KeyName) -> bool {
        self.place == other.place && is_same_number(&self.number, &other.number)
    }
}

impl Eq for KeyName {
    ghost laws = { Prim.search (comparing, rules) };
}

impl Ord for KeyName {
    ghost cmp = { then_cmp (on (λ k. k.0) nat_cmp) (on (λ k. k.1) nat_cmp) };

    ghost total = { Prim.search (comparing, rules) };

    ghost matches_partial_cmp = { Prim.search (comparing, rules) };

    ghost matches_eq = { Prim.search (comparing, rules) };

    fn cmp(&self, other: &KeyName) -> Ordering {
        self.place
            .cmp(&other.place)
            .then(compared(&self.number, &other.number))
    }
}

impl PartialOrd for KeyName {
    ghost partial_cmp = { as_partial_cmp
        (then_cmp (on (λ k. k.0) nat_cmp) (on (λ k. k.1) nat_cmp)) };

    ghost laws = { partial_order_from_own_ties
        (Prim.search (comparing, rules)) (Prim.search (comparing, rules)) };

    fn partial_cmp(&self, other: &KeyName) -> Option<Ordering> {
        Some(self.cmp(other))
    }
}
