//! The items of a pattern.
use crate::body::Body;

/// One item of a pattern.
#[derive(Drop)]
pub enum Item {
    /// Any run of characters, including none.
    Star,
    /// Any one character.
    Any,
    /// One character that is in the body or, if negated, one that is not.
    OneOf { negated: bool, body: Body },
    /// This character.
    Exactly(char),
}

impl Item {
    ghost use Rattle.std.specs.Prelude.{◌≡◌, IsTrue, ◌↔◌};
    ghost use Rattle.it_glob.specs.Pattern.{Takes};
    ghost use Rattle.it_glob.specs.declared.item.Item.TheVariants.{Star};

    /// Whether the item is a star.
    pub fn is_star(&self) -> bool
        ensures { IsTrue result ↔ (self.now ≡ Star) }
    {
        matches!(self, Item::Star)
    }

    /// Whether the item takes a character.
    pub fn takes(&self, character: char) -> bool
        ensures { IsTrue result ↔ Takes self.now character }
    {
        match self {
            Item::Star => false,
            Item::Any => true,
            Item::OneOf { negated, body } => body.has(character) != *negated,
            Item::Exactly(wanted) => character == *wanted,
        }
    }
}
