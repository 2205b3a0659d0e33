//! What artifact rules are judged over.
ghost use Rattle.std.specs.Prelude.{◌≡◌};

use it_digest::artifacts::Artifacts;
use it_digest::compact::CompactSet;
use it_docs::rule::Side;

/// The artifacts that an item recorded: a step, an inspection, or the delivery.
#[derive(Drop)]
pub struct Item<'a> {
    /// What went in, by path.
    pub materials: &'a Artifacts,
    /// What came out, by path.
    pub products: &'a Artifacts,
}

/// The artifacts that an item recorded, under the item's name.
#[derive(Drop)]
pub struct Named<'a> {
    /// The name that `MATCH` rules give.
    pub name: &'a str,
    /// What the item recorded.
    pub item: Item<'a>,
}

/// What a list of rules is judged on.
#[derive(Drop)]
pub(crate) struct Subject<'i, 'a, 'd, 'l, 'n> {
    /// The side of the item.
    pub side: Side,
    /// The item.
    pub item: &'i Item<'a>,
    /// The digests of each path of the side, in the order of the paths.
    pub digests: &'d [&'a CompactSet],
    /// The items that `MATCH` rules may name.
    pub links: &'l [Named<'n>],
}

impl<'a> Item<'a> {
    ghost use Rattle.it_rules.specs.Item.{artifacts_on, recorded_of};

    /// The artifacts that the item recorded on a `side`: its materials or its products.
    pub fn artifacts_on(&self, side: Side) -> &'a Artifacts
        ensures { result.now ≡ artifacts_on side (recorded_of self.now) }
    {
        match side {
            Side::Materials => self.materials,
            Side::Products => self.products,
        }
    }
}
