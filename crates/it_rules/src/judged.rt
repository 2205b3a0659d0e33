//! An artifact that a rule is judged on.
ghost use Rattle.std.specs.Prelude.{◌≡◌, option_map};
ghost use Rattle.std.specs.FinMap.{get};
ghost use Rattle.it_rules.specs.Item.{artifacts_on, recorded_of};
ghost use Rattle.it_rules.specs.inside.Judged.{HasDigests};

use crate::item::Item;
use it_digest::compact::CompactSet;
use it_docs::rule::Side;

/// An artifact that a rule is judged on, with what the judged side has for it, so that its path is
/// not looked up there again.
#[derive(Drop)]
pub(crate) struct JudgedArtifact<'i, 'a, 'p> {
    /// The item.
    pub item: &'i Item<'a>,
    /// The side of the item that is judged.
    pub side: Side,
    /// The path of the artifact.
    pub path: &'p str,
    /// Its digests on that side, or `None` where it is not there.
    pub digests: Option<&'a CompactSet>,
}

impl<'a> JudgedArtifact<'_, 'a, '_> {
    /// Its digests on a `side` of the item.
    pub fn on(&self, side: Side) -> Option<&'a CompactSet>
        requires { HasDigests self.now }
        ensures { option_map (λ digests. digests.now) result
            ≡ get (artifacts_on side (recorded_of self.now.item.now)) self.now.path.now }
    {
        if side == self.side {
            self.digests
        } else {
            self.item.artifacts_on(side).at(self.path)
        }
    }
}
