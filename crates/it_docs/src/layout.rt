//! Layouts (in-toto 1.0 section 4.3).
ghost use Rattle.std.specs.List.{IsDistinct, IsDistinct-prop};
ghost use Rattle.std.specs.Str.{bytes_eq};
ghost use Rattle.it_docs.specs.Step.{names_of};

use crate::step::{Inspection, Step};
use it_base::sequence::Sequence;
use it_base::table::Table;
use it_dsse::key_object::KeyObject;

/// A layout.
#[derive(Drop)]
pub struct Layout {
    /// The moment after which the layout has expired, in seconds since 1970-01-01T00:00:00Z.
    pub expires: i64,
    /// The keys by their ids.
    pub keys: Table<KeyObject>,
    /// The steps, in order.
    pub steps: Sequence<Step>,
    /// The inspections, in order.
    pub inspections: Sequence<Inspection>,
    /// The names of steps and inspections all differ.
    pub ghost names_differ: { IsDistinct bytes_eq
        (names_of steps inspections) } by { IsDistinct-prop _ _ },
}
