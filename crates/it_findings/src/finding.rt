//! Findings, and where they are.
ghost use Rattle.std.specs.Prelude.{◌≡◌, IfOk};

use crate::member_finding::MemberFinding;
use crate::null_key::NullKey;
use crate::place::KeyPlace;
use crate::shared_key::SharedKey;
use it_base::text::Text;
use it_docs::rule::Side;
use std::alloc::{AllocError, Global};

/// A list of artifact rules (in-toto 1.0 section 4.3.3) in a policy or a layout. Places count from
/// 0.
#[derive(Drop)]
pub enum RuleList {
    /// The policy's rules on what is delivered.
    Deliver,
    /// The rules on a side of a step.
    OfStep {
        /// The step's place in the layout.
        place: usize,
        /// The step's name.
        name: Text,
        /// The side.
        side: Side,
    },
    /// The rules on a side of an inspection.
    OfInspection {
        /// The inspection's place in the layout.
        place: usize,
        /// The inspection's name.
        name: Text,
        /// The side.
        side: Side,
    },
}

/// A step of a layout.
#[derive(Drop)]
pub struct StepPlace {
    /// Its place in the layout, from 0.
    pub place: usize,
    /// Its name.
    pub name: Text,
}

/// Something in a policy or a layout that may not do what its author meant. Places count from 0.
#[derive(Drop)]
pub enum Finding {
    /// The list has no rules, so that it lets every path through.
    NoRules(RuleList),
    /// The list is not closed: paths that no rule names may pass it.
    OpenRules(RuleList),
    /// A `MATCH` rule takes from a name that no step and no inspection of the layout has.
    UnknownItem {
        /// The list.
        list: RuleList,
        /// The rule's place in it.
        place: usize,
        /// The name.
        name: Text,
    },
    /// A rule has a parameter of in-toto, which stands for itself here.
    Parameter {
        /// The list.
        list: RuleList,
        /// The rule's place in it.
        place: usize,
    },
    /// A step needs more different keys than it lists, so that it never passes.
    HighThreshold {
        /// The step.
        step: StepPlace,
        /// How many different keys it needs.
        threshold: u64,
        /// How many different key ids it lists.
        ids: u64,
    },
    /// A step lists a key id for which the layout has no key object.
    UnknownKey {
        /// The step.
        step: StepPlace,
        /// The id's place in its list.
        place: usize,
        /// The id.
        id: Text,
    },
    /// A step lists a key id that stands earlier in its list as well.
    RepeatedKey {
        /// The step.
        step: StepPlace,
        /// The id's place in its list.
        place: usize,
        /// The id.
        id: Text,
    },
    /// The expectation at this place has no builders, so that no provenance meets it.
    NoBuilders(usize),
    /// The expectation at this place asks for level 0, which every builder reaches.
    NoLevel(usize),
    /// An expectation has builders, and none of them reaches the level that it asks for.
    UnreachableLevel {
        /// The expectation's place.
        place: usize,
        /// The level.
        level: u8,
    },
    /// An expectation expects a number that equals none, so that no provenance meets it.
    UnequalNumber {
        /// The expectation's place.
        place: usize,
        /// The name of the parameter that is the number, or holds it.
        name: Text,
    },
    /// The expectation at this place is unused in a delivery: to each delivered file that its
    /// pattern matches an earlier one applies.
    UnusedExpectation(usize),
    /// The step at this place has no threshold, so that one key is enough for it.
    NoThreshold(usize),
    /// Null stands under a key id, which so counts as missing.
    NullKey(NullKey),
    /// A key object of an owner or of a layout describes an identity, whose signatures on layouts
    /// and links count only where lines of the provenance have them.
    IdentityKey(KeyPlace),
    /// A key object has the scheme of identities and describes none, so that no signature counts
    /// for it.
    IncompleteIdentity(KeyPlace),
    /// Two owners, or two builders, have the same key.
    SharedKey(SharedKey),
    /// Something about a member.
    Member(MemberFinding),
}

impl StepPlace {
    /// A copy, in memory of `alloc`.
    ///
    /// # Errors
    ///
    /// `AllocError` where memory was refused.
    pub fn copy(&self, alloc: Global) -> Result<StepPlace, AllocError>
        ensures { IfOk result (λ copy. copy ≡ self.now) }
    {
        Ok(StepPlace {
            place: self.place,
            name: Text::copy(alloc, self.name.as_str())?,
        })
    }
}

impl RuleList {
    /// A copy, in memory of `alloc`.
    ///
    /// # Errors
    ///
    /// `AllocError` where memory was refused.
    pub fn copy(&self, alloc: Global) -> Result<RuleList, AllocError>
        ensures { IfOk result (λ copy. copy ≡ self.now) }
    {
        Ok(match self {
            RuleList::Deliver => RuleList::Deliver,
            RuleList::OfStep { place, name, side } => RuleList::OfStep {
                place: *place,
                name: Text::copy(alloc, name.as_str())?,
                side: *side,
            },
            RuleList::OfInspection { place, name, side } => RuleList::OfInspection {
                place: *place,
                name: Text::copy(alloc, name.as_str())?,
                side: *side,
            },
        })
    }
}
