//! Steps and inspections of layouts (in-toto 1.0 section 4.3).
ghost use Rattle.std.specs.Prelude.{◌≡◌, ◌≢◌, ◌≤◌, All, Contains, IfOk, IfErr, IfSome, MatchOption};
ghost use Rattle.it_borrowed.specs.Tree.{as_data};
ghost use Rattle.it_base.specs.Finds.{Finds};
ghost use Rattle.it_docs.specs.Threshold.{IsThreshold, IsThresholdPart};

use crate::rule::Rule;
use it_base::sequence::Sequence;
use it_base::text::Text;
use it_borrowed::document::member;
use it_borrowed::list::list_or_empty;
use it_borrowed::parts::{FromBorrowed, part};
use it_borrowed::whole::unsigned_of;
use json::Value;
use std::alloc::{AllocError, Global};

/// A step that a layout asks for.
#[derive(Drop)]
pub struct Step {
    /// The name of the step, which no other step or inspection of the layout has.
    pub name: Text,
    /// How many different keys must have signed for the step, at least 1.
    pub threshold: u64,
    /// The ids of the keys that may sign for it.
    pub pubkeys: Sequence<Text>,
    /// The rules on what the step used.
    pub expected_materials: Sequence<Rule>,
    /// The rules on what the step made.
    pub expected_products: Sequence<Rule>,
    /// The threshold is at least 1.
    pub ghost threshold_at_least_one: { 1 ≤ threshold },
}

/// An inspection that a layout asks for.
#[derive(Drop)]
pub struct Inspection {
    /// The name of the inspection, which no step or other inspection of the layout has.
    pub name: Text,
    /// The rules on what the inspection used.
    pub expected_materials: Sequence<Rule>,
    /// The rules on what the inspection made.
    pub expected_products: Sequence<Rule>,
}

/// The first step of this name. Takes no memory.
pub fn step_named<'a>(steps: &'a [Step], name: &str) -> Option<&'a Step>
    ensures { MatchOption result (All (λ step. step.name ≢ name.now) steps.now)
        (λ step. Contains steps.now step.now × (step.now.name ≡ name.now)) }
{
    for step in steps {
        if step.name.as_str() == name {
            return Some(step);
        }
    }
    None
}

impl FromBorrowed for Step {
    ghost use Rattle.it_docs.specs.Step.{IsStep};

    ghost is_of = { IsStep };

    fn from_borrowed(alloc: Global, value: &Value<'_>) -> Result<Option<Step>, AllocError> {
        let Some(name) = part::<Text>(alloc, value, "name")? else {
            return Ok(None);
        };
        let Some(threshold) = threshold(value) else {
            return Ok(None);
        };
        let Some(pubkeys) = list_or_empty::<Text>(alloc, value, "pubkeys")? else {
            return Ok(None);
        };
        let Some(expected_materials) = list_or_empty::<Rule>(alloc, value, "expected_materials")?
        else {
            return Ok(None);
        };
        let Some(expected_products) = list_or_empty::<Rule>(alloc, value, "expected_products")?
        else {
            return Ok(None);
        };
        Ok(Some(Step {
            name,
            threshold,
            pubkeys,
            expected_materials,
            expected_products,
        }))
    }
}

impl FromBorrowed for Inspection {
    ghost use Rattle.it_docs.specs.Step.{IsInspection};

    ghost is_of = { IsInspection };

    fn from_borrowed(alloc: Global, value: &Value<'_>) -> Result<Option<Inspection>, AllocError> {
        let Some(name) = part::<Text>(alloc, value, "name")? else {
            return Ok(None);
        };
        let Some(expected_materials) = list_or_empty::<Rule>(alloc, value, "expected_materials")?
        else {
            return Ok(None);
        };
        let Some(expected_products) = list_or_empty::<Rule>(alloc, value, "expected_products")?
        else {
            return Ok(None);
        };
        Ok(Some(Inspection {
            name,
            expected_materials,
            expected_products,
        }))
    }
}

/// The threshold of a step: 1 where it is missing, and `None` where it is not a whole number above
/// 0 that fits 64 bits.
fn threshold(value: &Value<'_>) -> Option<u64>
    ensures { Finds (IsThresholdPart (as_data value.now)) result }
{
    match member(value, "threshold") {
        None => Some(1),
        Some(found) => whole_threshold(found),
    }
}

fn whole_threshold(value: &Value<'_>) -> Option<u64>
    ensures { Finds (IsThreshold (as_data value.now)) result }
{
    let threshold = unsigned_of(value)?;
    if threshold == 0 {
        None
    } else {
        Some(threshold)
    }
}
