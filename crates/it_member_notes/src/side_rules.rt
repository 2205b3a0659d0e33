//! The artifact rules on a side (in-toto 1.0 section 4.3.3).
ghost use Rattle.std.specs.Prelude.{◌≡◌};
ghost use Rattle.it_member_notes.specs.LayoutNotes.{rules_of_inspection, rules_of_step};

use it_docs::rule::{Rule, Side};
use it_docs::step::{Inspection, Step};

/// The rules of a step on a side.
pub fn rules_of_step(step: &Step, side: Side) -> &[Rule]
    ensures { result.now ≡ rules_of_step side step.now }
{
    match side {
        Side::Materials => step.expected_materials.as_slice(),
        Side::Products => step.expected_products.as_slice(),
    }
}

/// The rules of an inspection on a side.
pub fn rules_of_inspection(inspection: &Inspection, side: Side) -> &[Rule]
    ensures { result.now ≡ rules_of_inspection side inspection.now }
{
    match side {
        Side::Materials => inspection.expected_materials.as_slice(),
        Side::Products => inspection.expected_products.as_slice(),
    }
}
