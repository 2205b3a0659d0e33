//! What is said of findings on the expectations of a policy.
ghost use Rattle.std.specs.Prelude.{◌≡◌, ◌++◌, OnOk};
ghost use Rattle.it_check.specs.ExpectationSentence.{no_builders_sentence, no_level_sentence};
ghost use Rattle.it_check.specs.ExpectationSentence.{unequal_number_sentence};
ghost use Rattle.it_check.specs.ExpectationSentence.{unreachable_level_sentence};
ghost use Rattle.it_check.specs.ExpectationSentence.{unused_expectation_sentence};

use crate::writing::{push_told, push_told_number};
use it_base::text::Text;
use std::alloc::AllocError;

/// Appends what is said of an expectation without builders.
pub(crate) fn push_no_builders(text: &mut Vec<u8>, place: usize) -> Result<(), AllocError>
    ensures { OnOk result (text.new.items ≡ text.old.items ++ no_builders_sentence place) }
{
    let after = " has no builders, so that no provenance meets it";
    push_told_number(text, "expectation ", place, after)
}

/// Appends what is said of an expectation of level 0.
pub(crate) fn push_no_level(text: &mut Vec<u8>, place: usize) -> Result<(), AllocError>
    ensures { OnOk result (text.new.items ≡ text.old.items ++ no_level_sentence place) }
{
    let after = " asks for level 0, which every builder reaches";
    push_told_number(text, "expectation ", place, after)
}

/// Appends what is said of an expectation whose level none of its builders reaches.
#[tactic(auto, unfolding(crate::specs::ExpectationSentence::unreachable_level_sentence))]
pub(crate) fn push_unreachable_level(
    text: &mut Vec<u8>,
    place: usize,
    level: u8,
) -> Result<(), AllocError>
    ensures { OnOk result
        (text.new.items ≡ text.old.items ++ unreachable_level_sentence place level) }
{
    push_told_number(text, "expectation ", place, " asks for level ")?;
    let after = ", which none of its builders reaches";
    push_told_number(text, "", level as usize, after)
}

/// Appends what is said of an expectation with a parameter that has a number that equals none.
#[tactic(auto, unfolding(crate::specs::ExpectationSentence::unequal_number_sentence))]
pub(crate) fn push_unequal_number(
    text: &mut Vec<u8>,
    place: usize,
    name: &Text,
) -> Result<(), AllocError>
    ensures { OnOk result
        (text.new.items ≡ text.old.items ++ unequal_number_sentence place name.now) }
{
    push_told_number(text, "expectation ", place, " has in the parameter ")?;
    let after = " a number that is no whole number of 64 bits, so that no provenance meets it";
    push_told(text, "", name, after)
}

/// Appends what is said of an expectation that is unused in a delivery.
pub(crate) fn push_unused_expectation(text: &mut Vec<u8>, place: usize) -> Result<(), AllocError>
    ensures { OnOk result (text.new.items ≡ text.old.items ++ unused_expectation_sentence place) }
{
    let after = " is unused, since earlier ones apply to each delivered file that it matches";
    push_told_number(text, "expectation ", place, after)
}
