//! What is said of findings on the keys of steps.
ghost use Rattle.std.specs.Prelude.{◌≡◌, ◌++◌, OnOk};
ghost use Rattle.it_check.specs.StepKeySentence.{high_threshold_sentence, no_threshold_sentence};
ghost use Rattle.it_check.specs.StepKeySentence.{on_key, repeated_key_sentence};
ghost use Rattle.it_check.specs.StepKeySentence.{threshold_form, unknown_key_sentence};

use crate::writing::{push_number, push_quoted, push_text, push_told, push_told_number};
use it_base::text::Text;
use it_findings::finding::StepPlace;
use std::alloc::AllocError;

/// Appends what is said of a step that needs more different keys than it lists.
#[tactic(auto, unfolding(crate::specs::StepKeySentence::high_threshold_sentence))]
pub(crate) fn push_high_threshold(
    text: &mut Vec<u8>,
    step: &StepPlace,
    threshold: u64,
    ids: u64,
) -> Result<(), AllocError>
    ensures { OnOk result
        (text.new.items ≡ text.old.items ++ high_threshold_sentence step.now threshold ids) }
{
    push_told(text, "step ", &step.name, " needs ")?;
    push_threshold(text, threshold, ids)
}

/// Appends how many different keys a step needs, and how many it lists.
#[tactic(auto, unfolding(crate::specs::StepKeySentence::threshold_form))]
fn push_threshold(text: &mut Vec<u8>, threshold: u64, ids: u64) -> Result<(), AllocError>
    ensures { OnOk result (text.new.items ≡ text.old.items ++ threshold_form threshold ids) }
{
    push_number(text, threshold as usize)?;
    let after = ", so that it never passes";
    push_told_number(text, " different keys and lists ", ids as usize, after)
}

/// Appends what is said of a step without a threshold.
pub(crate) fn push_no_threshold(text: &mut Vec<u8>, place: usize) -> Result<(), AllocError>
    ensures { OnOk result (text.new.items ≡ text.old.items ++ no_threshold_sentence place) }
{
    let after = " has no threshold, so that one key is enough for it";
    push_told_number(text, "step ", place, after)
}

/// Appends what is said of a key id for which the layout has no key object.
#[tactic(auto, unfolding(crate::specs::StepKeySentence::unknown_key_sentence))]
pub(crate) fn push_unknown_key(
    text: &mut Vec<u8>,
    step: &StepPlace,
    id: &Text,
) -> Result<(), AllocError>
    ensures { OnOk result
        (text.new.items ≡ text.old.items ++ unknown_key_sentence step.now id.now) }
{
    push_on_key(text, step, id)?;
    push_text(text, ", for which the layout has no key object")
}

/// Appends what is said of a key id that the step lists at an earlier place as well.
#[tactic(auto, unfolding(crate::specs::StepKeySentence::repeated_key_sentence))]
pub(crate) fn push_repeated_key(
    text: &mut Vec<u8>,
    step: &StepPlace,
    id: &Text,
) -> Result<(), AllocError>
    ensures { OnOk result
        (text.new.items ≡ text.old.items ++ repeated_key_sentence step.now id.now) }
{
    push_on_key(text, step, id)?;
    let words = ", which it lists before that already and which counts once";
    push_text(text, words)
}

/// Appends the beginning of a sentence on a key id of a step.
#[tactic(auto, unfolding(crate::specs::StepKeySentence::on_key))]
fn push_on_key(text: &mut Vec<u8>, step: &StepPlace, id: &Text) -> Result<(), AllocError>
    ensures { OnOk result (text.new.items ≡ text.old.items ++ on_key step.now id.now) }
{
    push_told(text, "step ", &step.name, " lists the key id ")?;
    push_quoted(text, id.as_str())
}
