//! Delivered files that are tied to no step, as lines.
ghost use Rattle.std.specs.Prelude.{◌≡◌, ◌++◌, OnOk, take};
ghost use Rattle.std.specs.List.{flat_map};
ghost use Rattle.it_strict.specs.FoundText.{untied_line, untied_sentence, untied_text};

use it_base::text::Text;
use it_check::{MOST_WRITTEN, push_more, push_start, push_text, push_told};
use std::alloc::AllocError;

/// The name of the finding on a delivered file that is tied to no step.
pub const UNTIED_NAME: &str = "untied-file";

/// Its place in the policy, as a JSON pointer.
pub const UNTIED_POINTER: &str = "/deliver";

/// Appends the lines of the first 40 files, and how many there are where there are more.
#[tactic(auto, unfolding(crate::specs::FoundText::untied_text))]
pub(crate) fn push_untied(text: &mut Vec<u8>, untied: &[Text]) -> Result<(), AllocError>
    ensures { OnOk result (text.new.items ≡ text.old.items ++ untied_text untied.now) }
{
    push_first(text, untied)?;
    push_more(text, "untied files", untied.len())
}

/// Appends the lines of the first 40 files.
fn push_first(text: &mut Vec<u8>, untied: &[Text]) -> Result<(), AllocError>
    ensures { OnOk result
        (text.new.items ≡ text.old.items ++ flat_map untied_line (take 40 untied.now)) }
{
    if untied.len() > MOST_WRITTEN {
        push_each(text, &untied[..MOST_WRITTEN])
    } else {
        push_each(text, untied)
    }
}

fn push_each(text: &mut Vec<u8>, untied: &[Text]) -> Result<(), AllocError>
    ensures { OnOk result (text.new.items ≡ text.old.items ++ flat_map untied_line untied.now) }
{
    for path in untied {
        push_path(text, path)?;
    }
    Ok(())
}

#[tactic(auto, unfolding(crate::specs::FoundText::untied_line))]
fn push_path(text: &mut Vec<u8>, path: &Text) -> Result<(), AllocError>
    ensures { OnOk result (text.new.items ≡ text.old.items ++ untied_line path.now) }
{
    push_start(text, "policy", UNTIED_NAME, UNTIED_POINTER.as_bytes())?;
    push_untied_sentence(text, path)?;
    push_text(text, "\n")
}

/// Appends what is said of a delivered file that is tied to no step, as a sentence without a full
/// stop, with the path written as reports write names.
///
/// # Errors
///
/// `AllocError` where memory was refused; a part of the sentence may have been appended then.
pub fn push_untied_sentence(text: &mut Vec<u8>, path: &Text) -> Result<(), AllocError>
    ensures { OnOk result (text.new.items ≡ text.old.items ++ untied_sentence path.now) }
{
    push_told(
        text,
        "no MATCH rule WITH PRODUCTS FROM a step takes ",
        path,
        "",
    )
}
