//! Two files whose links differ.
ghost use Rattle.std.specs.Prelude.{◌≡◌, ◌++◌, IfOk, IfSome, OnOk};
ghost use Rattle.it_rule_notes.specs.CountingFile.{setting_of};
ghost use Rattle.it_rule_notes.specs.Disagree.{IsOtherLink, TellsDisagree, difference_form};
ghost use Rattle.it_rule_notes.specs.Disagree.{disagree_line, links_form};

use crate::counting_link::counting_link;
use crate::difference::{Difference, difference_of};
use crate::level::Level;
use crate::line::{push_text, push_told};
use crate::link_file::{LinkFile, link_file};
use it_base::text::Text;
use it_chain::signers::signers;
use it_docs::step::{Step, step_named};
use it_dsse::checks::Checks;
use it_report::side_text;
use std::alloc::{AllocError, Global};

/// A file whose link differs from another.
#[derive(Drop)]
pub struct OtherLink {
    /// The file.
    pub file: LinkFile,
    /// Where the links differ.
    pub difference: Difference,
}

/// Two files with links of a step that both count and differ.
#[derive(Drop)]
pub struct DisagreeNote {
    /// The name of the step.
    pub step: Text,
    /// A file.
    pub first: LinkFile,
    /// Another file, and where its link differs from that of the first.
    pub second: OtherLink,
}

/// Says which file of a step holds a different link from the file of a key id, and where they
/// differ (in-toto 1.0, section 5.2; that all must agree is this profile's choice).
///
/// `step` is the name of a step of the layout of `level`, `id` the key id, and the `checks` check
/// the signatures. The answer is `None` where no link for a key id of the step differs from that of
/// `id`, or there is none for `id`.
///
/// # Errors
///
/// `AllocError` where memory was refused.
pub fn disagree_note<C: Checks>(
    alloc: Global,
    level: &Level,
    step: &str,
    id: &str,
    checks: &C,
) -> Result<Option<DisagreeNote>, AllocError>
    ensures { IfOk result (λ found. IfSome found (λ note. (note.step ≡ step.now)
        × TellsDisagree (setting_of (C.panel checks.now) level.now.moment)
        level.now.layout.now level.now.links.now note)) }
{
    let Some(asked) = step_named(level.layout.steps.as_slice(), step) else {
        return Ok(None);
    };
    let Some(first) = link_file(alloc, level, asked, id, checks)? else {
        return Ok(None);
    };
    let Some(second) = other_link(alloc, level, asked, &first, checks)? else {
        return Ok(None);
    };
    let step = Text::copy(alloc, step)?;
    Ok(Some(DisagreeNote {
        step,
        first,
        second,
    }))
}

/// The first file whose link counts for the step and differs from that of another file. Each file
/// is read once, however many key ids the step lists.
fn other_link<C: Checks>(
    alloc: Global,
    level: &Level,
    step: &Step,
    first: &LinkFile,
    checks: &C,
) -> Result<Option<OtherLink>, AllocError>
    ensures { IfOk result (λ found. IfSome found (IsOtherLink
        (setting_of (C.panel checks.now) level.now.moment)
        level.now.layout.now level.now.links.now step.now first.now)) }
{
    let asked = signers(alloc, level.layout, step)?;
    for file in level.links.files() {
        let name = step.name.as_str();
        if let Some(held) = counting_link(alloc, file, name, asked.as_slice(), checks)? {
            if let Some(difference) = difference_of(alloc, &first.link, &held.link)? {
                return Ok(Some(OtherLink {
                    file: held,
                    difference,
                }));
            }
        }
    }
    Ok(None)
}

impl DisagreeNote {
    /// Appends the note as a line for people.
    ///
    /// # Errors
    ///
    /// `AllocError` where memory was refused; a part of the line may have been appended then.
    pub fn push_line(&self, text: &mut Vec<u8>) -> Result<(), AllocError>
        ensures { OnOk result (text.new.items ≡ text.old.items ++ disagree_line self.now) }
    {
        push_links(text, &self.first.name, &self.second.file.name)?;
        push_difference(text, &self.step, &self.second.difference)
    }
}

#[tactic(auto, unfolding(crate::specs::Disagree::links_form))]
fn push_links(text: &mut Vec<u8>, first: &Text, second: &Text) -> Result<(), AllocError>
    ensures { OnOk result (text.new.items ≡ text.old.items ++ links_form first.now second.now) }
{
    push_told(text, "layout: the links ", first, "")?;
    push_told(text, " and ", second, "")
}

#[tactic(auto, unfolding(crate::specs::Disagree::difference_form))]
fn push_difference(
    text: &mut Vec<u8>,
    step: &Text,
    difference: &Difference,
) -> Result<(), AllocError>
    ensures { OnOk result
        (text.new.items ≡ text.old.items ++ difference_form step.now difference.now) }
{
    push_told(text, " of step ", step, " differ in the ")?;
    push_text(text, side_text(difference.side))?;
    push_told(text, " at ", &difference.path, "\n")
}
