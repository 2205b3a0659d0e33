//! What a note on the patterns of expectations says to people.
ghost use Rattle.std.specs.Prelude.{◌≡◌, ◌++◌, OnOk};
ghost use Rattle.std.specs.List.{flat_map};
ghost use Rattle.it_prov_notes.specs.ProvenanceLines.{matching_form, others_form, pattern_form};
ghost use Rattle.it_prov_notes.specs.ProvenanceLines.{patterns_form, patterns_line};

use crate::patterns::PatternsNote;
use crate::words::push_words;
use it_base::text::Text;
use it_report::name::push_cut_name;
use std::alloc::AllocError;

impl PatternsNote {
    /// Appends what the note says as one line, with its line feed: the patterns, as
    /// `push_cut_name` writes a name, and whether there are others; or that there is none.
    ///
    /// # Errors
    ///
    /// `AllocError` where memory was refused; a part of the line may have been appended then.
    pub fn push_line(&self, text: &mut Vec<u8>) -> Result<(), AllocError>
        ensures { OnOk result (text.new.items ≡ text.old.items ++ patterns_line self.now) }
    {
        push_patterns(text, self.patterns.as_slice(), self.others)?;
        push_words(text, "\n")
    }
}

#[tactic(auto, unfolding(crate::specs::ProvenanceLines::patterns_form))]
fn push_patterns(text: &mut Vec<u8>, patterns: &[Text], others: bool) -> Result<(), AllocError>
    ensures { OnOk result (text.new.items ≡ text.old.items ++ patterns_form patterns.now others) }
{
    if patterns.is_empty() {
        return push_words(text, "policy: it has no expectation");
    }
    push_matching(text, patterns, others)
}

/// Appends patterns, and whether there are others.
fn push_matching(text: &mut Vec<u8>, patterns: &[Text], others: bool) -> Result<(), AllocError>
    ensures { OnOk result (text.new.items ≡ text.old.items ++ matching_form patterns.now others) }
{
    push_words(text, "policy: its expectations are for files that match")?;
    push_each(text, patterns)?;
    push_words(text, others_words(others))
}

fn others_words(others: bool) -> &'static str
    ensures { result.now ≡ others_form others }
{
    if others { " and others" } else { "" }
}

/// Appends patterns, each after a space.
fn push_each(text: &mut Vec<u8>, patterns: &[Text]) -> Result<(), AllocError>
    ensures { OnOk result (text.new.items ≡ text.old.items ++ flat_map pattern_form patterns.now) }
{
    for pattern in patterns {
        push_words(text, " ")?;
        push_cut_name(text, pattern.as_str().as_bytes())?;
    }
    Ok(())
}
