//! Notes on a list of artifact rules, as lines for people.
ghost use Rattle.std.specs.Prelude.{◌≡◌, ◌++◌, OnOk, codes, decimal};
ghost use Rattle.it_member_notes.specs.RuleLines.{predicate_form, rule_list_line, subject_form};

use crate::quoted::{push_text, push_told};
use crate::rule_list_note::RuleListNote;
use std::alloc::{AllocError, Global};

impl RuleListNote {
    /// Appends the note, on the policy's rules on what is delivered, as a line of English, which
    /// ends with a line feed. Names are written as `push_cut_name` does.
    ///
    /// # Errors
    ///
    /// `AllocError` where memory was refused; a part of the line may have been appended then.
    pub fn push_deliver_line(&self, alloc: Global, out: &mut Vec<u8>) -> Result<(), AllocError>
        ensures { OnOk result (out.new.items ≡ out.old.items ++ rule_list_line self.now) }
    {
        self.push_subject(alloc, out, "policy")?;
        push_text(out, " of deliver")?;
        self.push_predicate(out)?;
        Ok(())
    }

    /// Appends the document and what in it the note is about: one rule, or all of them.
    pub(crate) fn push_subject(
        &self,
        alloc: Global,
        out: &mut Vec<u8>,
        document: &str,
    ) -> Result<(), AllocError>
        ensures { OnOk result
            (out.new.items ≡ out.old.items ++ subject_form document.now self.now) }
    {
        push_text(out, document)?;
        match self {
            RuleListNote::MatchFromNoStep { rule, .. } => push_rule(alloc, out, *rule),
            RuleListNote::NoDisallowAtEnd => push_text(out, ": the rules"),
        }
    }

    /// Appends what the note says about it, and a line feed.
    pub(crate) fn push_predicate(&self, out: &mut Vec<u8>) -> Result<(), AllocError>
        ensures { OnOk result (out.new.items ≡ out.old.items ++ predicate_form self.now) }
    {
        match self {
            RuleListNote::MatchFromNoStep { name, .. } => {
                let after = ", and no step or inspection has that name\n";
                push_told(out, " takes from ", name.as_str(), after)
            }
            RuleListNote::NoDisallowAtEnd => push_text(out, " do not end with a DISALLOW\n"),
        }
    }
}

fn push_rule(alloc: Global, out: &mut Vec<u8>, rule: usize) -> Result<(), AllocError>
    ensures { OnOk result (out.new.items ≡ out.old.items ++ codes ": rule " ++ decimal rule) }
{
    let words = format!(in alloc; ": rule {rule}")?;
    push_text(out, words.as_str())
}
