//! What in the layout, and in the policy's rules that see it, may not be what its author meant.
ghost use Rattle.std.specs.Prelude.{IfOk};
ghost use Rattle.it_dsse.specs.Envelope.{EnvelopeOf};
ghost use Rattle.it_dsse.specs.Panel.{Panel};
ghost use Rattle.it_member_notes.specs.MemberNotes.{TellsLayoutMembers};
ghost use Rattle.it_notes.specs.Known.{IsKnown};
ghost use Rattle.it_notes.specs.Notes.{TellsLayout};
ghost use Rattle.it_verify.specs.declared.inputs.Inputs.{Inputs};

use crate::known::Known;
use it_borrowed::document_text::DocumentText;
use it_dsse::envelope::Envelope;
use it_member_notes::layout_note::LayoutNote;
use it_member_notes::member_notes::MemberNotes;
use it_member_notes::rule_list_note::RuleListNote;
use it_member_notes::{layout_notes, layout_rule_notes, rule_list_notes};
use json::Scratch;
use std::alloc::{AllocError, Global};

/// Notes on a layout, and on the policy's rules on what is delivered, which see it.
#[derive(Drop)]
pub struct LayoutNotes {
    /// What the policy's rules on what is delivered ask for.
    pub deliver: Vec<RuleListNote>,
    /// The members of the layout that are not looked at, or that may not be meant.
    pub members: MemberNotes,
    /// What the layout's rules and steps ask for.
    pub rules: Vec<LayoutNote>,
}

impl LayoutNotes {
    /// The notes on the layout that was read, and on the policy's rules that see it.
    pub(crate) fn of(alloc: Global, known: &Known) -> Result<LayoutNotes, AllocError>
        ensures { (panel : Panel) (inputs : Inputs) → IsKnown panel inputs known.now
            → IfOk result (TellsLayout inputs) }
    {
        let signed = &known.top.signed;
        Ok(LayoutNotes {
            deliver: rule_list_notes(alloc, &signed.layout, known.policy.deliver.as_slice())?,
            members: members_of(alloc, signed.payload.as_slice())?,
            rules: layout_rule_notes(alloc, &signed.layout)?,
        })
    }

    /// The notes on the members of what is in the layout's envelope and is no layout.
    pub(crate) fn of_unread(alloc: Global, envelope: &Envelope) -> Result<LayoutNotes, AllocError>
        ensures { (inputs : Inputs) → EnvelopeOf inputs.layout envelope.now
            → IfOk result (TellsLayout inputs) }
    {
        Ok(LayoutNotes {
            deliver: Vec::new(alloc),
            members: members_of(alloc, envelope.payload.as_slice())?,
            rules: Vec::new(alloc),
        })
    }
}

/// The notes on the members of what is in the layout's envelope.
fn members_of(alloc: Global, payload: &[u8]) -> Result<MemberNotes, AllocError>
    ensures { IfOk result (TellsLayoutMembers payload.now) }
{
    let mut scratch = Scratch::new(alloc);
    let text = DocumentText::read(alloc, payload, &mut scratch)?;
    layout_notes(alloc, &text)
}
