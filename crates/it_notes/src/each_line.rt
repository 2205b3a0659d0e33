//! The line of each kind of note, as its crate writes it.
ghost use Rattle.it_key_notes.specs.Line.{key_line};
ghost use Rattle.it_member_notes.specs.MemberLines.{key_member_line, unread_line};
ghost use Rattle.it_member_notes.specs.RuleLines.{layout_line, rule_list_line};
ghost use Rattle.it_prov_notes.specs.ProvenanceLines.{provenance_line};
ghost use Rattle.it_rule_notes.specs.Cause.{cause_line};
ghost use Rattle.it_rule_notes.specs.Disagree.{disagree_line};
ghost use Rattle.it_rule_notes.specs.Expiry.{expiry_line};
ghost use Rattle.it_rule_notes.specs.MetNote.{met_line};
ghost use Rattle.it_rule_notes.specs.Owner.{owner_line};
ghost use Rattle.it_rule_notes.specs.Payloads.{payloads_line};
ghost use Rattle.it_rule_notes.specs.Rule.{rule_line};
ghost use Rattle.it_rule_notes.specs.Sublayout.{sublayout_line};
ghost use Rattle.it_step_notes.specs.Folder.{folder_line};
ghost use Rattle.it_step_notes.specs.Line.{note_line};
ghost use Rattle.it_notes.specs.FileDetails.{detail_line};

use crate::file_detail::FileDetail;
use crate::lines::Line;
use it_key_notes::unknown_key::UnknownKey;
use it_member_notes::key_member_note::KeyMemberNote;
use it_member_notes::layout_note::LayoutNote;
use it_member_notes::rule_list_note::RuleListNote;
use it_member_notes::unread_member::UnreadMember;
use it_prov_notes::note::ProvenanceNote;
use it_rule_notes::cause::CauseNote;
use it_rule_notes::disagree_note::DisagreeNote;
use it_rule_notes::expiry_note::ExpiryNote;
use it_rule_notes::met_note::MetNote;
use it_rule_notes::owner_note::OwnerNote;
use it_rule_notes::payloads_note::PayloadsNote;
use it_rule_notes::rule_note::RuleNote;
use it_rule_notes::sublayout_note::SublayoutNote;
use it_step_notes::folder_note::FolderNote;
use it_step_notes::note::StepNote;
use std::alloc::AllocError;

impl Line for SublayoutNote {
    ghost line = { sublayout_line };

    fn push_line(&self, text: &mut Vec<u8>) -> Result<(), AllocError> {
        SublayoutNote::push_line(self, text)
    }
}

impl Line for FolderNote {
    ghost line = { folder_line };

    fn push_line(&self, text: &mut Vec<u8>) -> Result<(), AllocError> {
        FolderNote::push_line(self, text)
    }
}

impl Line for StepNote {
    ghost line = { note_line };

    fn push_line(&self, text: &mut Vec<u8>) -> Result<(), AllocError> {
        StepNote::push_line(self, text)
    }
}

impl Line for FileDetail {
    ghost line = { detail_line };

    fn push_line(&self, text: &mut Vec<u8>) -> Result<(), AllocError> {
        FileDetail::push_line(self, text)
    }
}

impl Line for ProvenanceNote {
    ghost line = { provenance_line };

    fn push_line(&self, text: &mut Vec<u8>) -> Result<(), AllocError> {
        ProvenanceNote::push_line(self, text)
    }
}

impl Line for ExpiryNote {
    ghost line = { expiry_line };

    fn push_line(&self, text: &mut Vec<u8>) -> Result<(), AllocError> {
        ExpiryNote::push_line(self, text)
    }
}

impl Line for OwnerNote {
    ghost line = { owner_line };

    fn push_line(&self, text: &mut Vec<u8>) -> Result<(), AllocError> {
        OwnerNote::push_line(self, text)
    }
}

impl Line for UnknownKey {
    ghost line = { key_line };

    fn push_line(&self, text: &mut Vec<u8>) -> Result<(), AllocError> {
        UnknownKey::push_line(self, text)
    }
}

impl Line for RuleNote {
    ghost line = { rule_line };

    fn push_line(&self, text: &mut Vec<u8>) -> Result<(), AllocError> {
        RuleNote::push_line(self, text)
    }
}

impl Line for MetNote {
    ghost line = { met_line };

    fn push_line(&self, text: &mut Vec<u8>) -> Result<(), AllocError> {
        MetNote::push_line(self, text)
    }
}

impl Line for CauseNote {
    ghost line = { cause_line };

    fn push_line(&self, text: &mut Vec<u8>) -> Result<(), AllocError> {
        CauseNote::push_line(self, text)
    }
}

impl Line for UnreadMember {
    ghost line = { unread_line };

    fn push_line(&self, text: &mut Vec<u8>) -> Result<(), AllocError> {
        let alloc = *text.allocator();
        UnreadMember::push_line(self, alloc, text)
    }
}

impl Line for KeyMemberNote {
    ghost line = { key_member_line };

    fn push_line(&self, text: &mut Vec<u8>) -> Result<(), AllocError> {
        let alloc = *text.allocator();
        KeyMemberNote::push_line(self, alloc, text)
    }
}

/// Only the policy's rules on what is delivered have such notes of their own.
impl Line for RuleListNote {
    ghost line = { rule_list_line };

    fn push_line(&self, text: &mut Vec<u8>) -> Result<(), AllocError> {
        let alloc = *text.allocator();
        RuleListNote::push_deliver_line(self, alloc, text)
    }
}

impl Line for LayoutNote {
    ghost line = { layout_line };

    fn push_line(&self, text: &mut Vec<u8>) -> Result<(), AllocError> {
        let alloc = *text.allocator();
        LayoutNote::push_line(self, alloc, text)
    }
}

impl Line for PayloadsNote {
    ghost line = { payloads_line };

    fn push_line(&self, text: &mut Vec<u8>) -> Result<(), AllocError> {
        PayloadsNote::push_line(self, text)
    }
}

impl Line for DisagreeNote {
    ghost line = { disagree_line };

    fn push_line(&self, text: &mut Vec<u8>) -> Result<(), AllocError> {
        DisagreeNote::push_line(self, text)
    }
}
