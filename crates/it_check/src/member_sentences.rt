//! What is said of findings on members.
ghost use Rattle.std.specs.Prelude.{◌≡◌, ◌++◌, OnOk, codes, option_map};
ghost use Rattle.it_check.specs.MemberSentence.{meant_form, member_sentence, unread_sentence};
ghost use Rattle.it_check.specs.Pieces.{quoted, told_form};

use crate::writing::{push_quoted, push_text, push_told};
use it_base::text::Text;
use it_findings::meant_name;
use it_findings::member_finding::MemberFinding;
use it_findings::place::{KeyPlace, Place};
use std::alloc::AllocError;

/// Appends what is said of a finding on a member.
pub(crate) fn push_on_member(text: &mut Vec<u8>, finding: &MemberFinding) -> Result<(), AllocError>
    ensures { OnOk result (text.new.items ≡ text.old.items ++ member_sentence finding.now) }
{
    match finding {
        MemberFinding::Repeated { member, .. } => push_repeated(text, &member.name),
        MemberFinding::Unread { place, name } => push_unread(text, place, name),
        MemberFinding::PrivateKey(key) => push_private(text, key),
    }
}

fn push_repeated(text: &mut Vec<u8>, name: &Text) -> Result<(), AllocError>
    ensures { OnOk result (text.new.items ≡ text.old.items ++ told_form (codes "the member ")
        name.now (codes " comes more than once, and the last one counts")) }
{
    let after = " comes more than once, and the last one counts";
    push_told(text, "the member ", name, after)
}

fn push_private(text: &mut Vec<u8>, key: &KeyPlace) -> Result<(), AllocError>
    ensures { OnOk result (text.new.items
        ≡ text.old.items ++ member_sentence (MemberFinding.PrivateKey key.now)) }
{
    push_told(text, "the key object of ", key.id(), " has a private key")
}

/// Appends that a member of this name is not looked at, and the name that may be meant.
#[tactic(auto, unfolding(crate::specs::MemberSentence::unread_sentence))]
fn push_unread(text: &mut Vec<u8>, place: &Place, name: &Text) -> Result<(), AllocError>
    ensures { OnOk result
        (text.new.items ≡ text.old.items ++ unread_sentence place.now name.now) }
{
    let meant = meant_name(*text.allocator(), place, name.as_str())?;
    push_told(text, "the member ", name, " is not looked at")?;
    push_meant(text, meant)
}

/// Appends the name that may be meant, if there is one.
fn push_meant(text: &mut Vec<u8>, meant: Option<&'static str>) -> Result<(), AllocError>
    ensures { OnOk result (text.new.items
        ≡ text.old.items ++ meant_form (option_map (λ near. near.now) meant.entry)) }
{
    match meant {
        Some(near) => push_near(text, near),
        None => Ok(()),
    }
}

#[tactic(auto, unfolding(crate::specs::Pieces::told_form))]
fn push_near(text: &mut Vec<u8>, near: &str) -> Result<(), AllocError>
    ensures { OnOk result (text.new.items
        ≡ text.old.items ++ told_form (codes "; did you mean ") near.now (codes "?")) }
{
    push_text(text, "; did you mean ")?;
    push_asked(text, near)
}

fn push_asked(text: &mut Vec<u8>, near: &str) -> Result<(), AllocError>
    ensures { OnOk result (text.new.items ≡ text.old.items ++ (quoted near.now ++ codes "?")) }
{
    push_quoted(text, near)?;
    push_text(text, "?")
}
