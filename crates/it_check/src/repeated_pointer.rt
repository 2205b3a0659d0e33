//! Places of members that come again, as JSON pointers (RFC 6901).
ghost use Rattle.std.specs.Prelude.{◌≡◌, ◌++◌, OnOk};
ghost use Rattle.std.specs.List.{flat_map};
ghost use Rattle.it_check.specs.FindingPlace.{repeated_pointer, segment_form};

use crate::pointer_form::PointerForm;
use crate::token::push_token;
use crate::writing::{push_number, push_text};
use it_repeats::repeated_member::{RepeatedMember, Segment};
use std::alloc::AllocError;

/// Appends the place of a member that comes again.
#[tactic(auto, unfolding(crate::specs::FindingPlace::repeated_pointer))]
pub(crate) fn push_repeated(
    text: &mut Vec<u8>,
    form: PointerForm,
    member: &RepeatedMember,
) -> Result<(), AllocError>
    ensures { OnOk result
        (text.new.items ≡ text.old.items ++ repeated_pointer form member.now) }
{
    push_place(text, form, member.place.as_slice())?;
    push_text(text, "/")?;
    push_token(text, form, member.name.as_str())
}

fn push_place(text: &mut Vec<u8>, form: PointerForm, place: &[Segment]) -> Result<(), AllocError>
    ensures { OnOk result
        (text.new.items ≡ text.old.items ++ flat_map (segment_form form) place.now) }
{
    for segment in place {
        push_segment(text, form, segment)?;
    }
    Ok(())
}

#[tactic(auto, unfolding(crate::specs::FindingPlace::segment_form))]
fn push_segment(text: &mut Vec<u8>, form: PointerForm, segment: &Segment) -> Result<(), AllocError>
    ensures { OnOk result (text.new.items ≡ text.old.items ++ segment_form form segment.now) }
{
    push_text(text, "/")?;
    match segment {
        Segment::Member(name) => push_token(text, form, name.as_str()),
        Segment::Item(number) => push_number(text, *number),
    }
}
