//! Members that come again, as findings.
ghost use Rattle.std.specs.Prelude.{◌≡◌, IfOk, map};
ghost use Rattle.it_repeats.specs.Repeats.{RepeatsOf};
ghost use Rattle.it_findings.specs.Members.{RepeatedIn};

use crate::member_finding::MemberFinding;
use it_borrowed::document_text::DocumentText;
use it_repeats::repeated_member::RepeatedMember;
use it_repeats::root::Root;
use it_repeats::{repeated_in_tree, repeated_members};
use std::alloc::{AllocError, Global};

/// The members that come again in the objects of such a document, in the order of the text.
///
/// # Errors
///
/// `AllocError` where memory was refused.
pub(crate) fn repeated_in(
    alloc: Global,
    root: Root,
    text: &DocumentText<'_>,
) -> Result<Vec<MemberFinding>, AllocError>
    ensures { IfOk result (λ found. RepeatedIn root text.now found.items) }
{
    as_findings(alloc, root, members_again(alloc, root, text)?)
}

/// The members themselves. A text that is no document may be a tree all the same, with a number out
/// of range: it is read again.
fn members_again(
    alloc: Global,
    root: Root,
    text: &DocumentText<'_>,
) -> Result<Vec<RepeatedMember>, AllocError>
    ensures { IfOk result (λ found. RepeatsOf root text.now found.items) }
{
    match text.document() {
        Some(document) => repeated_in_tree(alloc, root, document),
        None => repeated_members(alloc, root, text.bytes()),
    }
}

fn as_findings(
    alloc: Global,
    root: Root,
    members: Vec<RepeatedMember>,
) -> Result<Vec<MemberFinding>, AllocError>
    ensures { IfOk result (λ found. found.items ≡ map (MemberFinding.Repeated root) members.items) }
{
    let mut found = Vec::new(alloc);
    for member in members {
        found.push(MemberFinding::Repeated { root, member })?;
    }
    Ok(found)
}
