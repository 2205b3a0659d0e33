//! Notes on the members of a policy or a layout.
ghost use Rattle.std.specs.Prelude.{◌≡◌, [], All, Contains, IfOk};
ghost use Rattle.it_borrowed.specs.Tree.{as_data};
ghost use Rattle.it_member_notes.specs.KeyMembers.{IsKeyMember, place_of};
ghost use Rattle.it_member_notes.specs.UnreadMembers.{IsUnread};

use crate::key_member_note::KeyMemberNote;
use crate::key_notes::key_note_of;
use crate::object_at::object_at;
use crate::unread::unread_of;
use crate::unread_member::UnreadMember;
use it_base::optional::push_some;
use it_findings::place::Place;
use json::Value;
use std::alloc::{AllocError, Global};

/// The notes on the members of a policy or a layout.
#[derive(Drop)]
pub struct MemberNotes {
    /// The members that are not looked at, and that no standard knows.
    pub unread: Vec<UnreadMember>,
    /// The members of key objects that may be unintended.
    pub keys: Vec<KeyMemberNote>,
}

impl MemberNotes {
    /// No notes. Takes no memory.
    pub(crate) fn none(alloc: Global) -> MemberNotes
        ensures unread { result.unread.items ≡ [] }
        ensures keys { result.keys.items ≡ [] }
    {
        MemberNotes {
            unread: Vec::new(alloc),
            keys: Vec::new(alloc),
        }
    }

    /// The notes on the members of the objects at these places of a document.
    pub(crate) fn at(
        alloc: Global,
        document: &Value<'_>,
        places: &[Place],
    ) -> Result<MemberNotes, AllocError>
        ensures unread { IfOk result (λ notes. All (λ note.
            IsUnread (as_data document.now) note × Contains places.now note.place)
            notes.unread.items) }
        ensures keys { IfOk result (λ notes. All (λ note.
            IsKeyMember (as_data document.now) note × Contains places.now (place_of note))
            notes.keys.items) }
    {
        let mut unread = Vec::new(alloc);
        let mut keys = Vec::new(alloc);
        for place in places {
            if let Some(object) = object_at(document, place) {
                let mut found = unread_of(alloc, object, place)?;
                unread.append(&mut found)?;
                push_some(&mut keys, key_note_of(alloc, object, place)?)?;
            }
        }
        Ok(MemberNotes { unread, keys })
    }
}
