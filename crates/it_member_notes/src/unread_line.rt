//! Notes on members that are not looked at, as lines for people.
ghost use Rattle.std.specs.Prelude.{◌≡◌, ◌++◌, OnOk, option_map};
ghost use Rattle.it_member_notes.specs.MemberLines.{close_form, unread_line};

use crate::place_words::push_place;
use crate::quoted::{push_text, push_told};
use crate::unread_member::UnreadMember;
use std::alloc::{AllocError, Global};

impl UnreadMember {
    /// Appends the note as a line of English, which ends with a line feed. Names are written as
    /// reports write them.
    ///
    /// # Errors
    ///
    /// `AllocError` where memory was refused; a part of the line may have been appended then.
    pub fn push_line(&self, alloc: Global, out: &mut Vec<u8>) -> Result<(), AllocError>
        ensures { OnOk result (out.new.items ≡ out.old.items ++ unread_line self.now) }
    {
        push_place(alloc, out, &self.place)?;
        let after = " that is not looked at";
        push_told(out, " has a member ", self.name.as_str(), after)?;
        push_close(out, self.close)?;
        push_text(out, "\n")?;
        Ok(())
    }
}

fn push_close(out: &mut Vec<u8>, close: Option<&'static str>) -> Result<(), AllocError>
    ensures { OnOk result (out.new.items
        ≡ out.old.items ++ close_form (option_map (λ near. near.now) close.entry)) }
{
    match close {
        Some(near) => push_told(out, "; did you mean ", near, "?"),
        None => Ok(()),
    }
}
