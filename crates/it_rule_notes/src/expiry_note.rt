//! When an expired layout expired.
ghost use Rattle.std.specs.Prelude.{◌≡◌, ◌↔◌, ◌++◌, IfOk, IsTrue, OnOk};
ghost use Rattle.it_base.specs.Finds.{Finds};
ghost use Rattle.it_rule_notes.specs.Expiry.{IsBefore, TellsExpiry, expiry_line};

use crate::line::push_told;
use it_base::text::Text;
use it_borrowed::parts::part_in;
use it_docs::moment::read_moment;
use std::alloc::{AllocError, Global};

/// A layout's `expires`, and a later moment, as written.
#[derive(Drop)]
pub struct ExpiryNote {
    /// The member `expires` of the layout.
    pub expires: Text,
    /// The moment of the verification.
    pub moment: Text,
}

/// Says when a layout expired (in-toto 1.0, section 4.3, `expires`).
///
/// `body` is the payload of the layout's envelope, and `moment` the moment of the verification, as
/// written. The answer is `None` where the layout has not expired by that moment, or one of the two
/// is not written as a moment.
///
/// # Errors
///
/// `AllocError` where memory was refused.
pub fn expiry_note(
    alloc: Global,
    body: &[u8],
    moment: &str,
) -> Result<Option<ExpiryNote>, AllocError>
    ensures { IfOk result (Finds (TellsExpiry body.now moment.now)) }
{
    let Some(expires) = part_in::<Text>(alloc, body, "expires")? else {
        return Ok(None);
    };
    if !is_before(expires.as_str(), moment) {
        return Ok(None);
    }
    let moment = Text::copy(alloc, moment)?;
    Ok(Some(ExpiryNote { expires, moment }))
}

/// Whether both texts are moments, and the first is before the second.
fn is_before(expires: &str, moment: &str) -> bool
    ensures { IsTrue result ↔ IsBefore expires.now moment.now }
{
    match (read_moment(expires), read_moment(moment)) {
        (Ok(expires), Ok(moment)) => expires < moment,
        _ => false,
    }
}

impl ExpiryNote {
    /// Appends the note as a line for people.
    ///
    /// # Errors
    ///
    /// `AllocError` where memory was refused; a part of the line may have been appended then.
    pub fn push_line(&self, text: &mut Vec<u8>) -> Result<(), AllocError>
        ensures { OnOk result (text.new.items ≡ text.old.items ++ expiry_line self.now) }
    {
        push_told(text, "layout: it expired at ", &self.expires, "")?;
        push_told(text, ", and the verification is of ", &self.moment, "\n")
    }
}
