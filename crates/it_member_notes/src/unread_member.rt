//! Members of a policy or a layout that are not looked at.

use it_base::text::Text;
use it_findings::place::Place;

/// A member that is not looked at, and that no standard knows.
#[derive(Drop)]
pub struct UnreadMember {
    /// The place of the object that has the member.
    pub place: Place,
    /// The name of the member.
    pub name: Text,
    /// The name of the member that may be meant: one that is looked at there, and close to the
    /// member's.
    pub close: Option<&'static str>,
}
