//! Members of key objects that their author may not have meant.

use it_base::text::Text;
use it_findings::place::KeyPlace;

/// A member of a key object of a policy or a layout that its author may not have meant.
#[derive(Drop)]
pub enum KeyMemberNote {
    /// The `keyid` is a text other than the id under which the object stands.
    OtherKeyId {
        /// Where the key object stands.
        key: KeyPlace,
        /// The text.
        keyid: Text,
    },
    /// The `private` of the object's `keyval` is a text that is not empty.
    PrivateKey {
        /// Where the key object stands.
        key: KeyPlace,
    },
}
