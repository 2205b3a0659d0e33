//! Laws about what lines vouch for: functions that do nothing, and whose contracts say what was
//! proved.
ghost use Rattle.std.specs.Prelude.{◌<◌, ℕ, slice_index};
ghost use Rattle.it_vouched.specs.Laws.{DescribesIdentityIn, IdentityIsDescribed};
ghost use Rattle.it_vouched.specs.Laws.{MoreLinesSignMore, OneKey, ValidMeansVouched};

use it_dsse::key_object::KeyObject;

/// The identity of a key object is the one that the document describes.
pub fn identity_is_described()
    ensures { IdentityIsDescribed }
{}

/// The test says whether this is the identity of the key object.
pub fn describes_identity_in()
    ensures { DescribesIdentityIn }
{}

/// Two objects with keys of one number have one identity and one issuer.
pub fn one_key(object: &KeyObject, other: &KeyObject)
    ensures { OneKey object.now other.now }
{
    are_bytes(object.identity.as_str());
    are_bytes(object.issuer.as_str());
    are_bytes(other.identity.as_str());
    are_bytes(other.issuer.as_str());
}

/// A signature of a message is valid for an identity exactly where a line with this message and
/// this signature vouches for it.
pub fn valid_means_vouched()
    ensures { ValidMeansVouched }
{}

/// Further lines never make a valid signature invalid.
pub fn more_lines_sign_more()
    ensures { MoreLinesSignMore }
{}

/// A text is made of bytes.
fn are_bytes(text: &str)
    ensures { (k : ℕ) → slice_index text.now k < 256 }
{
    let _ = text.as_bytes();
}
