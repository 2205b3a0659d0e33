//! What lines vouch for.
ghost use Rattle.std.specs.Prelude.{◌≡◌, ◌&&◌, All};
ghost use Rattle.std.specs.Str.{bytes_eq};
ghost use Rattle.it_message.specs.Message.{joined};
ghost use Rattle.it_dsse.specs.Meter.{raised};
ghost use Rattle.it_dsse.specs.Vouched.{is_vouched_by, tries_by};
ghost use Rattle.it_identity.specs.Identity.{IsIdentity};
ghost use Rattle.it_vouched.specs.Check.{says, vouched_check};

use crate::asked::Asked;
use crate::identity_key::IdentityKey;
use crate::joining::is_joined;
use crate::vouched::Vouched;
use it_dsse::check::SignatureCheck;
use it_dsse::envelope::Signature;
use it_dsse::meter::Meter;
use std::marker::Model;

/// What lines vouch for, in their order. To a contract it is this list.
#[derive(Drop)]
pub struct VouchedLines {
    all: Vec<Vouched>,
}

impl Model for VouchedLines {
    ghost use Rattle.std.specs.Prelude.{All, List};
    ghost use Rattle.it_identity.specs.Identity.{IsIdentity};
    ghost use Rattle.it_vouched.specs.declared.vouched.Vouched.{Vouched};

    ghost Value = { List Vouched };

    ghost view = { λ lines. lines.all.items };

    ghost invariant = { λ lines. All (λ v. IsIdentity v.identity) lines.all.items };
}

impl VouchedLines {
    /// What lines vouch for, in their order.
    pub(crate) fn new(all: Vec<Vouched>) -> VouchedLines
        requires { All (λ v. IsIdentity v.identity) all.items }
        ensures { result ≡ all.items }
    {
        VouchedLines { all }
    }

    /// What lines vouch for, in their order, as a slice. Takes no memory.
    pub fn as_slice(&self) -> &[Vouched]
        ensures { result.now ≡ self.now }
    {
        self.all.as_slice()
    }

    /// Whether a signature of the message that the parts make is valid for a key: whether some line
    /// with this message and this signature vouches for the identity. Takes no memory, and checks
    /// no signature.
    pub fn is_valid(&self, key: &IdentityKey, message: &[&[u8]], signature: &[u8]) -> bool
        ensures { result ≡ (vouched_check self.now).is_valid key.now (joined message.now)
            signature.now }
    {
        is_said(self.all.as_slice(), key, message, signature)
    }

    /// Whether one of the signatures is admitted for `id` and is valid, for the key, of the message
    /// that the parts make. The meter rises by the number of admitted signatures up to and
    /// including the first valid one. Takes no memory.
    pub fn any_valid(
        &self,
        key: &IdentityKey,
        message: &[&[u8]],
        signatures: &[Signature],
        id: &str,
        meter: &mut Meter,
    ) -> bool
        ensures answer { result ≡ is_vouched_by (vouched_check self.now) id.now key.now
            (joined message.now) signatures.now }
        ensures counted { meter.new ≡ raised meter.old (tries_by (vouched_check self.now) id.now
            key.now (joined message.now) signatures.now) }
    {
        let asked = Asked { lines: self, key };
        asked.any_valid(0, message, signatures, id, meter)
    }
}

fn is_said(vouched: &[Vouched], key: &IdentityKey, message: &[&[u8]], signature: &[u8]) -> bool
    requires { All (λ v. IsIdentity v.identity) vouched.now }
    ensures { result ≡ (vouched_check vouched.now).is_valid key.now (joined message.now)
        signature.now }
{
    for one in vouched {
        if is_saying(one, key, message, signature) {
            return true;
        }
    }
    false
}

fn is_saying(one: &Vouched, key: &IdentityKey, message: &[&[u8]], signature: &[u8]) -> bool
    requires { IsIdentity one.now.identity }
    ensures { result ≡ says key.now (joined message.now) signature.now one.now }
{
    is_signature(one, signature)
        && is_joined(one.message.as_slice(), message)
        && key.is_of(&one.identity)
}

fn is_signature(one: &Vouched, signature: &[u8]) -> bool
    ensures { result ≡ bytes_eq one.now.signature signature.now }
{
    one.signature.as_slice() == signature
}
