//! One signature.
ghost use Rattle.std.specs.Prelude.{◌↔◌, IfOk, IsTrue};
ghost use Rattle.it_dsse.specs.Signed.{Vouches};

use it_dsse::checks::Checks;
use it_dsse::envelope::Signature;
use it_dsse::meter::Meter;
use std::alloc::AllocError;
use std::slice;

/// Whether a signature is admitted for an id and is a key's signature of a message.
pub(crate) fn vouches<C: Checks>(
    checks: &C,
    key: &C::Found,
    id: &str,
    message: &[u8],
    signature: &Signature,
) -> Result<bool, AllocError>
    requires { C.stands checks.now key.now }
    ensures { IfOk result (λ vouches. IsTrue vouches ↔ Vouches (C.panel checks.now) id.now
        (C.number checks.now key.now) message.now signature.now) }
{
    let mut meter = Meter { asked: 0 };
    let one = slice::from_ref(signature);
    checks.any_valid(key, &[message], one, id, &mut meter)
}
