//! Signatures by the keys of leaves.
ghost use Rattle.std.specs.Prelude.{◌≡◌, ◌↔◌, ◌+◌, IfOk, IsTrue, OnErr, OnOk};
ghost use Rattle.it_certificate_log.specs.Bare.{WasRead};
ghost use Rattle.it_issued.specs.Signature.{IsByP256, key_info};

use it_budget::Budget;
use it_certificate::Certificate;
use it_der::append_element;
use it_p256::{PublicKey, is_signature};
use std::alloc::{AllocError, Global};

const SEQUENCE: u8 = 48;

/// Whether a signature of a text is by the key of a leaf: by ECDSA over P-256 with SHA-256
/// (FIPS 186-5, section 6.4.2), in strict DER. A key whose point is not on the curve signed
/// nothing. It takes one check.
///
/// # Errors
///
/// `AllocError` where memory was refused, or where the budget has no check left.
pub(crate) fn is_by_leaf(
    alloc: Global,
    budget: &mut Budget,
    leaf: &Certificate<'_>,
    text: &[u8],
    signature: &[u8],
) -> Result<bool, AllocError>
    requires { WasRead leaf.now }
    ensures answer { IfOk result (λ is. IsTrue is
        ↔ IsByP256 (key_info leaf.now.key.curve leaf.now.key.coordinates.now) text.now
        signature.now) }
    ensures most { budget.new.most ≡ budget.old.most }
    ensures checked { OnOk result (budget.new.checked ≡ budget.old.checked + 1) }
    ensures kept { OnErr result (budget.new.checked ≡ budget.old.checked) }
{
    let mut info = Vec::new(alloc);
    append_element(&mut info, SEQUENCE, leaf.parts.key)?;
    budget.take()?;
    Ok(is_by(info.as_slice(), text, signature))
}

/// Whether a signature of a text is by the key of this SubjectPublicKeyInfo.
fn is_by(info: &[u8], text: &[u8], signature: &[u8]) -> bool
    ensures { IsTrue result ↔ IsByP256 info.now text.now signature.now }
{
    match PublicKey::from_info(info) {
        Some(key) => is_signature(&key, &[text], signature),
        None => false,
    }
}
