//! What the library says of a vector.
ghost use Rattle.std.specs.Prelude.{◌≡◌, ◌↔◌, IfOk, IsTrue};
ghost use Rattle.it_bundle_vectors.specs.Agreement.{IsVouchedFor};

use crate::vector::Vector;
use it_budget::Budget;
use it_bundle::read_bundle;
use it_identity::Identity;
use it_trust_root::read_root;
use it_vouches::{MOST_CHECKS, Trust, vouched_identity};
use std::alloc::{AllocError, Global};

/// Whether the line of a vector is a bundle that vouches, by the vector's trusted root, for its
/// identity. A text that is no trusted root vouches for nobody.
///
/// # Errors
///
/// `AllocError` where memory was refused.
pub(crate) fn is_vouched_for(alloc: Global, vector: &Vector) -> Result<bool, AllocError>
    ensures { IfOk result (λ is. IsTrue is ↔ IsVouchedFor vector.now) }
{
    let Some(root) = read_root(alloc, vector.root.as_str().as_bytes())? else {
        return Ok(false);
    };
    let Some(bundle) = read_bundle(alloc, vector.line.as_str().as_bytes())? else {
        return Ok(false);
    };
    let mut budget = Budget::new(MOST_CHECKS);
    let trust = Trust::of(alloc, &mut budget, &root)?;
    let Some(identity) = vouched_identity(alloc, &mut budget, &trust, &bundle)? else {
        return Ok(false);
    };
    Ok(is_wanted(&identity, vector))
}

/// Whether an identity is that of a vector.
fn is_wanted(identity: &Identity, vector: &Vector) -> bool
    ensures { IsTrue result ↔ ((identity.now.name ≡ vector.now.identity)
        × (identity.now.issuer ≡ vector.now.issuer)) }
{
    identity.name.as_slice() == vector.identity.as_str().as_bytes()
        && identity.issuer.as_slice() == vector.issuer.as_str().as_bytes()
}
