//! Signatures by different keys with one number r.
ghost use Rattle.std.specs.Prelude.{◌≡◌, [], IfOk};
ghost use Rattle.std.specs.List.{cons_option, find};
ghost use Rattle.std.specs.Option.{option_copied};
ghost use Rattle.it_nonces.specs.SharedNonces.{has_r, shared_in, shared_nonces, shared_with};
ghost use Rattle.it_p256_limbs.specs.Numbers.{value_of};

use crate::nonce_use::NonceUse;
use crate::signer::Signer;
use it_base::optional::push_some;
use it_p256_limbs::{Limbs, is_same};
use std::alloc::{AllocError, Global};

/// Two signatures by different keys with the same number r.
#[derive(Drop)]
pub struct SharedNonce {
    /// Whose the later one is.
    pub signer: Signer,
    /// Whose the first one with this r is.
    pub first: Signer,
}

/// Each of the signatures whose r is that of one before it by a different key, in their order, with
/// the first of all that have this r.
///
/// # Errors
///
/// `AllocError` where memory was refused.
pub fn shared_nonces(alloc: Global, uses: &[NonceUse]) -> Result<Vec<SharedNonce>, AllocError>
    ensures { IfOk result (λ found. found.items ≡ shared_nonces uses.now) }
{
    let mut found = Vec::new(alloc);
    for at in uses {
        let here = shared_in(alloc, uses, at)?;
        push_some(&mut found, here)?;
    }
    Ok(found)
}

/// What is found in a signature among all.
fn shared_in(
    alloc: Global,
    uses: &[NonceUse],
    at: &NonceUse,
) -> Result<Option<SharedNonce>, AllocError>
    ensures { IfOk result (λ found. cons_option found [] ≡ shared_in uses.now at.now) }
{
    match first_use(uses, at.r) {
        Some(first) => shared_with(alloc, first, at),
        None => Ok(None),
    }
}

/// The first signature with a number r.
fn first_use(uses: &[NonceUse], r: Limbs) -> Option<&NonceUse>
    ensures { option_copied result ≡ find (has_r (value_of r)) uses.now }
{
    uses.iter().find(|at| is_same(r, at.r))
}

/// What is found in a signature, where this is the first with its r.
fn shared_with(
    alloc: Global,
    first: &NonceUse,
    at: &NonceUse,
) -> Result<Option<SharedNonce>, AllocError>
    ensures { IfOk result (λ found. cons_option found [] ≡ shared_with at.now first.now) }
{
    if first.key == at.key {
        return Ok(None);
    }
    Ok(Some(SharedNonce {
        signer: at.signer.copy(alloc)?,
        first: first.signer.copy(alloc)?,
    }))
}
