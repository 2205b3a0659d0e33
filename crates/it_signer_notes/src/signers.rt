//! Which identities signed the provenance and are keys of no builder.
ghost use Rattle.std.specs.Prelude.{◌≡◌, IfOk, filter, map, not};
ghost use Rattle.it_signer_notes.specs.Signers.{each_once, is_listed, unlisted};
ghost use Rattle.it_signer_notes.specs.inside.Lent.{lent};

use crate::listed::is_listed;
use it_dsse::key_object::KeyObject;
use it_identity::Identity;
use it_vouched::Vouched;
use std::alloc::{AllocError, Global};
use std::collections::BTreeSet;

/// The identities for which lines vouch and which none of the keys describes, each once, in the
/// order of the lines.
///
/// # Errors
///
/// `AllocError` where memory was refused.
pub(crate) fn unlisted<'a>(
    alloc: Global,
    keys: &[&KeyObject],
    vouched: &'a [Vouched],
) -> Result<Vec<&'a Identity>, AllocError>
    ensures { IfOk result (λ signers. lent signers.items ≡ unlisted (lent keys.now) vouched.now) }
{
    let once = each_once(alloc, vouched)?;
    let signers = those_unlisted(alloc, keys, &once)?;
    Ok(signers)
}

/// The identities for which lines vouch, each once, in the order of the lines.
fn each_once(alloc: Global, vouched: &[Vouched]) -> Result<Vec<&Identity>, AllocError>
    ensures { IfOk result (λ once.
        lent once.items ≡ each_once (map (λ v. v.identity) vouched.now)) }
{
    let mut seen = BTreeSet::new(alloc);
    let mut once = Vec::new(alloc);
    for one in vouched {
        let identity = &one.identity;
        if seen.insert((identity.name.as_slice(), identity.issuer.as_slice()))? {
            once.push(identity)?;
        }
    }
    Ok(once)
}

/// Those of the identities that none of the keys describes.
fn those_unlisted<'a>(
    alloc: Global,
    keys: &[&KeyObject],
    identities: &[&'a Identity],
) -> Result<Vec<&'a Identity>, AllocError>
    ensures { IfOk result (λ those. lent those.items
        ≡ filter (λ identity. not (is_listed (lent keys.now) identity)) (lent identities.now)) }
{
    let mut those = Vec::new(alloc);
    for identity in identities {
        if !is_listed(keys, identity) {
            those.push(*identity)?;
        }
    }
    Ok(those)
}
