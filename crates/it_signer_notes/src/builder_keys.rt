//! The keys of builders.
ghost use Rattle.std.specs.Prelude.{◌≡◌, ◌++◌, IfOk, OnOk};
ghost use Rattle.std.specs.FinMap.{values};
ghost use Rattle.it_signer_notes.specs.BuilderKeys.{keys_of_builders, keys_of_expectation};
ghost use Rattle.it_signer_notes.specs.inside.Lent.{lent};

use it_base::table::Table;
use it_docs::policy::{Expectation, Policy};
use it_dsse::key_object::KeyObject;
use std::alloc::{AllocError, Global};

/// The keys of all builders of a policy: in the order of the expectations, of the builders of each,
/// and of the ids of each one's keys.
///
/// # Errors
///
/// `AllocError` where memory was refused.
pub(crate) fn builder_keys(alloc: Global, policy: &Policy) -> Result<Vec<&KeyObject>, AllocError>
    ensures { IfOk result (λ keys. lent keys.items ≡ keys_of_builders policy.now) }
{
    let mut keys = Vec::new(alloc);
    for expectation in policy.expectations.as_slice() {
        push_expected(&mut keys, expectation)?;
    }
    Ok(keys)
}

/// Appends the keys of the builders that an expectation names.
fn push_expected<'a>(
    keys: &mut Vec<&'a KeyObject>,
    expectation: &'a Expectation,
) -> Result<(), AllocError>
    ensures { OnOk result (lent keys.new.items
        ≡ lent keys.old.items ++ keys_of_expectation expectation.now) }
{
    for builder in expectation.builders.as_slice() {
        push_keys(keys, &builder.keys)?;
    }
    Ok(())
}

/// Appends the keys of a table.
fn push_keys<'a>(
    keys: &mut Vec<&'a KeyObject>,
    table: &'a Table<KeyObject>,
) -> Result<(), AllocError>
    ensures { OnOk result (lent keys.new.items ≡ lent keys.old.items ++ values table.now) }
{
    for (_, key) in table.iter() {
        keys.push(key)?;
    }
    Ok(())
}
