//! What is read of a certificate's extensions.
ghost use Rattle.std.specs.Prelude.{MatchOption, IfOk, Option, map};
ghost use Rattle.std.specs.Option.{option_copied};
ghost use Rattle.it_certificate.specs.Constraints.{IsConstraints};
ghost use Rattle.it_certificate.specs.Extension.{stated_of};
ghost use Rattle.it_certificate.specs.Known.{AreKnown};
ghost use Rattle.it_certificate.specs.Purposes.{IsPurposes};
ghost use Rattle.it_certificate.specs.Usage.{IsUsage};
ghost use Rattle.it_certificate.specs.Within.{IfThere};

use crate::constraints::{Constraints, read_constraints};
use crate::extension::Extension;
use crate::identifiers::{BASIC_CONSTRAINTS, EXTENDED_KEY_USAGE, KEY_USAGE};
use crate::purposes::{Purposes, read_purposes};
use crate::usage::{Usage, read_usage};
use crate::values::value_of;
use std::alloc::{AllocError, Global};

/// What is read of a certificate's extensions, of those that it has.
#[derive(Clone, Copy)]
pub struct Known {
    /// What its key may be used for.
    pub usage: Option<Usage>,
    /// Whether it is that of an authority.
    pub constraints: Option<Constraints>,
    /// What its holder may use it for.
    pub purposes: Option<Purposes>,
}

/// What is read of these extensions. `None` where one that is read has not its form.
///
/// # Errors
///
/// `AllocError` where memory was refused.
pub(crate) fn known_in(
    alloc: Global,
    extensions: &[Extension<'_>],
) -> Result<Option<Known>, AllocError>
    ensures { IfOk result (λ found. MatchOption found
        ((k : Known) → AreKnown (map stated_of extensions.now) k → ⊥)
        (λ k. AreKnown (map stated_of extensions.now) k)) }
{
    let Some(usage) = usage_in(value_of(extensions, &KEY_USAGE)) else {
        return Ok(None);
    };
    let Some(constraints) = constraints_in(value_of(extensions, &BASIC_CONSTRAINTS)) else {
        return Ok(None);
    };
    let Some(purposes) = purposes_in(alloc, value_of(extensions, &EXTENDED_KEY_USAGE))? else {
        return Ok(None);
    };
    Ok(Some(Known {
        usage,
        constraints,
        purposes,
    }))
}

fn usage_in(value: Option<&[u8]>) -> Option<Option<Usage>>
    ensures { MatchOption result
        ((u : Option Usage) → IfThere IsUsage (option_copied value.entry) u → ⊥)
        (λ u. IfThere IsUsage (option_copied value.entry) u) }
{
    let Some(value) = value else {
        return Some(None);
    };
    let usage = read_usage(value)?;
    Some(Some(usage))
}

fn constraints_in(value: Option<&[u8]>) -> Option<Option<Constraints>>
    ensures { MatchOption result
        ((c : Option Constraints) → IfThere IsConstraints (option_copied value.entry) c → ⊥)
        (λ c. IfThere IsConstraints (option_copied value.entry) c) }
{
    let Some(value) = value else {
        return Some(None);
    };
    let constraints = read_constraints(value)?;
    Some(Some(constraints))
}

fn purposes_in(alloc: Global, value: Option<&[u8]>) -> Result<Option<Option<Purposes>>, AllocError>
    ensures { IfOk result (λ found. MatchOption found
        ((p : Option Purposes) → IfThere IsPurposes (option_copied value.entry) p → ⊥)
        (λ p. IfThere IsPurposes (option_copied value.entry) p)) }
{
    let Some(value) = value else {
        return Ok(Some(None));
    };
    match read_purposes(alloc, value)? {
        Some(purposes) => Ok(Some(Some(purposes))),
        None => Ok(None),
    }
}
