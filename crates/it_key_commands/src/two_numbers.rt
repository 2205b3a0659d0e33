//! The two numbers of an ECDSA signature, as they are encoded in DER.
ghost use Rattle.std.specs.Prelude.{◌≡◌, ◌≤◌, ◌+◌, ◌++◌, IfOk, OnOk, drop, length, take};
ghost use Rattle.it_key_commands.specs.SignatureFlaw.{integer_form, padding_of, shortest};
ghost use Rattle.it_key_commands.specs.SignatureFlaw.{signature_form};

use std::alloc::{AllocError, Global};

/// The ECDSA-Sig-Value (RFC 3279, section 2.2.3) of two numbers of `half` bytes each, in DER.
#[tactic(auto, unfolding(crate::specs::SignatureFlaw::signature_form))]
pub(crate) fn signature_form(
    alloc: Global,
    numbers: &[u8],
    half: usize,
) -> Result<Vec<u8>, AllocError>
    requires few { half ≤ 48 }
    requires two { length numbers.now ≡ half + half }
    ensures { IfOk result
        (λ form. form.items ≡ signature_form (take half numbers.now) (drop half numbers.now)) }
{
    let (r, s) = numbers.split_at(half);
    let mut both = Vec::new(alloc);
    push_integer(&mut both, r)?;
    push_integer(&mut both, s)?;
    let mut form = Vec::new(alloc);
    form.push(48)?;
    form.push(both.len() as u8)?;
    form.extend_from_slice(both.as_slice())?;
    Ok(form)
}

/// Appends a number as an INTEGER in DER (X.690, section 8.3).
#[tactic(auto, unfolding(crate::specs::SignatureFlaw::integer_form))]
fn push_integer(form: &mut Vec<u8>, number: &[u8]) -> Result<(), AllocError>
    requires { length number.now ≤ 48 }
    ensures form { OnOk result (form.new.items ≡ form.old.items ++ integer_form number.now) }
    ensures few { OnOk result (length form.new.items ≤ length form.old.items + 51) }
{
    let digits = shortest(number);
    let padding = padding_of(digits);
    form.push(2)?;
    form.push((padding.len() + digits.len()) as u8)?;
    form.extend_from_slice(padding)?;
    form.extend_from_slice(digits)
}

/// A number without the zeros that it begins with.
fn shortest(number: &[u8]) -> &[u8]
    ensures digits { result.now ≡ shortest number.now }
    ensures few { length result.now ≤ length number.now }
{
    for place in 0..number.len() {
        if number[place] != 0 {
            return &number[place..];
        }
    }
    &[]
}

/// What stands before the digits of a number that is not negative.
fn padding_of(digits: &[u8]) -> &'static [u8]
    ensures padding { result.now ≡ padding_of digits.now }
    ensures few { length result.now ≤ 1 }
{
    match digits.first() {
        Some(first) if *first < 128 => &[],
        _ => &[0],
    }
}
