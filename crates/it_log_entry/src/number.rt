//! Numbers, which the JSON form of Sigstore's messages has as texts.
ghost use Rattle.std.specs.Prelude.{◌≡◌, ◌↔◌, ℕ, IfOk, IsTrue, decimal};
ghost use Rattle.it_base.specs.Finds.{Finds};
ghost use Rattle.it_log_entry.specs.CheckpointMisses.{IsSize};
ghost use Rattle.it_log_entry.specs.Number.{IsNumber, IsNumberText};

use crate::stamp::decimal_text;
use it_borrowed::parts::FromBorrowed;
use it_borrowed::text::text_of;
use json::Value;
use std::alloc::{AllocError, Global};
use std::marker::Model;
use std::str;

/// The greatest number that is read.
const GREATEST: u64 = 9_007_199_254_740_991;

/// A number from a document. To a contract it is that number.
#[derive(Drop)]
pub(crate) struct Number {
    number: u64,
}

impl Model for Number {
    ghost use Rattle.std.specs.Prelude.{ℕ};

    ghost Value = { ℕ };

    ghost view = { λ n. n.number };
}

impl Number {
    /// The number 0.
    pub(crate) fn zero() -> Number
        ensures { result ≡ 0 }
    {
        Number { number: 0 }
    }

    /// The number.
    pub(crate) fn get(&self) -> u64
        ensures { result ≡ self.now }
    {
        self.number
    }
}

impl FromBorrowed for Number {
    ghost is_of = { IsNumber };

    fn from_borrowed(alloc: Global, value: &Value<'_>) -> Result<Option<Number>, AllocError> {
        match text_of(value) {
            None => Ok(None),
            Some(text) => number_in(alloc, text),
        }
    }
}

/// The number that a text is, in decimal digits without a leading zero.
fn number_in(alloc: Global, text: &str) -> Result<Option<Number>, AllocError>
    ensures { IfOk result (Finds (IsNumberText text.now)) }
{
    let Ok(number) = text.parse::<u64>() else {
        return Ok(None);
    };
    if number > GREATEST {
        return Ok(None);
    }
    if is_written(alloc, number, text)? {
        Ok(Some(Number { number }))
    } else {
        Ok(None)
    }
}

/// Whether a line is a number of 64 bits in decimal.
pub(crate) fn is_size_line(alloc: Global, line: &[u8]) -> Result<bool, AllocError>
    ensures { IfOk result (λ is. IsTrue is ↔ ((n : ℕ) × IsSize line.now n)) }
{
    let Ok(text) = str::from_utf8(line) else {
        return Ok(false);
    };
    let Ok(number) = text.parse::<u64>() else {
        return Ok(false);
    };
    is_written(alloc, number, text)
}

/// Whether a text is a number in decimal.
fn is_written(alloc: Global, number: u64, text: &str) -> Result<bool, AllocError>
    ensures { IfOk result (λ is. IsTrue is ↔ (text.now ≡ decimal number)) }
{
    let digits = decimal_text(alloc, number)?;
    Ok(text == digits.as_str())
}
