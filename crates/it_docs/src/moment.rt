//! Moments in UTC, written as 20 bytes.
ghost use Rattle.std.specs.Prelude.{MatchResult, ℤ};
ghost use Rattle.it_borrowed.specs.Tree.{as_data};
ghost use Rattle.it_base.specs.Finds.{Finds};
ghost use Rattle.it_base.specs.Parts.{IsPart};
ghost use Rattle.it_docs.specs.Moment.{IsMoment, MomentOf};

use it_borrowed::document::member;
use it_borrowed::text::text_of;
use it_calendar::{day_number, second_of_day, two_digits};
use json::Value;

/// The text is not a moment.
#[derive(Clone, Copy, Debug, PartialEq, Eq)]
pub struct BadMoment;

/// Reads a moment: exactly the 20 bytes `YYYY-MM-DDThh:mm:ssZ`, with a date of the Gregorian
/// calendar in the years 0000 to 9999, an hour up to 23, and a minute and a second up to 59.
///
/// The result is the number of seconds since 1970-01-01T00:00:00Z, without leap seconds. Takes no
/// memory.
///
/// # Errors
///
/// `BadMoment` where the text is not such a moment.
pub fn read_moment(text: &str) -> Result<i64, BadMoment>
    ensures { MatchResult result (MomentOf text.now)
        (λ _. (moment : ℤ) → ¬ MomentOf text.now moment) }
{
    match moment_of(text.as_bytes()) {
        Some(moment) => Ok(moment),
        None => Err(BadMoment),
    }
}

/// The moment in the member of this name, or `None` where it is missing or not a moment.
pub(crate) fn moment_at(value: &Value<'_>, name: &str) -> Option<i64>
    ensures { Finds (IsPart IsMoment name.now (as_data value.now)) result }
{
    moment_in(member(value, name)?)
}

fn moment_in(value: &Value<'_>) -> Option<i64>
    ensures { Finds (IsMoment (as_data value.now)) result }
{
    moment_of(text_of(value)?.as_bytes())
}

fn moment_of(text: &[u8]) -> Option<i64>
    ensures { Finds (MomentOf text.now) result }
{
    let &[
        y1,
        y2,
        y3,
        y4,
        b'-',
        m1,
        m2,
        b'-',
        d1,
        d2,
        b'T',
        h1,
        h2,
        b':',
        n1,
        n2,
        b':',
        s1,
        s2,
        b'Z',
    ] = text
    else {
        return None;
    };
    let century = two_digits(y1, y2)?;
    let year = two_digits(y3, y4)?;
    let month = two_digits(m1, m2)?;
    let day = two_digits(d1, d2)?;
    let hour = two_digits(h1, h2)?;
    let minute = two_digits(n1, n2)?;
    let second = two_digits(s1, s2)?;
    let days = day_number(100 * u16::from(century) + u16::from(year), month, day)?;
    let seconds = second_of_day(hour, minute, second)?;
    Some(86_400 * days + i64::from(seconds))
}
