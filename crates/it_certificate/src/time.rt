//! The times in a certificate.
ghost use Rattle.std.specs.Prelude.{◌≡◌, ◌<◌, MatchOption, ℤ};
ghost use Rattle.it_certificate.specs.Time.{IsAfterYear, LongTime, ShortTime, TimeOf, short_year};

use it_calendar::{day_number, second_of_day, two_digits};

const UTC_TIME: u8 = 23;

const GENERALIZED_TIME: u8 = 24;

/// A moment.
#[derive(Clone, Copy)]
pub struct Moment {
    /// The seconds since 1970-01-01T00:00:00Z, without leap seconds.
    pub seconds: i64,
}

/// The moment that an element of this tag and content is. `None` where it is none, or has not the
/// form that its year must have (RFC 5280, section 4.1.2.5).
pub(crate) fn time_in(tag: u8, content: &[u8]) -> Option<Moment>
    ensures { MatchOption result ((moment : ℤ) → TimeOf tag content.now moment → ⊥)
        (λ moment. TimeOf tag content.now moment.seconds) }
{
    if tag == UTC_TIME {
        return short_time(content);
    }
    if tag == GENERALIZED_TIME {
        return long_time(content);
    }
    None
}

/// A time whose year has two digits.
fn short_time(content: &[u8]) -> Option<Moment>
    ensures { MatchOption result ((moment : ℤ) → ShortTime content.now moment → ⊥)
        (λ moment. ShortTime content.now moment.seconds) }
{
    if content.len() < 2 {
        return None;
    }
    let digits = two_digits(content[0], content[1])?;
    after_year(year_of(digits), &content[2..])
}

/// The year from 1950 to 2049 that ends in these digits.
fn year_of(digits: u8) -> u16
    requires { digits < 100 }
    ensures { result ≡ short_year digits }
{
    if digits < 50 {
        2000 + u16::from(digits)
    } else {
        1900 + u16::from(digits)
    }
}

/// A time whose year has four digits.
fn long_time(content: &[u8]) -> Option<Moment>
    ensures { MatchOption result ((moment : ℤ) → LongTime content.now moment → ⊥)
        (λ moment. LongTime content.now moment.seconds) }
{
    if content.len() < 4 {
        return None;
    }
    let century = two_digits(content[0], content[1])?;
    let digits = two_digits(content[2], content[3])?;
    let year = 100 * u16::from(century) + u16::from(digits);
    if year < 2050 {
        return None;
    }
    after_year(year, &content[4..])
}

/// The moment by its year and what is written after it.
fn after_year(year: u16, text: &[u8]) -> Option<Moment>
    requires { year < 10000 }
    ensures { MatchOption result ((moment : ℤ) → IsAfterYear year text.now moment → ⊥)
        (λ moment. IsAfterYear year text.now moment.seconds) }
{
    let &[m1, m2, d1, d2, h1, h2, n1, n2, s1, s2, b'Z'] = text else {
        return None;
    };
    let month = two_digits(m1, m2)?;
    let day = two_digits(d1, d2)?;
    let hour = two_digits(h1, h2)?;
    let minute = two_digits(n1, n2)?;
    let second = two_digits(s1, s2)?;
    let days = day_number(year, month, day)?;
    let seconds = second_of_day(hour, minute, second)?;
    Some(Moment {
        seconds: 86_400 * days + i64::from(seconds),
    })
}
