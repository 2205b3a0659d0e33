//! Days and the seconds of a day.
ghost use Rattle.std.specs.Prelude.{◌≡◌, ◌+◌, ◌*◌, ◌<◌, MatchOption, pos};
ghost use Rattle.jiff.specs.Types.{Date as PlainDate};
ghost use Rattle.jiff.specs.Words.{IsEpochDay, IsYmd, epoch_day};

use jiff::civil::Date;

/// The number of days from 1970-01-01 to a date of the Gregorian calendar; `None` where the
/// calendar does not have the date.
pub fn day_number(year: u16, month: u8, day: u8) -> Option<i64>
    requires year { year < 10000 }
    requires month { month < 100 }
    requires day { day < 100 }
    ensures { MatchOption result
        ((date : PlainDate) → ¬ IsYmd (pos year) (pos month) (pos day) date)
        (λ days. (date : PlainDate) × IsYmd (pos year) (pos month) (pos day) date
        × IsEpochDay days × (days ≡ epoch_day date)) }
{
    match Date::new(year as i16, month as i8, day as i8) {
        Ok(date) => Some(i64::from(date.to_plain().to_unix_epoch_day())),
        Err(_) => None,
    }
}

/// The second of the day at a time, without leap seconds; `None` where there is no such time.
pub fn second_of_day(hour: u8, minute: u8, second: u8) -> Option<u32>
    ensures { MatchOption result (¬ ((hour < 24) × (minute < 60) × (second < 60)))
        (λ seconds. (hour < 24) × (minute < 60) × (second < 60)
        × (seconds ≡ 3600 * hour + 60 * minute + second)) }
{
    if hour < 24 && minute < 60 && second < 60 {
        Some(3600 * u32::from(hour) + 60 * u32::from(minute) + u32::from(second))
    } else {
        None
    }
}
