//! Dates and times of day, as what writes them in decimal digits needs them: two digits, the number
//! of a day and the second of a day.
#![tactic(auto)]

mod day;
mod digits;

pub use day::{day_number, second_of_day};
pub use digits::two_digits;
