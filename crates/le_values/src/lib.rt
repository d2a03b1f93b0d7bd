//! Numbers and dates as words, and counting with dates. A date is its day number: the days from
//! 1970-01-01 to it, negative for earlier dates.
#![tactic(auto)]

mod day;
mod month;
mod number;
#[cfg(test)]
mod tests;

pub use day::{add_days, day_of, days_between, has_date_form, write_day};
pub use month::add_months;
pub use number::{number_of, write_number};
