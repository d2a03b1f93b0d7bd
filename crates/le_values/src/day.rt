ghost use Rattle.std.specs.Prelude.{◌≡◌, ◌<◌, ◌≤◌, ◌-ℤ◌, pos, length, IfOk, IfSome, IsTrue, Some};
ghost use Rattle.std.specs.Char.{is_ascii_digit};
ghost use Rattle.std.specs.List.{list_all};
ghost use Rattle.std.specs.Str.Parse.{digits_value};
ghost use Rattle.jiff_core.specs.Date.{epoch_day};
ghost use Rattle.le_base.specs.Ranges.{IsDay};
ghost use Rattle.le_values.specs.Days.{is_date_word, day_of_date, day_of, year_of, month_of, day_in_month, day_text, days_later};

use crate::number::is_digits;
use jiff::civil;
use jiff_core::civil::Date;
use le_base::{FIRST_DAY, LAST_DAY, Text};
use std::alloc::{AllocError, Global};

/// The day number of the date that a word is: four digits, `-`, two digits, `-`, two digits. `None`
/// comes exactly where the word isn't of that form, or is no date of the years 0001 to 9999.
pub fn day_of(word: &str) -> Option<i32>
    ensures value { result ≡ day_of word.now }
    ensures in_years { IfSome result IsDay }
{
    let bytes = word.as_bytes();
    if !is_date_word(bytes) {
        return None;
    }
    let year = digits_value(&bytes[..4]);
    let month = digits_value(&bytes[5..7]);
    let day = digits_value(&bytes[8..10]);
    day_of_date(year, month, day)
}

/// Whether a word has the form of a date: four digits, `-`, two digits, `-`, two digits.
pub fn has_date_form(word: &str) -> bool
    ensures { result ≡ is_date_word word.now }
{
    is_date_word(word.as_bytes())
}

/// Whether the bytes are four digits, `-`, two digits, `-`, two digits.
fn is_date_word(bytes: &[u8]) -> bool
    ensures { result ≡ is_date_word bytes.now }
{
    bytes.len() == 10
        && is_digits(&bytes[..4])
        && bytes[4] == b'-'
        && is_digits(&bytes[5..7])
        && bytes[7] == b'-'
        && is_digits(&bytes[8..10])
}

/// The number that at most four digits write.
fn digits_value(digits: &[u8]) -> u16
    requires short { length digits.now ≤ 4 }
    requires digits { IsTrue (list_all is_ascii_digit digits.now) }
    ensures { result ≡ digits_value 10 digits.now }
{
    let mut value = 0;
    for digit in digits {
        value = value * 10 + u16::from(*digit - b'0');
    }
    value
}

/// The day number of a date of the years 1 to 9999, if the calendar has it.
fn day_of_date(year: u16, month: u16, day: u16) -> Option<i32>
    requires year { year < 10_000 }
    requires month { month < 100 }
    requires day { day < 100 }
    ensures value { result ≡ day_of_date year month day }
    ensures in_years { IfSome result IsDay }
{
    if year == 0 {
        return None;
    }
    let Ok(date) = Date::new(year as i16, month as i8, day as i8) else {
        return None;
    };
    Some(date.to_unix_epoch_day())
}

/// The date with this day number.
pub(crate) fn date_at(day: i32) -> Date
    requires { IsDay day }
    ensures number { epoch_day result ≡ day }
    ensures year { result.year ≡ pos (year_of day) }
    ensures month { result.month ≡ month_of day }
    ensures day { result.day ≡ day_in_month day }
{
    Date::from_unix_epoch_day(i64::from(day)).unwrap()
}

/// The date of a day as `YYYY-MM-DD`, with leading zeros.
pub fn write_day(alloc: Global, day: i32) -> Result<Text, AllocError>
    requires { IsDay day }
    ensures text { IfOk result (λ text. text ≡ day_text day) }
    ensures reads_back { IfOk result (λ text. day_of text ≡ Some day) }
{
    let date = civil::Date::from_plain(date_at(day));
    let text = date.to_string(alloc)?;
    Text::of(alloc, text.as_str())
}

/// The day `n` days later, or earlier for a negative `n`. `None` comes exactly where that is outside
/// the years 0001 to 9999.
pub fn add_days(day: i32, n: i64) -> Option<i32>
    ensures value { result ≡ days_later day n }
    ensures in_years { IfSome result IsDay }
{
    let sum = i64::from(day).checked_add(n)?;
    if sum < FIRST_DAY || sum > LAST_DAY {
        return None;
    }
    Some(sum as i32)
}

/// The days from one day to another: `to` minus `from`.
pub fn days_between(from: i32, to: i32) -> i64
    ensures { result ≡ to -ℤ from }
{
    i64::from(to) - i64::from(from)
}
