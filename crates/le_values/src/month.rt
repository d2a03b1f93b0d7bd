ghost use Rattle.std.specs.Prelude.{◌≡◌, IfSome};
ghost use Rattle.le_base.specs.Ranges.{IsDay};
ghost use Rattle.le_values.specs.Days.{months_later};

use crate::day::date_at;
use jiff_span::date;

/// More months than the years 1 to 9999 have.
const MOST_MONTHS: i64 = 120_000;

/// The same day `n` months later, or earlier for a negative `n`, with the day cut to the length of
/// that month. `None` comes exactly where its year is outside 1 to 9999.
pub fn add_months(day: i32, n: i64) -> Option<i32>
    requires { IsDay day }
    ensures value { result ≡ months_later day n }
    ensures in_years { IfSome result IsDay }
{
    let start = date_at(day);
    if n < -MOST_MONTHS || n > MOST_MONTHS {
        return None;
    }
    let Ok(later) = date::add_months(start, n as i32) else {
        return None;
    };
    if later.year < 1 {
        return None;
    }
    Some(later.to_unix_epoch_day())
}
