ghost use Rattle.std.specs.Prelude.{◌≡◌, IfSome, IsTrue};
ghost use Rattle.std.specs.Fmt.{signed_decimal};
ghost use Rattle.std.specs.Str.{bytes_eq};
ghost use Rattle.le_base.specs.Ranges.{IsNumber, IsDay};
ghost use Rattle.le_prooftext.specs.Reading.{day_of, is_day, natural_of, small_of, whole_of};

use itoa::Buffer;
use le_base::{FIRST_DAY, LAST_DAY};
use le_values::number_of;
use std::str;

/// The greatest number of a name, a variable, a predicate or a clause, and the greatest count.
const GREATEST_SMALL: u64 = 4_294_967_295;

// The number that some bytes spell in decimal digits without leading zeros.
pub(crate) fn natural_of(bytes: &[u8]) -> Option<u64>
    ensures { result ≡ natural_of bytes.now }
{
    let Ok(text) = str::from_utf8(bytes) else {
        return None;
    };
    let Ok(n) = text.parse::<u64>() else {
        return None;
    };
    let mut buffer = Buffer::new();
    let digits = buffer.format(n).as_bytes();
    if digits != bytes {
        return None;
    }
    Some(n)
}

#[tactic(auto, unfolding(crate::specs::Reading::small_of))]
// The same, where it is at most 4,294,967,295.
pub(crate) fn small_of(bytes: &[u8]) -> Option<u32>
    ensures { result ≡ small_of bytes.now }
{
    let n = natural_of(bytes)?;
    if n > GREATEST_SMALL {
        return None;
    }
    Some(n as u32)
}

// Whether a number is spelled by these bytes.
fn is_spelled(n: i64, bytes: &[u8]) -> bool
    ensures { result ≡ bytes_eq (signed_decimal n) bytes.now }
{
    let mut buffer = Buffer::new();
    let digits = buffer.format(n).as_bytes();
    digits == bytes
}

// The whole number from -10^18 to 10^18 that some bytes spell, with a `-` before a negative one.
#[tactic(auto, unfolding(crate::specs::Reading::whole_of))]
pub(crate) fn whole_of(bytes: &[u8]) -> Option<i64>
    ensures value { result ≡ whole_of bytes.now }
    ensures in_range { IfSome result IsNumber }
{
    let Ok(text) = str::from_utf8(bytes) else {
        return None;
    };
    let n = number_of(text)?;
    if !is_spelled(n, bytes) {
        return None;
    }
    Some(n)
}

// Whether a number is a day of the years 0001 to 9999.
fn is_day(d: i64) -> bool
    ensures value { result ≡ is_day d }
    ensures in_range { IsTrue result → IsDay d }
{
    FIRST_DAY <= d && d <= LAST_DAY
}

// The day of the years 0001 to 9999 that some bytes spell.
#[tactic(auto, unfolding(crate::specs::Reading::day_of))]
pub(crate) fn day_of(bytes: &[u8]) -> Option<i32>
    ensures value { result ≡ day_of bytes.now }
    ensures in_range { IfSome result IsDay }
{
    let d = whole_of(bytes)?;
    if !is_day(d) {
        return None;
    }
    Some(d as i32)
}
