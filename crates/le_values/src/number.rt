ghost use Rattle.std.specs.Prelude.{◌≡◌, IfOk, IfSome, Some};
ghost use Rattle.std.specs.Char.{is_ascii_digit};
ghost use Rattle.std.specs.Fmt.{signed_decimal};
ghost use Rattle.std.specs.List.{list_all};
ghost use Rattle.le_base.specs.Ranges.{IsNumber};
ghost use Rattle.le_values.specs.Numbers.{after_minus, is_number_word, number_of};

use itoa::Buffer;
use le_base::{GREATEST_NUMBER, Text};
use std::alloc::{AllocError, Global};

/// The number that a word is: an optional `-`, and then one ASCII digit or more, of which leading
/// zeros have no effect. `None` comes exactly where the word isn't of that form, or its value is
/// outside -10^18 to 10^18.
pub fn number_of(word: &str) -> Option<i64>
    ensures value { result ≡ number_of word.now }
    ensures in_range { IfSome result IsNumber }
{
    if !is_number_word(word) {
        return None;
    }
    let Ok(number) = word.parse::<i64>() else {
        return None;
    };
    if number.unsigned_abs() > GREATEST_NUMBER as u64 {
        return None;
    }
    Some(number)
}

/// Whether the word is an optional `-` and then one digit or more.
fn is_number_word(word: &str) -> bool
    ensures { result ≡ is_number_word word.now }
{
    let digits = after_minus(word.as_bytes());
    !digits.is_empty() && is_digits(digits)
}

/// The bytes after a `-` at the front, if there is one.
fn after_minus(word: &[u8]) -> &[u8]
    ensures { result.now ≡ after_minus word.now }
{
    match word {
        [b'-', rest @ ..] => rest,
        _ => word,
    }
}

/// Whether each byte is an ASCII digit.
pub(crate) fn is_digits(bytes: &[u8]) -> bool
    ensures { result ≡ list_all is_ascii_digit bytes.now }
{
    bytes.iter().all(|byte| byte.is_ascii_digit())
}

/// The number in decimal digits without leading zeros, after a `-` where it is negative.
pub fn write_number(alloc: Global, n: i64) -> Result<Text, AllocError>
    requires { IsNumber n }
    ensures text { IfOk result (λ text. text ≡ signed_decimal n) }
    ensures reads_back { IfOk result (λ text. number_of text ≡ Some n) }
{
    let mut buffer = Buffer::new();
    Text::of(alloc, buffer.format(n))
}
