ghost use Rattle.std.specs.Prelude.{◌≡◌, ◌≤◌, IfSome};
ghost use Rattle.le_bundle.specs.Numbers.{count_up_to, number_up_to, is_line_number};

use le_values::number_of;

/// The number from 1 to `most` that a word is, in ASCII digits without a sign or a leading zero.
#[tactic(auto, unfolding(crate::specs::Numbers::count_up_to))]
pub fn count_up_to(most: u32, word: &str) -> Option<u32>
    ensures exact { result ≡ count_up_to most word.now }
    ensures within { IfSome result (λ n. (1 ≤ n) × (n ≤ most)) }
{
    if word.starts_with('0') {
        return None;
    }
    let number = number_of(word)?;
    if number < 1 || number > i64::from(most) {
        return None;
    }
    Some(number as u32)
}

/// The number from 1 to `most` that bytes are.
#[tactic(auto, unfolding(crate::specs::Numbers::number_up_to))]
pub fn number_up_to(most: u32, bytes: &[u8]) -> Option<u32>
    ensures exact { result ≡ number_up_to most bytes.now }
    ensures within { IfSome result (λ n. (1 ≤ n) × (n ≤ most)) }
{
    match std::str::from_utf8(bytes) {
        Ok(word) => count_up_to(most, word),
        Err(_) => None,
    }
}

/// Whether bytes are the number of a line, which may be 0.
#[tactic(auto, unfolding(crate::specs::Numbers::is_line_number))]
pub fn is_line_number(bytes: &[u8]) -> bool
    ensures { result ≡ is_line_number bytes.now }
{
    bytes == b"0".as_slice() || number_up_to(u32::MAX, bytes).is_some()
}
