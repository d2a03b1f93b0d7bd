ghost use Rattle.std.specs.Prelude.{◌≡◌, ◌||◌, ◌++◌, IfOk, decimal, option_map};
ghost use Rattle.std.specs.Str.{bytes_eq};
ghost use Rattle.le_bundle.specs.Bundle.{after_words, is_numbered, is_at_line, is_ending};
ghost use Rattle.le_bundle.specs.Endings.{end_words, stopped_words};

use crate::numbers::is_line_number;
use itoa::Buffer;
use le_base::Text;
use le_proofs::Next;
use std::alloc::{AllocError, Global};

/// How a search with this budget ended, without the LF of its line. The text is empty after an answer, which is no end.
pub fn end_words(alloc: Global, budget: u32, next: Next) -> Result<Text, AllocError>
    ensures { IfOk result (λ text. text ≡ end_words budget next) }
{
    match next {
        Next::Done => Text::of(alloc, "no more answers"),
        Next::Floundered(line) => with_number(alloc, "floundered at line ", line),
        Next::OutOfRange(line) => with_number(alloc, "out of range at line ", line),
        Next::Spent => numbered(alloc, "budget spent after ", budget, " selections"),
        Next::Answer => Ok(Text::new(alloc)),
    }
}

/// That so many answers were found, as many as were asked for.
pub fn stopped_words(alloc: Global, most: u32) -> Result<Text, AllocError>
    ensures { IfOk result (λ text. text ≡ stopped_words most) }
{
    numbered(alloc, "stopped after ", most, " answers")
}

/// A number after a text.
pub fn with_number(alloc: Global, front: &str, number: u32) -> Result<Text, AllocError>
    ensures { IfOk result (λ text. text ≡ front.now ++ decimal number) }
{
    let mut text = Text::of(alloc, front)?;
    text.push_str(Buffer::new().format(number))?;
    Ok(text)
}

/// A number between two texts.
fn numbered(alloc: Global, front: &str, number: u32, back: &str) -> Result<Text, AllocError>
    ensures { IfOk result (λ text. text ≡ front.now ++ (decimal number ++ back.now)) }
{
    let mut text = with_number(alloc, front, number)?;
    text.push_str(back)?;
    Ok(text)
}

/// What a line says after these words, where it begins with them.
pub fn after_words<'a>(words: &str, line: &'a [u8]) -> Option<&'a [u8]>
    ensures { option_map (λ s. s.now) result ≡ after_words words.now line.now }
{
    if line.starts_with(words.as_bytes()) {
        return Some(&line[words.len()..]);
    }
    None
}

/// Whether a line is these words and then the number of a line.
#[tactic(auto, unfolding(crate::specs::Bundle::is_numbered))]
fn is_numbered(words: &str, line: &[u8]) -> bool
    ensures { result ≡ is_numbered words.now line.now }
{
    match after_words(words, line) {
        Some(rest) => is_line_number(rest),
        None => false,
    }
}

/// Whether a line says how a search with these limits ended.
#[tactic(auto, unfolding(crate::specs::Bundle::is_ending))]
pub fn is_ending(alloc: Global, budget: u32, most: u32, line: &[u8]) -> Result<bool, AllocError>
    ensures { IfOk result (λ is. is ≡ is_ending budget most line.now) }
{
    let done = end_words(alloc, budget, Next::Done)?;
    let stopped = stopped_words(alloc, most)?;
    let spent = end_words(alloc, budget, Next::Spent)?;
    Ok(is_one_of(done.as_str(), stopped.as_str(), spent.as_str(), line) || is_at_line(line))
}

/// Whether a line is one of three texts.
fn is_one_of(first: &str, second: &str, third: &str, line: &[u8]) -> bool
    ensures { result ≡ (bytes_eq line.now first.now || (bytes_eq line.now second.now || bytes_eq line.now third.now)) }
{
    line == first.as_bytes() || line == second.as_bytes() || line == third.as_bytes()
}

/// Whether a line says that a search ended at a line of the document.
#[tactic(auto, unfolding(crate::specs::Bundle::is_at_line))]
fn is_at_line(line: &[u8]) -> bool
    ensures { result ≡ is_at_line line.now }
{
    is_numbered("floundered at line ", line) || is_numbered("out of range at line ", line)
}
