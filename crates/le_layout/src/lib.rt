//! The layout of a text: its tokens with their places, and its lines that have a token. It takes bytes,
//! and gives a layout or a refusal. It knows characters, words, numbers and dates, and no headers,
//! sentences or phrases.
#![tactic(auto)]

mod characters;
mod fault;
mod faults;
mod laws;
mod layout;
mod lines;
mod openings;
mod piece;
mod place;
mod scanning;
mod span;
#[cfg(test)]
mod tests;
mod token;

pub use fault::Fault;
pub use laws::{least_fault, one_cut, scans_back, values_are_words, whole_lines, written_tokens};
pub use layout::Layout;
pub use openings::{ALL_CASES, NOT_THE_CASE, THE_CASE};
pub use scanning::scan;
pub use span::Span;
pub use token::{Kind, Line, Lines, Token, Tokens};
