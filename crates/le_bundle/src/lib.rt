//! Bundles: a document with derivations of its answers, as one text. It takes the bytes of a bundle and gives
//! its parts, or the first line that doesn't fit, and writes what stands before and after the answers; it doesn't
//! know how a document is read, nor whether a derivation is one.
#![tactic(auto)]

mod endings;
mod head;
mod laws;
mod numbers;
mod opening;
mod parts;
mod reader;
#[cfg(test)]
mod tests;
mod unfit;

pub use endings::{end_words, stopped_words};
pub use head::head_lines;
pub use laws::bundles_read_back;
pub use numbers::count_up_to;
pub use opening::open;
pub use parts::Parts;
pub use unfit::Unfit;
