//! Searches over vectors of lanes. It takes a list of keys or of bytes and gives the least place from one
//! on that passes a test. It knows no clause and no text.
#![tactic(auto)]

mod classes;
mod keys;
#[cfg(test)]
mod tests;

pub use classes::next_in;
pub use keys::next_key;
