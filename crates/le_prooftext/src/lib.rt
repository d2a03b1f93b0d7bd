//! Derivations as text, both ways. It takes a derivation or bytes, and gives the derivation's one spelling, or the
//! derivation that the bytes begin with. It may not know programs, templates or the files that hold such texts.
#![tactic(auto)]

mod laws;
mod line;
mod number;
mod reading;
#[cfg(test)]
mod tests;
mod text;
mod word;
mod writing;

pub use laws::{
    counts_read_back, derivations_read_back, nodes_read_back, texts_prefix_free, texts_read_back,
};
pub use line::{count_of, node_of};
pub use text::{parse, write};
pub use word::{NodeKind, Word};
