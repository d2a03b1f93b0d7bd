//! How a sentence is read by the templates of a document.
#![tactic(auto)]

mod choosing;
mod cuts;
mod fitting;
mod laws;
mod lists;
mod marked;
mod phrases;
mod readings;
mod sentences;
mod sharing;
mod shown;
#[cfg(test)]
mod tests;

pub use choosing::best;
pub use laws::{
    every_reading, every_term, every_way, no_reading_without_a_word, one_marked_reading,
    read_can_be_said,
};
pub use phrases::term;
pub use readings::{BestReading, Lengths, Reading};
pub use sentences::read;
