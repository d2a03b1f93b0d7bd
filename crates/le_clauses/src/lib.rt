//! The clauses and queries of a document, and the program of a query under a scenario. It takes a layout
//! and its sections, and gives clauses with their groups; it doesn't know how goals are searched.
#![tactic(auto)]

mod conclusions;
mod declaring;
mod draft;
mod drafting;
mod laws;
mod marking;
mod numbering;
mod occurrences;
mod part;
mod prelude;
mod queries;
mod reading;
mod rules;
mod selecting;
#[cfg(test)]
mod tests;
mod translate;
mod translating;
mod whole;

pub use laws::{documents_are_valid, programs_can_be_said, truth_kept};
pub use part::Part;
pub use selecting::select;
pub use translating::program;
pub use whole::{Piece, Pieces, Whole};
