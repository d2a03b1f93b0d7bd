//! The clauses of a document as a text, one line for each. It takes the whole of a document, and gives the
//! text; it doesn't know how a document is read, nor how goals are searched.
#![tactic(auto)]

mod atoms;
mod lines;
mod listing;
mod terms;
#[cfg(test)]
mod tests;
mod variables;

pub use listing::clause_text;
