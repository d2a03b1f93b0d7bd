//! Folds of a gather. It takes the values at all cases of a gather and gives their sum, their number or
//! the greatest of them. It knows no clause and no search.
#![tactic(auto)]

mod folding;
mod laws;
#[cfg(test)]
mod tests;

pub use folding::{FoldAnswer, fold};
pub use laws::folds_mean;
