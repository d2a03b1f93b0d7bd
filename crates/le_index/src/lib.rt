//! The index of a program's clauses. It takes clauses and gives the next one of a predicate whose head an
//! atom may meet, by a key of the first argument. It knows no search.
#![tactic(auto)]

mod index;
mod keys;
mod laws;
mod listed;
#[cfg(test)]
mod tests;

pub use index::Index;
pub use keys::{key_of, key_of_symbol};
pub use laws::passed_clauses_never_unify;
