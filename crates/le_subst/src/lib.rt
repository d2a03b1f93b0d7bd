//! Substitutions, and the most general unifier of equations between terms.
#![tactic(auto)]

mod counting;
mod solving;
mod substitution;
mod symbols;
#[cfg(test)]
mod tests;

pub use counting::{Steps, solve_counted};
pub use solving::solve;
pub use substitution::Subst;
