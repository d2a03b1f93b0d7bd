//! Takes a program and a derivation that anyone may have made, and says whether it is one of the program's query,
//! with the values that are asked for, or the first node where it isn't and why. It knows neither the search nor
//! the text of derivations.
#![tactic(auto)]

mod checking;
mod comparing;
mod counting;
mod cutting;
mod equating;
mod goal;
mod levels;
mod meeting;
mod parts;
mod proving;
mod replaying;
mod resolving;
mod returning;
mod selecting;
#[cfg(test)]
mod tests;
mod verdict;
mod walking;

pub use checking::check;
pub use verdict::Verdict;
