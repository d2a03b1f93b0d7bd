//! The predefined sentences that are computed: what each of them answers for its arguments.
#![tactic(auto)]

mod arithmetic;
mod comparing;
mod computing;
mod dates;
mod kinds;
mod lists;
mod sentences;
#[cfg(test)]
mod tests;

pub use computing::{Calc, compute};
