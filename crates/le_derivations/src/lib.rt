//! The derivation of a success leaf, from the steps of the path that led to it and the terms that are asked
//! for. How the path was found isn't known here.
#![tactic(auto)]

mod changing;
mod leaf;
mod numbering;
mod path;
mod proving;
mod scopes;

pub use leaf::{derivation_of, proof_of};
pub use path::PathStep;
