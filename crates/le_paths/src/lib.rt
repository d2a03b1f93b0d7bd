//! The steps of a search whose goals are kept in cells, and the derivation that they give. It takes goals and the
//! steps of a path, and gives nodes. How the path was found isn't known here.
#![tactic(auto)]

mod leading;
mod reading;
mod step;

pub use leading::{derivation_along, proof_along};
pub use step::CellStep;
