//! Takes literals and terms, and gives them with their variables replaced or raised, the equations of a clause's
//! head with an atom, and tests on the variables of atoms. It is what searches and checks of derivations have in
//! common below them, and knows neither goals nor programs.
#![tactic(auto)]

mod changing;
mod covering;
mod equating;
mod grounding;

pub use changing::{Change, changed_terms, push_changed, raised_term};
pub use covering::is_covered;
pub use equating::head_equations;
pub use grounding::is_ground_atom;
