//! The search of a program: its answers one after another, and how it ends. Goals are kept in cells.
#![tactic(auto)]

mod equating;
mod finding;
mod gathering;
mod goals;
mod machine;
mod phase;
mod returning;
mod searching;
mod selecting;
mod visiting;

pub use machine::Machine;
