//! The search of a program: its answers one after another, and how it ends. Goals are whole terms.
#![tactic(auto)]

#[cfg(test)]
mod building;
mod equating;
mod finding;
mod gathering;
mod goals;
mod machine;
#[cfg(test)]
mod noting;
mod phase;
mod resolving;
mod returning;
mod searching;
mod selecting;
mod starting;
#[cfg(test)]
mod tests;
mod visiting;

pub use machine::Machine;
