//! The goals of a search, kept in the cells of a store. It takes a program and gives the goal of its query,
//! resolvents, what is left of a goal without a literal, and literals and answers as they are now. It knows no
//! order of search and no budget.
#![tactic(auto)]

mod finding;
mod frames;
mod goals;
mod parting;
mod reading;
mod resolving;
mod subgoals;
mod terms;
mod unifying;

pub use goals::{Goals, QUERY};
pub use reading::{Kind, Shape};
