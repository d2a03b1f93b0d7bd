//! Takes the sentence of a rule or a query, as tokens of a layout, and gives the conclusion and the tree of
//! conditions that its lines and columns make, or the refusal of its shape. It knows nothing of templates,
//! phrases or variables: a sentence within the conditions is a span of tokens.
#![tactic(auto)]

mod blocks;
mod cond;
mod cutting;
mod entries;
mod entry;
mod faults;
mod item;
mod laws;
mod openers;
mod shape;
mod splitting;
#[cfg(test)]
mod tests;
mod trees;

pub use cond::{Cond, CondKind, Conds, Nodes};
pub use laws::{least_decides, nothing_lost, one_tree};
pub use splitting::{conditions, split_rule};
