//! What a search answers, and the search tree of a program: the meaning that every machine of this
//! repository is proved against.
#![tactic(auto)]

mod derivation;
mod laws;
mod next;
mod node;

pub use derivation::{Derivation, Nodes};
pub use laws::{
    accepted_exactly, admitted_at_leaf, admitted_once, answers_accepted, answers_admitted,
    done_has_all, done_is_whole, few_variables, refutations_agree, searches_end, selects_leftmost,
    tree_unfolds, trees_agree,
};
pub use next::Next;
pub use node::Node;
