//! Terms, kept flat and seen as trees, the atoms, literals, clauses and programs that are made of
//! them, and the names of constants.
#![tactic(auto)]

mod names;
mod program;
mod term;
#[cfg(test)]
mod tests;
mod variables;

pub use names::Names;
pub use program::{
    Asked, AskedList, Atom, Clause, ClauseKind, Clauses, Form, GroupKind, Groups, Literal,
    Literals, Program,
};
pub use term::{Sym, Term, Terms, first_term_len};
pub use variables::{canonical, is_ground, vars_of};
