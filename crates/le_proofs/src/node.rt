use le_base::{Copied, FoldKind};
use le_terms::{Atom, Term};
use std::alloc::{AllocError, Global};

/// A node of a derivation, which is a list of nodes in preorder.
#[derive(Debug, Drop)]
pub enum Node {
    /// The proof of an atom by a clause, above one proof for each literal of its body.
    Use {
        /// The clause's number, from 1.
        clause: u32,
        /// How many literals its body has.
        count: u32,
        /// The instance that is proved.
        atom: Atom,
    },
    /// The proof of a computed literal.
    Compute {
        /// The instance that is proved.
        atom: Atom,
    },
    /// The proof of a negation, above the failed tree of its atom.
    Absent {
        /// The atom.
        atom: Atom,
    },
    /// The proof of a gather, above the whole tree of its atom.
    Gather {
        /// What is made of the values.
        fold: FoldKind,
        /// The result.
        result: Term,
        /// The value at a case.
        value: Term,
        /// What holds at a case.
        atom: Atom,
    },
    /// An atom in a tree, above so many branches.
    Split {
        /// How many clauses have heads that unify with the atom.
        count: u32,
    },
    /// A branch, above the tree of the resolvent.
    Branch {
        /// The clause's number.
        clause: u32,
    },
    /// A computed literal in a tree that holds, above the tree of the rest.
    Computed,
    /// A negation in a tree that holds, above the failed tree of its atom and the tree of the rest.
    Lacking,
    /// A negation in a tree that fails, above a proof of its atom.
    Present,
    /// A gather in a tree whose result fits, above the whole tree of its atom and the tree of the rest.
    Gathered,
    /// A gather in a tree that fails, above the whole tree of its atom.
    Ungathered,
    /// An empty goal in a tree.
    Success,
    /// A computed literal in a tree that doesn't hold.
    Dead,
}

impl Copied for Node {
    fn copy(&self, alloc: Global) -> Result<Self, AllocError> {
        match self {
            Node::Use {
                clause,
                count,
                atom,
            } => Ok(Node::Use {
                clause: *clause,
                count: *count,
                atom: atom.copy(alloc)?,
            }),
            Node::Compute { atom } => Ok(Node::Compute {
                atom: atom.copy(alloc)?,
            }),
            Node::Absent { atom } => Ok(Node::Absent {
                atom: atom.copy(alloc)?,
            }),
            Node::Gather {
                fold,
                result,
                value,
                atom,
            } => Ok(Node::Gather {
                fold: *fold,
                result: result.copy(alloc)?,
                value: value.copy(alloc)?,
                atom: atom.copy(alloc)?,
            }),
            Node::Split { count } => Ok(Node::Split { count: *count }),
            Node::Branch { clause } => Ok(Node::Branch { clause: *clause }),
            Node::Computed => Ok(Node::Computed),
            Node::Lacking => Ok(Node::Lacking),
            Node::Present => Ok(Node::Present),
            Node::Gathered => Ok(Node::Gathered),
            Node::Ungathered => Ok(Node::Ungathered),
            Node::Success => Ok(Node::Success),
            Node::Dead => Ok(Node::Dead),
        }
    }
}
