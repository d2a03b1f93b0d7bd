ghost use Rattle.std.specs.Prelude.{◌≡◌};

use le_base::{FoldKind, List};
use le_layout::Span;

/// What a condition is, with the number of conditions below it.
#[derive(Clone, Copy, Debug)]
pub enum CondKind {
    /// A sentence of these tokens; nothing is below it.
    Sentence(Span),
    /// All of so many conditions, at least two.
    And(u32),
    /// One of so many conditions, at least two.
    Or(u32),
    /// Not the one condition below it.
    Not,
    /// In all cases of the first condition below it the second.
    ForAll,
    /// A result gathered from all cases of the one condition below it.
    Gather {
        /// What is made of the values.
        fold: FoldKind,
        /// The tokens of the result, of which there may be none.
        result: Span,
        /// The tokens of the value's name, of which there may be none.
        name: Span,
    },
}

/// A condition.
#[derive(Clone, Copy, Debug)]
pub struct Cond {
    /// What it is.
    pub kind: CondKind,
    /// The first token of its sentence or of its opener, counted from 0; for `And` and `Or` the `at` of
    /// the first condition below it.
    pub at: u32,
}

/// Conditions one after another.
pub type Nodes = List<Cond>;

/// The conditions of a rule or of a query: one tree in preorder.
#[derive(Debug, Drop)]
pub struct Conds {
    /// The tree's conditions.
    pub nodes: Nodes,
}
