use le_base::FoldKind;
use le_terms::{Atom, Term};

/// A condition that was read, without those below it.
#[derive(Debug, Drop)]
pub enum Part {
    /// A sentence.
    Sentence {
        /// The line of its first token.
        line: u32,
        /// Its atom.
        atom: Atom,
    },
    /// All of so many conditions.
    And(u32),
    /// One of so many conditions.
    Or(u32),
    /// Not the one below it, with the line of the opener.
    Not(u32),
    /// In all cases of the first below it the second, with the line of the opener.
    ForAll(u32),
    /// A result made of the values at all cases of the one below it.
    Gather {
        /// The line of the opener.
        line: u32,
        /// What is made of the values.
        fold: FoldKind,
        /// The result.
        result: Term,
        /// The variable of the value.
        value: u32,
    },
}
