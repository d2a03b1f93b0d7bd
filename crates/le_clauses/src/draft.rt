ghost use Rattle.std.specs.Prelude.{◌≡◌};

use crate::part::Part;
use le_base::List;
use le_terms::{Atom, Clauses, GroupKind, Groups, Literals};

/// Some numbers of variables.
pub type Numbers = List<u32>;

/// Literals that are to hold together.
#[derive(Debug, Drop)]
pub struct Body {
    /// The line of the first token.
    pub line: u32,
    /// The literals.
    pub literals: Literals,
}

/// Some bodies.
pub type Bodies = List<Body>;

/// What conditions are translated to: one body, or for the whole of a group one for each branch; and the
/// clauses and the kinds of the groups inside, in the order of their numbers.
#[derive(Debug, Drop)]
pub struct Draft {
    /// The bodies.
    pub bodies: Bodies,
    /// The clauses of the groups inside.
    pub clauses: Clauses,
    /// The kinds of the groups inside.
    pub kinds: Groups,
}

/// A part with how it stands, and the predicate of the next group.
#[derive(Debug, Drop)]
pub struct Mark {
    /// The part.
    pub part: Part,
    /// The kind of the group that it is the whole of; none for a member.
    pub mode: Option<GroupKind>,
    /// The predicate of the next group.
    pub pred: u32,
}

/// What a condition is translated to: its literals as a member, or the atom of its group.
#[derive(Debug, Drop)]
pub struct Done {
    /// The line of its first token.
    pub line: u32,
    /// Its variables from left to right, each as often as it occurs.
    pub vars: Numbers,
    /// The literals of a member.
    pub literals: Literals,
    /// The atom of a group.
    pub atom: Atom,
    /// The clauses of its groups.
    pub clauses: Clauses,
    /// The kinds of its groups.
    pub kinds: Groups,
}

/// A draft with the line and the variables of what it was made of.
#[derive(Debug, Drop)]
pub struct Made {
    /// The line of the first token.
    pub line: u32,
    /// The variables from left to right, each as often as it occurs.
    pub vars: Numbers,
    /// The draft.
    pub draft: Draft,
}
