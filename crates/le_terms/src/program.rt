ghost use Rattle.std.specs.Prelude.{◌≡◌, ◌↔◌, IsTrue};

use crate::term::same_terms;
use crate::{Term, Terms};
use le_base::{Copied, FoldKind, List, Text};
use std::alloc::{AllocError, Global};

/// A predicate with its arguments.
#[derive(Debug, Drop)]
pub struct Atom {
    /// The predicate's number.
    pub pred: u32,
    /// The arguments.
    pub args: Terms,
}

impl Atom {
    /// Whether two atoms have the same predicate and the same arguments.
    pub fn equals(&self, other: &Atom) -> bool
        ensures { IsTrue result ↔ (self.now ≡ other.now) }
    {
        self.pred == other.pred && same_terms(self.args.as_slice(), other.args.as_slice())
    }
}

impl Copied for Atom {
    fn copy(&self, alloc: Global) -> Result<Self, AllocError> {
        Ok(Atom {
            pred: self.pred,
            args: self.args.copy(alloc)?,
        })
    }
}

/// What a literal says of its atom.
#[derive(Debug, Drop)]
pub enum Form {
    /// The atom holds, by the program's clauses.
    Pos(Atom),
    /// The atom has no refutation.
    Neg(Atom),
    /// The atom of a predefined predicate holds, by computation.
    Calc(Atom),
    /// The result is made of the values at all cases of the atom.
    Gather {
        /// What is made of the values.
        fold: FoldKind,
        /// What it is to be equal to.
        result: Term,
        /// The value at a case.
        value: Term,
        /// What holds at a case.
        atom: Atom,
    },
}

impl Copied for Form {
    fn copy(&self, alloc: Global) -> Result<Self, AllocError> {
        match self {
            Form::Pos(atom) => Ok(Form::Pos(atom.copy(alloc)?)),
            Form::Neg(atom) => Ok(Form::Neg(atom.copy(alloc)?)),
            Form::Calc(atom) => Ok(Form::Calc(atom.copy(alloc)?)),
            Form::Gather {
                fold,
                result,
                value,
                atom,
            } => Ok(Form::Gather {
                fold: *fold,
                result: result.copy(alloc)?,
                value: value.copy(alloc)?,
                atom: atom.copy(alloc)?,
            }),
        }
    }
}

/// A literal of a body or of a query.
#[derive(Debug, Drop)]
pub struct Literal {
    /// The line of the document that it comes from, from 1.
    pub line: u32,
    /// What it says.
    pub form: Form,
}

impl Copied for Literal {
    fn copy(&self, alloc: Global) -> Result<Self, AllocError> {
        Ok(Literal {
            line: self.line,
            form: self.form.copy(alloc)?,
        })
    }
}

/// Some literals.
pub type Literals = List<Literal>;

/// Where a clause comes from.
#[derive(Clone, Copy, Debug, PartialEq, Eq)]
pub enum ClauseKind {
    /// A fact or a rule of the document.
    Written,
    /// A clause of an auxiliary predicate.
    Branch,
    /// A clause of a predefined predicate.
    Prelude,
}

/// A normal clause. Its variables have numbers below `vars`, which is at most 64.
#[derive(Debug, Drop)]
pub struct Clause {
    /// The head.
    pub head: Atom,
    /// The body.
    pub body: Literals,
    /// The variables' numbers are below this one.
    pub vars: u32,
    /// The line of the document that it comes from, from 1, or 0 for a predefined one.
    pub line: u32,
    /// Where it comes from.
    pub kind: ClauseKind,
}

impl Copied for Clause {
    fn copy(&self, alloc: Global) -> Result<Self, AllocError> {
        Ok(Clause {
            head: self.head.copy(alloc)?,
            body: self.body.copy(alloc)?,
            vars: self.vars,
            line: self.line,
            kind: self.kind,
        })
    }
}

/// Some clauses.
pub type Clauses = List<Clause>;

/// What an auxiliary predicate stands for.
#[derive(Clone, Copy, Debug, PartialEq, Eq)]
pub enum GroupKind {
    /// A disjunction.
    Or,
    /// The inside of a negation.
    Not,
    /// The first block of a `for all`, without the second.
    Case,
    /// The inside of a gather.
    Value,
}

impl Copied for GroupKind {
    fn copy(&self, _alloc: Global) -> Result<Self, AllocError> {
        Ok(*self)
    }
}

/// Some kinds of groups.
pub type Groups = List<GroupKind>;

/// A variable that a query asks for.
#[derive(Debug, Drop)]
pub struct Asked {
    /// Its name, as the query spells it.
    pub name: Text,
    /// Its number.
    pub var: u32,
}

impl Copied for Asked {
    fn copy(&self, alloc: Global) -> Result<Self, AllocError> {
        Ok(Asked {
            name: Text::of(alloc, self.name.as_str())?,
            var: self.var,
        })
    }
}

/// The variables that a query asks for.
pub type AskedList = List<Asked>;

/// A program with its query.
#[derive(Debug, Drop)]
pub struct Program {
    /// The clauses, numbered from 1 in this order.
    pub clauses: Clauses,
    /// The query.
    pub query: Literals,
    /// The variables that the query asks for, in their order.
    pub asked: AskedList,
    /// The query's variables have numbers below this one.
    pub vars: u32,
    /// How many templates the user declared.
    pub users: u32,
    /// The kinds of the groups.
    pub groups: Groups,
    /// The version of the document, 1 or 2.
    pub version: u8,
}
