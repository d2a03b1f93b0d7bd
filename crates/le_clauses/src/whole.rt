ghost use Rattle.std.specs.Prelude.{◌≡◌};

use le_base::{List, Text};
use le_docs::SectionKind;
use le_templates::Templates;
use le_terms::{AskedList, Clauses, Groups, Literals, Names};

/// A knowledge base, a scenario or a query of a document.
#[derive(Debug, Drop)]
pub struct Piece {
    /// Which of them it is.
    pub kind: SectionKind,
    /// Its name.
    pub name: Text,
    /// The clauses of a knowledge base or a scenario; a query has none.
    pub clauses: Clauses,
    /// The literals of a query; the others have none.
    pub query: Literals,
    /// The variables that a query asks for, in the order of the text; the others have none.
    pub asked: AskedList,
    /// The variables of a query have numbers below this one; 0 for the others.
    pub vars: u32,
}

/// The pieces of a document, in the order of the text.
pub type Pieces = List<Piece>;

/// A document whose sentences are read.
#[derive(Drop)]
pub struct Whole {
    /// Its templates.
    pub templates: Templates,
    /// The names of its constants, numbered from 0 in the order of the text.
    pub names: Names,
    /// The kinds of its groups. There are none yet.
    pub groups: Groups,
    /// One piece for each knowledge base, scenario and query, in the order of the text.
    pub pieces: Pieces,
}
