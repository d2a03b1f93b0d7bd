ghost use Rattle.std.specs.Prelude.{◌≡◌};
ghost use Rattle.le_docs.specs.Kinds.{same_kind, kind_number};

use le_base::{List, Text};
use le_layout::Span;

/// What a section holds.
#[derive(Clone, Copy, Debug)]
pub enum SectionKind {
    /// The name of the target language.
    Target,
    /// Templates.
    Templates,
    /// The rules and facts of a knowledge base.
    Knowledge,
    /// The rules and facts of a scenario.
    Scenario,
    /// The sentence of a query.
    Query,
}

impl SectionKind {
    /// Whether two sections hold the same.
    pub fn is(self, other: SectionKind) -> bool
        ensures { result ≡ same_kind self other }
    {
        self.number() == other.number()
    }

    /// The kind's place in the list of kinds.
    fn number(self) -> u8
        ensures { result ≡ kind_number self }
    {
        match self {
            SectionKind::Target => 0,
            SectionKind::Templates => 1,
            SectionKind::Knowledge => 2,
            SectionKind::Scenario => 3,
            SectionKind::Query => 4,
        }
    }
}

/// Spans of tokens, in order.
pub type Spans = List<Span>;

/// A section: what follows a header, up to the next header.
#[derive(Debug, Drop)]
pub struct Section {
    /// What it holds.
    pub kind: SectionKind,
    /// The name in its header, whose words are joined by one space; empty where it has none.
    pub name: Text,
    /// The first token of its header, counted from 0.
    pub at: u32,
    /// Its sentences or templates, without the full stop or comma at the end of each.
    pub sentences: Spans,
}

/// The sections of a document, in order.
pub type Sections = List<Section>;

/// A document as its sections.
#[derive(Debug, Drop)]
pub struct Doc {
    /// The sections, in the order of the text.
    pub sections: Sections,
}
