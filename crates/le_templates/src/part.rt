ghost use Rattle.std.specs.Prelude.{◌≡◌};

use le_base::{List, Text};

/// A part of a template.
#[derive(Debug, Drop)]
pub enum Part {
    /// A word outside slots.
    Word(Text),
    /// A slot, with the words of its phrase, joined by one space.
    Slot(Text),
}

/// The parts of a template, in order.
pub type Parts = List<Part>;

/// A template: its words and slots.
#[derive(Debug, Drop)]
pub struct Template {
    /// Its words and slots, in order.
    pub parts: Parts,
}
