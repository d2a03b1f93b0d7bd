ghost use Rattle.std.specs.Prelude.{◌≡◌};

use le_base::List;

/// The lengths of the slots of a reading, in tokens, in order.
pub type Lengths = List<u32>;

/// A reading of a sentence by a template.
#[derive(Debug, Drop)]
pub struct Reading {
    /// The template's predicate.
    pub pred: u32,
    /// How many tokens each of its slots takes.
    pub lengths: Lengths,
}

/// The best readings of a sentence: those by the templates with most words outside slots.
#[derive(Debug, Drop)]
pub enum BestReading {
    /// There is no reading.
    None,
    /// There is one best reading.
    One(Reading),
    /// There are two best readings or more, of which these are the first two.
    Two(Reading, Reading),
}
