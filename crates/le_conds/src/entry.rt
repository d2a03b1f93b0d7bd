use le_base::FoldKind;
use le_layout::Span;

/// How an item of the conditions is joined to the one before it.
#[derive(Clone, Copy, Debug)]
pub enum Join {
    /// Without a connective.
    Plain,
    /// With `and`.
    And,
    /// With `or`.
    Or,
}

/// What an item opens.
#[derive(Clone, Copy, Debug)]
pub enum Opens {
    /// Nothing: it is a sentence.
    Nothing,
    /// A negation.
    Negation,
    /// A `for all`.
    ForAll,
    /// The second block of a `for all` that has this column: the item is its marker.
    Second(u32),
    /// A second block without a `for all`: the item is a marker that is no `for all`'s.
    Stray,
    /// A gather.
    Gather {
        /// What is made of the values.
        fold: FoldKind,
        /// The tokens of the result.
        result: Span,
        /// The name of the value.
        name: Span,
    },
}

/// An item as the blocks see it.
#[derive(Clone, Copy, Debug)]
pub struct Entry {
    /// How it is joined to the one before it.
    pub lead: Join,
    /// Where it is shown that it is badly placed: its first token, the connective if it has one; for the
    /// first item the place that stands for all conditions.
    pub at: u32,
    /// Its column, from 0.
    pub column: u32,
    /// What it opens.
    pub opens: Opens,
    /// The first token of its content.
    pub own: u32,
    /// The sentence that it is, or that follows its opener.
    pub inline: Span,
}
