ghost use Rattle.std.specs.Prelude.{◌≡◌, ◌+◌, ◌^◌, ◌<◌};
ghost use Rattle.le_conds.specs.Items.{is_connective as is_connective_lead, is_marker as is_marker_lead, opened, closed};

use le_layout::Span;

/// How an item of the conditions begins.
#[derive(Clone, Copy, Debug)]
pub enum Lead {
    /// With its content: the first item, or the one after an opener or a marker that is alone on its line.
    Plain,
    /// With `and`.
    And,
    /// With `or`.
    Or,
    /// With a marker at the beginning of a line.
    Marker,
}

impl Lead {
    /// Whether the item begins with a connective, which is no part of its content.
    pub fn is_connective(self) -> bool
        ensures { result ≡ is_connective_lead self }
    {
        matches!(self, Lead::And | Lead::Or)
    }

    /// Whether the item begins with a marker.
    pub fn is_marker(self) -> bool
        ensures { result ≡ is_marker_lead self }
    {
        matches!(self, Lead::Marker)
    }
}

/// An item of the conditions.
#[derive(Clone, Copy, Debug)]
pub struct Item {
    /// How it begins.
    pub lead: Lead,
    /// Its first token, the connective if it has one, counted from 0.
    pub at: u32,
    /// Its content.
    pub content: Span,
}

impl Item {
    /// The item that begins so at a token, with no content yet.
    pub fn opened(lead: Lead, at: u32) -> Self
        requires { at + 1 < 2 ^ 32 }
        ensures { result ≡ opened lead at }
    {
        let from = if lead.is_connective() { at + 1 } else { at };
        Item {
            lead,
            at,
            content: Span { from, to: from },
        }
    }

    /// The item with its content up to a token.
    pub fn closed(self, to: u32) -> Self
        ensures { result ≡ closed self to }
    {
        Item {
            lead: self.lead,
            at: self.at,
            content: Span {
                from: self.content.from,
                to,
            },
        }
    }
}
