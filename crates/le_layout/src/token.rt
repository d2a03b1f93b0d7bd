ghost use Rattle.std.specs.Prelude.{◌≡◌};
ghost use Rattle.le_base.specs.declared.stop.Stop.TheVariants.{Refused};
ghost use Rattle.le_base.specs.Stop.{refusal_at};
ghost use Rattle.le_layout.specs.Words.{is_word, is_quote, is_comma, is_colon, is_star, is_stop};

use le_base::{Code, List, Refusal, Stop};
use std::alloc::Global;

/// What a token is.
#[derive(Clone, Copy, Debug, PartialEq, Eq)]
pub enum Kind {
    /// A word.
    Word,
    /// A quoted text.
    Quote,
    /// `[`.
    Open,
    /// `]`.
    Close,
    /// `|`.
    Bar,
    /// `,`.
    Comma,
    /// `:`.
    Colon,
    /// `*`.
    Star,
    /// A full stop.
    Stop,
}

impl Kind {
    /// Whether a token of this kind is a word.
    pub fn is_word(self) -> bool
        ensures { result ≡ is_word self }
    {
        matches!(self, Kind::Word)
    }

    /// Whether it is a quoted text.
    pub fn is_quote(self) -> bool
        ensures { result ≡ is_quote self }
    {
        matches!(self, Kind::Quote)
    }

    /// Whether it is a comma.
    pub fn is_comma(self) -> bool
        ensures { result ≡ is_comma self }
    {
        matches!(self, Kind::Comma)
    }

    /// Whether it is a colon.
    pub fn is_colon(self) -> bool
        ensures { result ≡ is_colon self }
    {
        matches!(self, Kind::Colon)
    }

    /// Whether it is an asterisk.
    pub fn is_star(self) -> bool
        ensures { result ≡ is_star self }
    {
        matches!(self, Kind::Star)
    }

    /// Whether it is a full stop.
    pub fn is_stop(self) -> bool
        ensures { result ≡ is_stop self }
    {
        matches!(self, Kind::Stop)
    }
}

/// A token: what it is, its bytes in the text, and its place.
#[derive(Clone, Copy, Debug)]
pub struct Token {
    /// What the token is.
    pub kind: Kind,
    /// Its first byte, counted from 0.
    pub from: u32,
    /// The place after its last byte.
    pub to: u32,
    /// The number of its line, from 1.
    pub line: u32,
    /// The column of its first character, from 1.
    pub column: u32,
}

impl Token {
    /// The refusal with this code at the token.
    pub fn refused(self, alloc: Global, code: Code) -> Stop
        ensures { result ≡ Refused (refusal_at code self.line self.column) }
    {
        Stop::Refused(Refusal::at(alloc, code, self.line, self.column))
    }
}

/// A line that has a token.
#[derive(Clone, Copy, Debug)]
pub struct Line {
    /// Its number among all lines of the text, from 1.
    pub number: u32,
    /// The column of its first token, from 0.
    pub indent: u32,
    /// Its first token, counted from 0.
    pub from: u32,
    /// The place after its last token.
    pub to: u32,
}

/// The tokens of a text, in order.
pub type Tokens = List<Token>;

/// The lines of a text that have a token, in order.
pub type Lines = List<Line>;
