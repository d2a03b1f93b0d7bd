ghost use Rattle.std.specs.Prelude.{◌≡◌};
ghost use Rattle.le_layout.specs.Fault.{fault_at, precedes, sooner as sooner_of, refusal_of};

use crate::Layout;
use le_base::{Code, Refusal};
use std::alloc::Global;

/// A cause to refuse a document, at a token.
#[derive(Clone, Copy, Debug)]
pub struct Fault {
    /// The cause.
    pub code: Code,
    /// The token, counted from 0.
    pub place: u32,
}

impl Fault {
    /// The fault of this cause at the token with this number.
    pub fn at(code: Code, place: u32) -> Self
        ensures { result ≡ fault_at code place }
    {
        Fault { code, place }
    }

    /// Whether the fault stands at a lesser place than another, or at the same place with a lesser number.
    pub fn precedes(self, other: Fault) -> bool
        ensures { result ≡ precedes self other }
    {
        self.place < other.place
            || self.place == other.place && self.code.number() < other.code.number()
    }

    /// The fault that decides among this one and those after it, of which one is given that decides among them.
    pub fn sooner(self, least: Option<Fault>) -> Option<Fault>
        ensures { result ≡ sooner_of self least }
    {
        let Some(found) = least else {
            return Some(self);
        };
        if found.precedes(self) {
            return least;
        }
        Some(self)
    }

    /// The refusal that shows the fault. Where there is no such token, its line and column are 0.
    pub fn refusal(self, alloc: Global, layout: &Layout) -> Refusal
        ensures { result ≡ refusal_of layout.now self }
    {
        let tokens = layout.tokens.as_slice();
        let mut line = 0;
        let mut column = 0;
        if (self.place as usize) < tokens.len() {
            line = tokens[self.place as usize].line;
            column = tokens[self.place as usize].column;
        }
        Refusal::at(alloc, self.code, line, column)
    }
}
