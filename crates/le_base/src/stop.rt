ghost use Rattle.std.specs.Prelude.{◌≡◌};
ghost use Rattle.le_base.specs.Stop.{refusal_at};

use crate::{Code, Text};
use std::alloc::{AllocError, AllocFailed, Global};

/// Why a document isn't accepted, and where.
#[derive(Debug, Drop)]
pub struct Refusal {
    /// The cause.
    pub code: Code,
    /// The line of the place, from 1, or 0 for the document as a whole.
    pub line: u32,
    /// The column of the place, from 1, or 0 for the document as a whole.
    pub column: u32,
    /// The first reading of an ambiguous sentence, else empty.
    pub first: Text,
    /// The second reading of an ambiguous sentence, else empty.
    pub second: Text,
}

impl Refusal {
    /// A refusal that shows no readings.
    pub fn at(alloc: Global, code: Code, line: u32, column: u32) -> Self
        ensures { result ≡ refusal_at code line column }
    {
        Refusal {
            code,
            line,
            column,
            first: Text::new(alloc),
            second: Text::new(alloc),
        }
    }
}

/// Why a call on a document gives no value.
#[derive(Debug, Drop)]
pub enum Stop {
    /// The document isn't accepted.
    Refused(Refusal),
    /// Memory wasn't found.
    Memory,
}

impl From<AllocError> for Stop {
    ghost use Rattle.std.specs.Prelude.{◌≡◌};
    ghost use Rattle.le_base.specs.declared.stop.Stop.TheVariants.{Memory};

    ghost from_gives = { λ _ stop. stop ≡ Memory };

    fn from(_error: AllocError) -> Stop {
        Stop::Memory
    }
}

impl<T: Drop> From<AllocFailed<T>> for Stop {
    ghost use Rattle.std.specs.Prelude.{◌≡◌};
    ghost use Rattle.le_base.specs.declared.stop.Stop.TheVariants.{Memory};

    ghost from_gives = { λ _ stop. stop ≡ Memory };

    fn from(_error: AllocFailed<T>) -> Stop {
        Stop::Memory
    }
}

/// What is made of the values at all cases of a gather.
#[derive(Clone, Copy, Debug, PartialEq, Eq)]
pub enum FoldKind {
    /// Their sum.
    Sum,
    /// How many there are.
    Number,
    /// The greatest of them.
    Greatest,
}
