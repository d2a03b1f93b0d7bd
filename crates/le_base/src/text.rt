ghost use Rattle.std.specs.Prelude.{◌≡◌, [], ◌++◌, IfOk, OnOk, OnErr};

use std::alloc::{AllocError, Global};
use std::marker::Model;

/// An owned text in UTF-8, which contracts see as its bytes.
#[derive(Debug, Drop)]
pub struct Text {
    text: String,
}

impl Model for Text {
    ghost use Rattle.std.specs.Prelude.{ℕ, List, string_bytes};

    ghost Value = { List ℕ };

    ghost view = { λ t. string_bytes t.text };
}

impl Text {
    /// The empty text.
    pub fn new(alloc: Global) -> Self
        ensures { result ≡ [] }
    {
        Text {
            text: String::new(alloc),
        }
    }

    /// A copy of `s`.
    pub fn of(alloc: Global, s: &str) -> Result<Self, AllocError>
        ensures { IfOk result (λ text. text ≡ s.now) }
    {
        Ok(Text {
            text: String::from_str(alloc, s)?,
        })
    }

    /// The text, borrowed.
    pub fn as_str(&self) -> &str
        ensures { result.now ≡ self.now }
    {
        self.text.as_str()
    }

    /// Appends the bytes of `s`. Where memory runs out the text is as before.
    pub fn push_str(&mut self, s: &str) -> Result<(), AllocError>
        ensures ok { OnOk result (self.new ≡ self.old ++ s.now) }
        ensures err { OnErr result (self.new ≡ self.old) }
    {
        self.text.push_str(s)?;
        Ok(())
    }
}
