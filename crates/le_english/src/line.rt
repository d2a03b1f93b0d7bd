ghost use Rattle.std.specs.Prelude.{◌≡◌, ◌+◌, ◌-◌, ◌^◌, ◌<◌, ◌∷◌, ◌++◌, [], true, false, min, if◌then◌else◌, OnOk};
ghost use Rattle.le_layout.specs.Joined.{opening, closing, plain, written, glues_kind, hugs_kind};
ghost use Rattle.le_english.specs.Lines.{with_item};

use le_base::Text;
use le_layout::Kind;
use std::alloc::{AllocError, Global};

// The text of the items of a sentence so far, whether no space stands after the last of them, and how many
// tokens were counted since the count began, up to the greatest number of 64 bits.
#[derive(Drop)]
pub(crate) struct Line {
    pub(crate) text: Text,
    pub(crate) glued: bool,
    pub(crate) tokens: usize,
}

impl Line {
    // A line without items.
    pub(crate) fn new(alloc: Global) -> Self
        ensures { result ≡ record { text = []; glued = true; tokens = 0 } }
    {
        Line {
            text: Text::new(alloc),
            glued: true,
            tokens: 0,
        }
    }

    // Puts a token of this kind and text, a quoted text with its quotation marks.
    pub(crate) fn put(&mut self, kind: Kind, text: &str) -> Result<(), AllocError>
        ensures { OnOk result (self.new ≡ with_item self.old (plain (record { kind = kind; text = text.now }))) }
    {
        if !self.glued && !hugs(kind) {
            self.text.push_str(" ")?;
        }
        put_written(&mut self.text, kind, text)?;
        self.glued = glues(kind);
        self.tokens = self.tokens.saturating_add(1);
        Ok(())
    }

    // Puts the asterisk before a slot.
    pub(crate) fn open_slot(&mut self) -> Result<(), AllocError>
        ensures { OnOk result (self.new ≡ with_item self.old opening) }
    {
        if !self.glued {
            self.text.push_str(" ")?;
        }
        self.text.push_str("*")?;
        self.glued = true;
        self.tokens = self.tokens.saturating_add(1);
        Ok(())
    }

    // Puts the asterisk after a slot.
    pub(crate) fn close_slot(&mut self) -> Result<(), AllocError>
        ensures { OnOk result (self.new ≡ with_item self.old closing) }
    {
        self.text.push_str("*")?;
        self.glued = false;
        self.tokens = self.tokens.saturating_add(1);
        Ok(())
    }

    // Puts several words, joined by one space, which are so many tokens.
    pub(crate) fn put_words(&mut self, words: &str, count: usize) -> Result<(), AllocError>
        ensures fits { OnOk result (self.old.tokens < 2 ^ 64) }
        ensures line { OnOk result (self.new ≡ record { text = self.old.text ++ ((if self.old.glued then [] else 32 ∷ []) ++ words.now); glued = false; tokens = min (self.old.tokens + count) (2 ^ 64 - 1) }) }
    {
        if !self.glued {
            self.text.push_str(" ")?;
        }
        self.text.push_str(words)?;
        self.glued = false;
        self.tokens = self.tokens.saturating_add(count);
        Ok(())
    }
}

// Appends the text of a token of this kind.
fn put_written(text: &mut Text, kind: Kind, word: &str) -> Result<(), AllocError>
    ensures { OnOk result (text.new ≡ text.old ++ written kind word.now) }
{
    if !kind.is_quote() {
        return text.push_str(word);
    }
    text.push_str("\"")?;
    text.push_str(word)?;
    text.push_str("\"")
}

// Whether no space stands after a token of this kind.
fn glues(kind: Kind) -> bool
    ensures { result ≡ glues_kind kind }
{
    matches!(kind, Kind::Open)
}

// Whether no space stands before a token of this kind.
fn hugs(kind: Kind) -> bool
    ensures { result ≡ hugs_kind kind }
{
    matches!(kind, Kind::Close | Kind::Comma)
}
