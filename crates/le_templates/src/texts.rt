ghost use Rattle.std.specs.Prelude.{◌≡◌, [], length, take, map, OnOk, OnErr};
ghost use Rattle.std.specs.Str.{bytes_eq};
ghost use Rattle.std.specs.Char.{to_ascii_lowercase};
ghost use Rattle.le_templates.specs.Walks.{has, entered};

use indexmap::IndexSet;
use std::alloc::{AllocError, Global};
use std::marker::Model;

// Texts as bytes, each once, in the order in which they were entered.
#[derive(Drop)]
pub(crate) struct Texts {
    set: IndexSet<Vec<u8>>,
}

impl Model for Texts {
    ghost use Rattle.std.specs.Prelude.{ℕ, List, map};

    ghost Value = { List (List ℕ) };

    ghost view = { λ t. map (λ v. v.items) t.set.keys };
}

impl Texts {
    // No texts.
    pub(crate) fn new(alloc: Global) -> Self
        ensures { result ≡ [] }
    {
        Texts {
            set: IndexSet::new(alloc),
        }
    }

    // How many texts there are.
    pub(crate) fn len(&self) -> usize
        ensures { result ≡ length self.now }
    {
        self.set.len()
    }

    // Whether a text is there.
    pub(crate) fn has(&self, text: &[u8]) -> bool
        ensures { result ≡ has self.now text.now }
    {
        self.set.contains(text)
    }

    // Whether a word is there, once it is in ASCII lower case. Each text is looked at.
    pub(crate) fn has_lowered(&self, word: &[u8]) -> bool
        ensures { result ≡ has self.now (map to_ascii_lowercase word.now) }
    {
        any_is_lowered(self.set.as_slice(), word)
    }

    // Enters a text at the end, unless it is there. Where memory runs out the texts are as before.
    pub(crate) fn enter(&mut self, text: Vec<u8>) -> Result<(), AllocError>
        ensures ok { OnOk result (self.new ≡ entered self.old text.items) }
        ensures err { OnErr result (self.new ≡ self.old) }
    {
        self.set.insert(text)?;
        Ok(())
    }

    // Keeps the first `count` texts.
    pub(crate) fn truncate(&mut self, count: usize)
        ensures { self.new ≡ take count self.old }
    {
        self.set.truncate(count);
    }
}

// Whether a text is the word in ASCII lower case.
fn any_is_lowered(texts: &[Vec<u8>], word: &[u8]) -> bool
    ensures { result ≡ has (map (λ v. v.items) texts.now) (map to_ascii_lowercase word.now) }
{
    for text in texts {
        if is_lowered(text, word) {
            return true;
        }
    }
    false
}

// Whether the text is the word in ASCII lower case.
fn is_lowered(text: &[u8], word: &[u8]) -> bool
    ensures { result ≡ bytes_eq (map to_ascii_lowercase word.now) text.now }
{
    if text.len() != word.len() {
        return false;
    }
    for i in 0..word.len() {
        if word[i].to_ascii_lowercase() != text[i] {
            return false;
        }
    }
    true
}
