ghost use Rattle.std.specs.Prelude.{◌≡◌, ◌++◌, ◌↔◌, ◌==◌, List, IfOk, OnOk, map};
ghost use Rattle.std.specs.Char.{to_ascii_lowercase};
ghost use Rattle.le_templates.specs.declared.part.Part.{Part};
ghost use Rattle.le_templates.specs.Skeletons.{skeleton, skeleton_part, word_key, part_key, key_of, last_word as last_word_of};

use crate::Part;
use std::alloc::{AllocError, Global};

/// Two templates have one key exactly where they have one skeleton. It does nothing.
pub fn one_key()
    ensures { (a b : List Part) → (key_of a ≡ key_of b) ↔ (skeleton a ≡ skeleton b) }
{}

/// The key of a template.
#[tactic(auto, unfolding(crate::specs::Skeletons::key_of))]
pub(crate) fn key_of(alloc: Global, parts: &[Part]) -> Result<Vec<u8>, AllocError>
    ensures { IfOk result (λ key. key.items ≡ key_of parts.now) }
{
    let mut key = Vec::new(alloc);
    for part in parts {
        push_part(&mut key, part)?;
    }
    Ok(key)
}

// Pushes what a part is in a key.
fn push_part(key: &mut Vec<u8>, part: &Part) -> Result<(), AllocError>
    ensures { OnOk result (key.new.items ≡ key.old.items ++ part_key (skeleton_part part.now)) }
{
    match part {
        Part::Word(word) => push_word(key, word.as_str().as_bytes()),
        Part::Slot(_) => {
            key.push(2)?;
            Ok(())
        }
    }
}

// Pushes what a word is in a key.
fn push_word(key: &mut Vec<u8>, word: &[u8]) -> Result<(), AllocError>
    ensures { OnOk result (key.new.items ≡ key.old.items ++ word_key (map to_ascii_lowercase word.now)) }
{
    for byte in word {
        key.push(1)?;
        key.push(byte.to_ascii_lowercase())?;
    }
    key.push(0)?;
    Ok(())
}

/// The last word of a phrase.
pub(crate) fn last_word(phrase: &[u8]) -> &[u8]
    ensures { result.now ≡ last_word_of phrase.now }
{
    let mut from = phrase.len();
    while from > 0 && phrase[from - 1] != b' ' {
        from -= 1;
    }
    &phrase[from..]
}
