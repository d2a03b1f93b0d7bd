ghost use Rattle.std.specs.Prelude.{◌≡◌, ◌≤◌, false, length, take, drop, map, OnOk, OnErr};
ghost use Rattle.std.specs.Char.{to_ascii_lowercase};
ghost use Rattle.std.specs.Str.{bytes_eq};
ghost use Rattle.le_templates.specs.Walks.{has, entered, part_entered, parts_entered};

use crate::Part;
use crate::skeleton::last_word;
use crate::texts::Texts;
use std::alloc::{AllocError, Global};

/// Enters a key that isn't there, and the last words of the slots of parts. Where memory runs out both
/// are as before.
pub(crate) fn enter(
    alloc: Global,
    keys: &mut Texts,
    words: &mut Texts,
    key: Vec<u8>,
    parts: &[Part],
) -> Result<(), AllocError>
    ensures keys_ok { OnOk result (keys.new ≡ entered keys.old key.items) }
    ensures words_ok { OnOk result (words.new ≡ parts_entered words.old parts.now) }
    ensures keys_err { OnErr result (keys.new ≡ keys.old) }
    ensures words_err { OnErr result (words.new ≡ words.old) }
{
    let known = words.len();
    if let Err(error) = enter_last_words(alloc, words, parts) {
        words.truncate(known);
        return Err(error);
    }
    if let Err(error) = keys.enter(key) {
        words.truncate(known);
        return Err(error);
    }
    Ok(())
}

// Enters the last words of the slots of parts. The words that were there stay the first.
fn enter_last_words(alloc: Global, words: &mut Texts, parts: &[Part]) -> Result<(), AllocError>
    ensures ok { OnOk result (words.new ≡ parts_entered words.old parts.now) }
    ensures kept { take (length words.old) words.new ≡ words.old }
{
    for part in parts {
        enter_last_word(alloc, words, part)?;
    }
    Ok(())
}

// Enters the last word of a part that is a slot.
fn enter_last_word(alloc: Global, words: &mut Texts, part: &Part) -> Result<(), AllocError>
    ensures ok { OnOk result (words.new ≡ part_entered words.old part.now) }
    ensures err { OnErr result (words.new ≡ words.old) }
{
    match part {
        Part::Word(_) => Ok(()),
        Part::Slot(phrase) => {
            let word = last_word(phrase.as_str().as_bytes()).to_ascii_lowercase(alloc)?;
            words.enter(word)
        }
    }
}

// The longest word that is put into lower case on the stack.
const SHORT: usize = 64;

/// Whether a word is there, once it is in ASCII lower case. It takes no memory: a word of more than 64
/// bytes is compared with each text.
pub(crate) fn has_lowered(texts: &Texts, word: &[u8]) -> bool
    ensures { result ≡ has texts.now (map to_ascii_lowercase word.now) }
{
    if word.len() > SHORT {
        return texts.has_lowered(word);
    }
    let mut buffer = [0; SHORT];
    let lowered = &mut buffer[..word.len()];
    lowered.copy_from_slice(word);
    lowered.make_ascii_lowercase();
    texts.has(lowered)
}
