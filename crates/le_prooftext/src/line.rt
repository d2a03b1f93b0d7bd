ghost use Rattle.std.specs.Prelude.{◌≡◌, ◌==◌, ◌<◌, IfOk, IfSome, length, position};
ghost use Rattle.std.specs.Option.{option_map};
ghost use Rattle.le_prooftext.specs.Laws.{ReadsCount, ReadsNode};
ghost use Rattle.le_prooftext.specs.Reading.{count_of, line_words, node_of};

use crate::number::natural_of;
use crate::reading::node_from;
use crate::word::{Word, word_of};
use le_proofs::Node;
use std::alloc::{AllocError, Global};

/// What the line with the number of nodes begins with.
const PREFIX: &[u8] = b"derivation ";

/// The number N of a line `derivation N`, which is without its LF. `None` comes exactly where the line is no such line.
pub fn count_of(line: &[u8]) -> Option<u64>
    ensures value { result ≡ count_of line.now }
    ensures exact { ReadsCount line.now result }
{
    if line.len() < PREFIX.len() {
        return None;
    }
    if &line[..PREFIX.len()] != PREFIX {
        return None;
    }
    natural_of(&line[PREFIX.len()..])
}

// The first place of a space.
fn space_place(bytes: &[u8]) -> Option<usize>
    ensures place { result ≡ position (λ b. b == 32) bytes.now }
    ensures within { IfSome result (λ place. place < length bytes.now) }
{
    bytes.iter().position(|byte| *byte == b' ')
}

// The words of a line, one space between each two.
fn line_words(alloc: Global, line: &[u8]) -> Result<Option<Vec<Word>>, AllocError>
    ensures { IfOk result (λ found. option_map (λ words. words.items) found ≡ line_words line.now) }
{
    let mut words = Vec::new(alloc);
    let mut at = 0;
    while let Some(place) = space_place(&line[at..]) {
        let Some(word) = word_of(&line[at..at + place]) else {
            return Ok(None);
        };
        words.push(word)?;
        at += place + 1;
    }
    let Some(word) = word_of(&line[at..]) else {
        return Ok(None);
    };
    words.push(word)?;
    Ok(Some(words))
}

/// The node that a line spells, which is without its LF. `None` comes exactly where the line is that of no node.
pub fn node_of(alloc: Global, line: &[u8]) -> Result<Option<Node>, AllocError>
    ensures value { IfOk result (λ node. node ≡ node_of line.now) }
    ensures exact { IfOk result (λ node. ReadsNode line.now node) }
{
    let Some(words) = line_words(alloc, line)? else {
        return Ok(None);
    };
    node_from(alloc, words.as_slice())
}
