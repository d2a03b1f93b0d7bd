ghost use Rattle.std.specs.Prelude.{◌≡◌, ℕ, List, ◌+◌, ◌<◌, length, map, IfOk};
ghost use Rattle.std.specs.Str.{bytes_eq};
ghost use Rattle.le_layout.specs.Layout.{IsLayout};
ghost use Rattle.le_match.specs.Readings.{best_of};
ghost use Rattle.le_english.specs.Atoms.{say_text, IsAtomToSay, ReadsBackAs};
ghost use Rattle.le_english.specs.Saying.{is_one, reads_alone};
ghost use Rattle.le_english.specs.Lines.{capped};

use crate::draft::compose;
use le_base::{MOST_TEXT_BYTES, Stop, Text};
use le_layout::{Layout, Span, scan};
use le_match::{BestReading, best};
use le_templates::Templates;
use le_terms::{Atom, Names};
use std::alloc::{AllocError, Global};

/// The sentence of an atom, whose predicate is a template's: the template with each argument's phrase in its
/// slot, joined by one space, except that there is none after `[`, before `]` and before `,`. Where this text
/// has more than 268,435,456 bytes, or its single best reading isn't this template with these slots, the
/// slots stand between asterisks. Phrases are those of `say_term`, and the sentence is one text for its
/// variables. A slot without an argument is left out.
///
/// Where the template is in use, each slot has an argument, and the names hold what a quoted text may hold, the
/// sentence reads back: its single best reading is this template with these slots, and it reads as the atom,
/// its variables numbered by first occurrence. The cost is that of the text, and of one call of `best`.
pub fn say(
    alloc: Global,
    templates: &Templates,
    names: &Names,
    atom: &Atom,
) -> Result<Text, AllocError>
    requires { atom.now.pred < 20 + length templates.now }
    ensures text { IfOk result (λ text. text ≡ say_text templates.now names.now atom.now.pred atom.now.args) }
    ensures reads_back { IsAtomToSay templates.now names.now atom.now.pred atom.now.args → IfOk result (λ text. ReadsBackAs templates.now names.now atom.now.pred atom.now.args text) }
{
    let parts = templates.get(atom.pred).parts.as_slice();
    let args = atom.args.as_slice();
    let plain = compose(alloc, templates, names, parts, args, false)?;
    let text = plain.line.text.as_str();
    if reads_alone(alloc, templates, atom.pred, text, plain.lengths.as_slice())? {
        return Ok(plain.line.text);
    }
    let marked = compose(alloc, templates, names, parts, args, true)?;
    Ok(marked.line.text)
}

// Whether a text's single best reading is the template of this predicate with slots of these lengths.
#[tactic(auto, unfolding(crate::specs::Saying::reads_alone))]
fn reads_alone(
    alloc: Global,
    templates: &Templates,
    pred: u32,
    text: &str,
    lengths: &[usize],
) -> Result<bool, AllocError>
    ensures { (ls : List ℕ) → lengths.now ≡ map capped ls → IfOk result (λ alone. alone ≡ reads_alone templates.now pred ls text.now) }
{
    if MOST_TEXT_BYTES < text.len() {
        return Ok(false);
    }
    match scan(alloc, text.as_bytes()) {
        Ok(layout) => is_read_as(alloc, templates, pred, lengths, &layout),
        Err(Stop::Refused(_)) => Ok(false),
        Err(Stop::Memory) => Err(AllocError),
    }
}

// Whether the tokens of a text have this one best reading.
fn is_read_as(
    alloc: Global,
    templates: &Templates,
    pred: u32,
    lengths: &[usize],
    layout: &Layout,
) -> Result<bool, AllocError>
    requires { IsLayout layout.now }
    ensures { (ls : List ℕ) → lengths.now ≡ map capped ls → IfOk result (λ alone. alone ≡ is_one pred ls (best_of templates.now layout.now layout.now.tokens)) }
{
    let count = layout.tokens.as_slice().len() as u32;
    let tokens = Span { from: 0, to: count };
    match best(alloc, layout, templates, tokens)? {
        BestReading::One(reading) => {
            Ok(reading.pred == pred && are_equal(reading.lengths.as_slice(), lengths))
        }
        _ => Ok(false),
    }
}

// Whether slots have these lengths, which are counted up to the greatest number of 64 bits.
fn are_equal(found: &[u32], lengths: &[usize]) -> bool
    ensures { (ls : List ℕ) → lengths.now ≡ map capped ls → result ≡ bytes_eq found.now ls }
{
    if found.len() != lengths.len() {
        return false;
    }
    for i in 0..found.len() {
        if found[i] as usize != lengths[i] {
            return false;
        }
    }
    true
}
