ghost use Rattle.std.specs.Prelude.{◌≡◌, ◌+◌, ◌≤◌, ◌<◌, ◌∷◌, ◌++◌, [], length, map, take, filter, slice_get, count_by, Some, IfOk, OnOk};
ghost use Rattle.le_layout.specs.Layout.{IsLayout};
ghost use Rattle.le_layout.specs.Words.{IsSpan, tokens_of};
ghost use Rattle.le_templates.specs.Form.{word_count as word_count_of, is_word_part};
ghost use Rattle.le_templates.specs.Table.{table_of};
ghost use Rattle.std.specs.List.{All};
ghost use Rattle.le_templates.specs.Needs.{IsAscending, AreLeft};
ghost use Rattle.le_match.specs.Readings.{best_of, IsInTable, is_marked as is_marked_sentence, ways as ways_of, readings_by, first_two};
ghost use Rattle.le_match.specs.Shares.{IsReadBy};
ghost use Rattle.le_match.specs.Walks.{IsSentence, IsBestOf, readings_before, most_with, readings_with};

use crate::cuts::{Ways, cuts};
use crate::fitting::may_fit;
use crate::marked::{is_marked, marked_cut};
use crate::{BestReading, Lengths, Reading};
use le_layout::{Layout, Span};
use le_scope::{PhraseLengths, phrase_lengths};
use le_templates::{Part, Templates};
use std::alloc::{AllocError, Global};

/// The best readings of a sentence: `None` exactly where it has no reading, and `Two` exactly where it has
/// two or more best readings, with the first two of them. A reading is the predicate of a template in use
/// and a list of slot lengths, such that the sentence's tokens are the template's words (ASCII case
/// ignored) and slots in order, and the tokens of each slot are a phrase. Best are those whose template
/// has most words outside slots; they are ordered by predicate, then by the lengths in dictionary order.
/// In a sentence with an asterisk the parts between asterisks are its slots. The layout is a valid one and
/// has the tokens.
pub fn best(
    alloc: Global,
    layout: &Layout,
    templates: &Templates,
    tokens: Span,
) -> Result<BestReading, AllocError>
    requires layout { IsLayout layout.now }
    requires tokens { IsSpan layout.now tokens }
    ensures exact { IfOk result (λ best. best ≡ best_of templates.now layout.now (tokens_of layout.now tokens)) }
    ensures in_table { IfOk result (λ best. IsInTable templates.now best) }
    ensures read { IfOk result (λ best. IsReadBy templates.now layout.now (tokens_of layout.now tokens) best) }
{
    let sentence = Sentence {
        tokens,
        marked: is_marked(layout, tokens),
        phrases: phrase_lengths(alloc, layout, tokens)?,
    };
    let candidates = templates.candidates(alloc, layout, tokens)?;
    let found = best_among(alloc, layout, templates, &sentence, &candidates)?;
    Ok(one_or_two(found.readings))
}

// The tokens of a sentence, with what is found once for all templates: whether it has an asterisk, and the
// lengths of the phrases at each token.
#[derive(Drop)]
pub(crate) struct Sentence {
    tokens: Span,
    marked: bool,
    phrases: Vec<PhraseLengths>,
}

// The best readings so far, of which at most two are kept, and how many words their template has.
#[derive(Drop)]
pub(crate) struct Found {
    most: usize,
    readings: Vec<Reading>,
}

// The best readings, where each template that isn't among the candidates lacks a word.
fn best_among(
    alloc: Global,
    layout: &Layout,
    templates: &Templates,
    sentence: &Sentence,
    candidates: &[u32],
) -> Result<Found, AllocError>
    requires layout { IsLayout layout.now }
    requires sentence { IsSentence layout.now sentence.now }
    requires order { IsAscending candidates.now }
    requires known { All (λ pred. pred < 20 + length templates.now) candidates.now }
    requires complete { AreLeft templates.now layout.now (tokens_of layout.now sentence.now.tokens) candidates.now 0 0 }
    ensures { IfOk result (λ found. IsBestOf templates.now (readings_before templates.now layout.now (tokens_of layout.now sentence.now.tokens) (20 + length templates.now)) found) }
{
    let mut found = Found {
        most: 0,
        readings: Vec::new(alloc),
    };
    let count = 20 + templates.users();
    let mut next = 0;
    for i in 0..candidates.len() {
        let pred = candidates[i];
        if next <= pred && pred < count {
            consider(alloc, layout, templates, sentence, pred, &mut found)?;
            next = pred + 1;
        }
    }
    Ok(found)
}

// Adds the readings by one more template, where they are among the best.
fn consider(
    alloc: Global,
    layout: &Layout,
    templates: &Templates,
    sentence: &Sentence,
    pred: u32,
    found: &mut Found,
) -> Result<(), AllocError>
    requires layout { IsLayout layout.now }
    requires sentence { IsSentence layout.now sentence.now }
    requires pred { pred < 20 + length templates.now }
    requires found { IsBestOf templates.now (readings_before templates.now layout.now (tokens_of layout.now sentence.now.tokens) pred) found.old }
    ensures { OnOk result (IsBestOf templates.now (readings_before templates.now layout.now (tokens_of layout.now sentence.now.tokens) (pred + 1)) found.new) }
{
    if !templates.in_use(pred) {
        return Ok(());
    }
    let parts = templates.get(pred).parts.as_slice();
    let words = word_count(parts);
    if words < found.most {
        return Ok(());
    }
    let ways = ways(alloc, layout, sentence, parts)?;
    add(alloc, found, pred, words, ways.as_slice())
}

// The first two ways to share the tokens of a sentence out among a template's words and slots.
fn ways(
    alloc: Global,
    layout: &Layout,
    sentence: &Sentence,
    parts: &[Part],
) -> Result<Ways, AllocError>
    requires layout { IsLayout layout.now }
    requires sentence { IsSentence layout.now sentence.now }
    ensures { IfOk result (λ found. found ≡ take 2 (ways_of layout.now parts.now (tokens_of layout.now sentence.now.tokens))) }
{
    if sentence.marked {
        return marked_cut(alloc, layout, parts, sentence.tokens);
    }
    if !may_fit(layout, parts, sentence.tokens) {
        return Ok(Ways::from_vec(Vec::new(alloc)));
    }
    let phrases = sentence.phrases.as_slice();
    cuts(alloc, layout, phrases, parts, sentence.tokens)
}

// Adds readings by a template with no fewer words than those so far. Where it has more, those so far go.
fn add(
    alloc: Global,
    found: &mut Found,
    pred: u32,
    words: usize,
    ways: &[Lengths],
) -> Result<(), AllocError>
    requires few { length found.old.readings.items ≤ 2 }
    requires many { found.old.most ≤ words }
    ensures most { OnOk result (found.new.most ≡ most_with words ways.now found.old.most) }
    ensures readings { OnOk result (found.new.readings.items ≡ readings_with pred words ways.now found.old.most found.old.readings.items) }
{
    if ways.is_empty() {
        return Ok(());
    }
    if found.most < words {
        found.most = words;
        found.readings.clear();
    }
    push_readings(alloc, &mut found.readings, pred, ways)
}

// Adds readings by a template, up to two in all.
fn push_readings(
    alloc: Global,
    readings: &mut Vec<Reading>,
    pred: u32,
    ways: &[Lengths],
) -> Result<(), AllocError>
    requires { length readings.old.items ≤ 2 }
    ensures { OnOk result (readings.new.items ≡ take 2 (readings.old.items ++ readings_by pred ways.now)) }
{
    for lengths in ways {
        if readings.len() < 2 {
            let lengths = Lengths::from_vec(Vec::from_slice(alloc, lengths.as_slice())?);
            readings.push(Reading { pred, lengths })?;
        }
    }
    Ok(())
}

// The readings, of which there are at most two.
fn one_or_two(mut readings: Vec<Reading>) -> BestReading
    requires { length readings.items ≤ 2 }
    ensures { result ≡ first_two readings.items }
{
    let Some(last) = readings.pop() else {
        return BestReading::None;
    };
    match readings.pop() {
        Some(first) => BestReading::Two(first, last),
        None => BestReading::One(last),
    }
}

// How many words a template has outside slots.
fn word_count(parts: &[Part]) -> usize
    ensures { result ≡ word_count_of parts.now }
{
    let mut count = 0;
    for part in parts {
        if is_word_part(part) {
            count += 1;
        }
    }
    count
}

// Whether a part is a word.
fn is_word_part(part: &Part) -> bool
    ensures { result ≡ is_word_part part.now }
{
    matches!(part, Part::Word(_))
}
