ghost use Rattle.std.specs.Prelude.{◌≡◌, ◌+◌, ◌-◌, ◌<◌, ◌≤◌, [], ◌∷◌, ◌++◌, ℕ, length, min, if◌then◌else◌, take, drop, slice_index_or, slice_range, IfOk, OnOk};
ghost use Rattle.le_layout.specs.Layout.{IsLayout};
ghost use Rattle.le_layout.specs.Words.{IsSpan, tokens_of, has_word as has_word_of};
ghost use Rattle.le_scope.specs.Lengths.{lengths_from};
ghost use Rattle.le_match.specs.Readings.{cuts as cuts_of};
ghost use Rattle.le_match.specs.Counts.{counts_of, total, IsTableOf, IsChosen, IsWayOn, is_slot};

use crate::Lengths;
use le_base::List;
use le_layout::{Layout, Span};
use le_scope::PhraseLengths;
use le_templates::Part;
use std::alloc::{AllocError, Global};

// Some ways to share tokens out among words and slots, each as the lengths of its slots.
pub(crate) type Ways = List<Lengths>;

// At each place of a sentence how many ways there are from it on, of which two are counted at most.
pub(crate) type Counts = List<u8>;

// The first two ways to share the tokens of a sentence out among a template's words and slots, where the
// lengths of phrases at each token are known. First the ways from each place on are counted up to two, from
// the last part to the first; then the first ways are read off, without trying others. It takes time in
// proportion to the parts times the tokens.
pub(crate) fn cuts(
    alloc: Global,
    layout: &Layout,
    phrases: &[PhraseLengths],
    parts: &[Part],
    tokens: Span,
) -> Result<Ways, AllocError>
    requires layout { IsLayout layout.now }
    requires tokens { IsSpan layout.now tokens }
    requires phrases { phrases.now ≡ lengths_from layout.now (tokens_of layout.now tokens) }
    ensures { IfOk result (λ found. found ≡ take 2 (cuts_of layout.now parts.now (tokens_of layout.now tokens))) }
{
    let rows = table(alloc, layout, phrases, parts, tokens)?;
    let count = rows[parts.len()].as_slice()[0];
    let mut found = Vec::new(alloc);
    for rank in 0..count {
        found.push(way(alloc, layout, phrases, parts, tokens, &rows, rank)?)?;
    }
    Ok(Ways::from_vec(found))
}

// The counts for the parts from each place on, from the last, where no part is left, to the first.
fn table(
    alloc: Global,
    layout: &Layout,
    phrases: &[PhraseLengths],
    parts: &[Part],
    tokens: Span,
) -> Result<Vec<Counts>, AllocError>
    requires layout { IsLayout layout.now }
    requires tokens { IsSpan layout.now tokens }
    requires phrases { phrases.now ≡ lengths_from layout.now (tokens_of layout.now tokens) }
    ensures length { IfOk result (λ rows. length rows.items ≡ length parts.now + 1) }
    ensures rows { IfOk result (λ rows. IsTableOf layout.now parts.now (tokens_of layout.now tokens) 0 rows.items) }
{
    let mut rows = Vec::new(alloc);
    rows.push(last_row(alloc, layout, tokens)?)?;
    for taken in 0..parts.len() {
        let place = parts.len() - 1 - taken;
        let row = row_above(
            alloc,
            layout,
            phrases,
            parts,
            place,
            tokens,
            rows[taken].as_slice(),
        )?;
        rows.push(row)?;
    }
    Ok(rows)
}

// The counts where no part is left.
fn last_row(alloc: Global, layout: &Layout, tokens: Span) -> Result<Counts, AllocError>
    requires tokens { IsSpan layout.now tokens }
    ensures { IfOk result (λ row. row ≡ counts_of layout.now [] (tokens_of layout.now tokens)) }
{
    let mut row = Vec::new(alloc);
    for _at in tokens.from..tokens.to {
        row.push(0)?;
    }
    row.push(1)?;
    Ok(Counts::from_vec(row))
}

// The counts for the parts from a place on, from those for the parts after it.
fn row_above(
    alloc: Global,
    layout: &Layout,
    phrases: &[PhraseLengths],
    parts: &[Part],
    place: usize,
    tokens: Span,
    below: &[u8],
) -> Result<Counts, AllocError>
    requires layout { IsLayout layout.now }
    requires tokens { IsSpan layout.now tokens }
    requires phrases { phrases.now ≡ lengths_from layout.now (tokens_of layout.now tokens) }
    requires place { place < length parts.now }
    requires below { below.now ≡ counts_of layout.now (drop (place + 1) parts.now) (tokens_of layout.now tokens) }
    ensures { IfOk result (λ row. row ≡ counts_of layout.now (drop place parts.now) (tokens_of layout.now tokens)) }
{
    let mut row = Vec::new(alloc);
    for at in tokens.from..tokens.to {
        row.push(count_at(layout, phrases, parts, place, tokens, at, below))?;
    }
    row.push(0)?;
    Ok(Counts::from_vec(row))
}

// The count at a place for the parts from one on, from the counts for the parts after it.
fn count_at(
    layout: &Layout,
    phrases: &[PhraseLengths],
    parts: &[Part],
    place: usize,
    tokens: Span,
    at: u32,
    below: &[u8],
) -> u8
    requires layout { IsLayout layout.now }
    requires tokens { IsSpan layout.now tokens }
    requires phrases { phrases.now ≡ lengths_from layout.now (tokens_of layout.now tokens) }
    requires place { place < length parts.now }
    requires below { below.now ≡ counts_of layout.now (drop (place + 1) parts.now) (tokens_of layout.now tokens) }
    requires low { tokens.from ≤ at }
    requires high { at < tokens.to }
    ensures { result ≡ min 2 (length (cuts_of layout.now (drop place parts.now) (slice_range layout.now.tokens at tokens.to))) }
{
    let k = (at - tokens.from) as usize;
    match &parts[place] {
        Part::Word(word) => word_count(layout, at, word.as_str(), below[k + 1]),
        Part::Slot(_) => slot_count(phrases[k], below, k),
    }
}

// The count where the next part is a word: that after the token that is this word.
fn word_count(layout: &Layout, at: u32, word: &str, after: u8) -> u8
    requires layout { IsLayout layout.now }
    requires inside { at < length layout.now.tokens }
    ensures { result ≡ (if has_word_of layout.now at word.now then after else 0) }
{
    if layout.has_word(at, word) { after } else { 0 }
}

// The count where the next part is a slot: that of all lengths together.
fn slot_count(lengths: PhraseLengths, below: &[u8], k: usize) -> u8
    requires inside { k + lengths.most < length below.now }
    ensures { result ≡ min 2 (total below.now (k + lengths.least) (lengths.most + 1 - lengths.least)) }
{
    count(
        below,
        k + lengths.least as usize,
        k + lengths.most as usize + 1,
    )
}

// The sum of the counts from one place to another, up to two.
fn count(below: &[u8], from: usize, to: usize) -> u8
    requires inside { to ≤ length below.now }
    ensures { result ≡ min 2 (total below.now from (to - from)) }
{
    let mut count: u32 = 0;
    for at in from..to {
        count += below[at] as u32;
        if 2 <= count {
            return 2;
        }
    }
    count as u8
}

// The way of this rank, counted from 0, in the order of all ways.
fn way(
    alloc: Global,
    layout: &Layout,
    phrases: &[PhraseLengths],
    parts: &[Part],
    tokens: Span,
    rows: &[Counts],
    rank: u8,
) -> Result<Lengths, AllocError>
    requires layout { IsLayout layout.now }
    requires tokens { IsSpan layout.now tokens }
    requires phrases { phrases.now ≡ lengths_from layout.now (tokens_of layout.now tokens) }
    requires rows { IsTableOf layout.now parts.now (tokens_of layout.now tokens) 0 rows.now }
    requires height { length rows.now ≡ length parts.now + 1 }
    requires rank { rank < min 2 (length (cuts_of layout.now parts.now (tokens_of layout.now tokens))) }
    ensures { IfOk result (λ found. found ≡ slice_index_or (cuts_of layout.now parts.now (tokens_of layout.now tokens)) rank []) }
{
    let mut lengths = Vec::new(alloc);
    let mut k = 0;
    let mut rank = rank;
    for place in 0..parts.len() {
        let below = rows[parts.len() - 1 - place].as_slice();
        let part = &parts[place];
        let step = part_taken(layout, phrases, parts, place, tokens, below, k, rank);
        if is_slot(part) {
            lengths.push(step.taken)?;
        }
        k += step.taken as usize;
        rank = step.rank;
    }
    Ok(Lengths::from_vec(lengths))
}

// Whether a part is a slot.
fn is_slot(part: &Part) -> bool
    ensures { result ≡ is_slot part.now }
{
    matches!(part, Part::Slot(_))
}

// How many tokens a part takes in the way of a rank, and the rank of that way among those that go on so.
#[derive(Clone, Copy)]
pub(crate) struct Step {
    taken: u32,
    rank: u8,
}

// What a part takes in the way of this rank from a place on.
fn part_taken(
    layout: &Layout,
    phrases: &[PhraseLengths],
    parts: &[Part],
    place: usize,
    tokens: Span,
    below: &[u8],
    k: usize,
    rank: u8,
) -> Step
    requires layout { IsLayout layout.now }
    requires tokens { IsSpan layout.now tokens }
    requires phrases { phrases.now ≡ lengths_from layout.now (tokens_of layout.now tokens) }
    requires place { place < length parts.now }
    requires below { below.now ≡ counts_of layout.now (drop (place + 1) parts.now) (tokens_of layout.now tokens) }
    requires k { k ≤ tokens.to - tokens.from }
    requires rank { rank < min 2 (length (cuts_of layout.now (drop place parts.now) (drop k (tokens_of layout.now tokens)))) }
    ensures { IsWayOn layout.now parts.now place (tokens_of layout.now tokens) k rank result }
{
    match &parts[place] {
        Part::Word(_) => Step { taken: 1, rank },
        Part::Slot(_) => {
            let lengths = phrases[k];
            let from = k + lengths.least as usize;
            let chosen = choose(below, from, k + lengths.most as usize + 1, rank);
            Step {
                taken: lengths.least + (chosen.at - from) as u32,
                rank: chosen.rank,
            }
        }
    }
}

// A place, and the rank of a way among those from it on.
#[derive(Clone, Copy)]
pub(crate) struct Chosen {
    at: usize,
    rank: u8,
}

// The place from which the way of this rank goes on, where the ways from each place stand one after another.
fn choose(below: &[u8], from: usize, to: usize, rank: u8) -> Chosen
    requires inside { to ≤ length below.now }
    requires some { rank < total below.now from (to - from) }
    ensures { IsChosen below.now from to rank result }
{
    let mut left = rank;
    for at in from..to {
        if left < below[at] {
            return Chosen { at, rank: left };
        }
        left -= below[at];
    }
    Chosen { at: from, rank: 0 }
}
