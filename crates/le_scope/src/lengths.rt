ghost use Rattle.std.specs.Prelude.{◌≡◌, ◌+◌, ◌<◌, ◌≤◌, length, min, slice_range, IfOk};
ghost use Rattle.le_layout.specs.Layout.{IsLayout};
ghost use Rattle.le_layout.specs.Words.{IsSpan, tokens_of, token_of};
ghost use Rattle.le_scope.specs.Simple.{is_plain};
ghost use Rattle.le_scope.specs.Lists.{first_row};
ghost use Rattle.le_scope.specs.Lengths.{plain_run, is_length, most_words, simple_lengths as lengths_of, phrase_lengths as all_lengths, lengths_from};

use crate::lists::{ListLengths, count_at, is_open, row_at};
use crate::phrase::{article, begins_with, is_determiner, is_plain};
use le_base::MOST_PHRASE_WORDS;
use le_layout::{Layout, NOT_THE_CASE, Span, THE_CASE};
use std::alloc::{AllocError, Global};

/// The lengths of the phrases that begin at one token: each number from the least to the greatest, and
/// none where the greatest is less than the least.
#[derive(Clone, Copy, Debug, PartialEq, Eq)]
pub struct PhraseLengths {
    /// The least length, in tokens.
    pub least: u32,
    /// The greatest length, in tokens.
    pub most: u32,
}

/// At each of some tokens the lengths of the phrases that begin there and end among them. The tokens are
/// walked over once, from the last to the first. At an opening bracket this is the length of the list
/// there alone.
pub fn phrase_lengths(
    alloc: Global,
    layout: &Layout,
    tokens: Span,
) -> Result<Vec<PhraseLengths>, AllocError>
    requires layout { IsLayout layout.now }
    requires tokens { IsSpan layout.now tokens }
    ensures { IfOk result (λ found. found.items ≡ lengths_from layout.now (tokens_of layout.now tokens)) }
{
    let mut found = Vec::new(alloc);
    let mut rows: Vec<ListLengths> = Vec::new(alloc);
    let mut run = 0;
    let mut count = 0;
    for taken in 0..tokens.to - tokens.from {
        let at = tokens.to - 1 - taken;
        let simple = simple_lengths(layout, at, tokens.to, run);
        count = count_at(layout, at, tokens.to, count);
        let row = row_at(layout, at, tokens.to, simple, count, rows.as_slice());
        rows.push(row)?;
        found.push(lengths_at(layout, at, tokens.to, simple, row.phrase))?;
        run = run_at(layout, at, tokens.to, run);
    }
    found.reverse();
    Ok(found)
}

// The lengths of the phrases at a token, where these are those without brackets, and the list there has so
// many tokens.
fn lengths_at(layout: &Layout, at: u32, to: u32, simple: PhraseLengths, count: u32) -> PhraseLengths
    requires ordered { at < to }
    requires within { to ≤ length layout.now.tokens }
    requires simple { simple ≡ lengths_of layout.now (slice_range layout.now.tokens at to) }
    requires count { count ≡ (first_row layout.now (slice_range layout.now.tokens at to)).phrase }
    ensures { result ≡ all_lengths layout.now (slice_range layout.now.tokens at to) }
{
    if !is_open(layout.token(at).kind) {
        return simple;
    }
    if count == 0 {
        lengths(1, 0)
    } else {
        lengths(count, count)
    }
}

// How many plain words stand at a token and after it, where so many stand after it.
fn run_at(layout: &Layout, at: u32, to: u32, run: u32) -> u32
    requires layout { IsLayout layout.now }
    requires ordered { at < to }
    requires within { to ≤ length layout.now.tokens }
    requires run { run ≡ plain_run layout.now (slice_range layout.now.tokens (at + 1) to) }
    ensures { result ≡ plain_run layout.now (slice_range layout.now.tokens at to) }
{
    if is_plain(layout, at) { run + 1 } else { 0 }
}

// The lengths of the phrases without brackets at a token, where so many plain words stand after it.
fn simple_lengths(layout: &Layout, at: u32, to: u32, run: u32) -> PhraseLengths
    requires layout { IsLayout layout.now }
    requires ordered { at < to }
    requires within { to ≤ length layout.now.tokens }
    requires run { run ≡ plain_run layout.now (slice_range layout.now.tokens (at + 1) to) }
    ensures { result ≡ lengths_of layout.now (slice_range layout.now.tokens at to) }
{
    if layout.token(at).kind.is_quote() {
        return lengths(1, 1);
    }
    if article(layout, at).is_some() {
        return lengths(2, least_of(MOST_PHRASE_WORDS, run) + 1);
    }
    if is_determiner(layout, at) {
        return lengths(1, 0);
    }
    let words = run_at(layout, at, to, run);
    lengths(1, least_of(most_words(layout, at, to), words))
}

// Whether a number is one of the lengths.
pub(crate) fn is_length(lengths: PhraseLengths, count: u32) -> bool
    ensures { result ≡ is_length lengths count }
{
    lengths.least <= count && count <= lengths.most
}

// The lengths from one number to another.
fn lengths(least: u32, most: u32) -> PhraseLengths
    ensures { result ≡ record { least = least; most = most } }
{
    PhraseLengths { least, most }
}

// The smaller of two numbers.
fn least_of(a: u32, b: u32) -> u32
    ensures { result ≡ min a b }
{
    if a < b { a } else { b }
}

// How many words a constant at a token has at most.
fn most_words(layout: &Layout, at: u32, to: u32) -> u32
    requires layout { IsLayout layout.now }
    requires ordered { at < to }
    requires within { to ≤ length layout.now.tokens }
    ensures exact { result ≡ most_words layout.now (slice_range layout.now.tokens at to) }
{
    let tokens = Span { from: at, to };
    if begins_with(layout, tokens, &THE_CASE) {
        4
    } else if begins_with(layout, tokens, &NOT_THE_CASE) {
        5
    } else {
        MOST_PHRASE_WORDS
    }
}
