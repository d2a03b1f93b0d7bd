ghost use Rattle.std.specs.Prelude.{◌≡◌, ◌+◌, ◌-◌, ◌<◌, ◌≤◌, length, map, IfOk};
ghost use Rattle.std.specs.List.{All};
ghost use Rattle.le_layout.specs.Layout.{IsLayout};
ghost use Rattle.le_layout.specs.Words.{IsSpan, tokens_of};
ghost use Rattle.le_match.specs.Shares.{IsRead, Fits, edge, shares, shares_of};
ghost use Rattle.le_match.specs.Walks.{IsPlace, share_of, total_size};

use crate::Reading;
use crate::marked::is_marked;
use le_layout::{Layout, Span};
use le_templates::{Part, Templates};
use std::alloc::{AllocError, Global};

// Where a part of a template lies in a sentence.
#[derive(Clone, Copy)]
pub(crate) enum Place {
    // A word, and its token.
    Word(u32),
    // A slot, and the tokens of its phrase.
    Slot(Span),
}

// Where the parts of a reading's template lie in the sentence.
pub(crate) fn places(
    alloc: Global,
    layout: &Layout,
    templates: &Templates,
    tokens: Span,
    reading: &Reading,
) -> Result<Vec<Place>, AllocError>
    requires tokens { IsSpan layout.now tokens }
    requires known { reading.now.pred < 20 + length templates.now }
    requires read { IsRead templates.now layout.now (tokens_of layout.now tokens) reading.now }
    ensures exact { IfOk result (λ found. map (share_of layout.now) found.items ≡ shares_of templates.now (tokens_of layout.now tokens) reading.now) }
    ensures within { IfOk result (λ found. All (IsPlace layout.now) found.items) }
    ensures few { IfOk result (λ found. total_size found.items ≤ tokens.to - tokens.from) }
{
    let edge = edge(layout, tokens);
    let parts = templates.get(reading.pred).parts.as_slice();
    let lengths = reading.lengths.as_slice();
    places_of(alloc, layout, parts, lengths, edge, tokens)
}

// How many asterisks stand on each side of a slot.
fn edge(layout: &Layout, tokens: Span) -> u32
    requires tokens { IsSpan layout.now tokens }
    ensures { result ≡ edge (tokens_of layout.now tokens) }
{
    if is_marked(layout, tokens) { 1 } else { 0 }
}

// Where parts lie in the sentence, where slots have these lengths and so many asterisks on each side.
fn places_of(
    alloc: Global,
    layout: &Layout,
    parts: &[Part],
    lengths: &[u32],
    edge: u32,
    tokens: Span,
) -> Result<Vec<Place>, AllocError>
    requires tokens { IsSpan layout.now tokens }
    requires fits { Fits layout.now edge parts.now (tokens_of layout.now tokens) lengths.now }
    ensures exact { IfOk result (λ found. map (share_of layout.now) found.items ≡ shares edge parts.now lengths.now (tokens_of layout.now tokens)) }
    ensures within { IfOk result (λ found. All (IsPlace layout.now) found.items) }
    ensures few { IfOk result (λ found. total_size found.items ≤ tokens.to - tokens.from) }
{
    let mut found = Vec::new(alloc);
    let mut at = tokens.from;
    let mut slot = 0;
    for part in parts {
        match part {
            Part::Word(_) => {
                found.push(Place::Word(at))?;
                at += 1;
            }
            Part::Slot(_) => {
                let from = at + edge;
                let to = from + lengths[slot];
                found.push(Place::Slot(Span { from, to }))?;
                at = to + edge;
                slot += 1;
            }
        }
    }
    Ok(found)
}
