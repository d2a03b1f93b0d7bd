ghost use Rattle.std.specs.Prelude.{◌≡◌, ◌+◌, ◌≤◌, ◌<◌, length, slice_range, IfOk, IfSome};
ghost use Rattle.std.specs.List.{list_any};
ghost use Rattle.std.specs.Option.{option_to_list};
ghost use Rattle.le_layout.specs.Layout.{IsLayout};
ghost use Rattle.le_layout.specs.Words.{IsSpan, tokens_of};
ghost use Rattle.le_match.specs.Readings.{is_marked, until_star, marked_length as marked_length_of, marked_cuts};
ghost use Rattle.le_match.specs.Walks.{taken_by, taken_count};

use crate::Lengths;
use crate::cuts::Ways;
use le_layout::{Layout, Span};
use le_scope::shape;
use le_templates::Part;
use std::alloc::{AllocError, Global};

// Whether a sentence has an asterisk.
pub(crate) fn is_marked(layout: &Layout, tokens: Span) -> bool
    requires tokens { IsSpan layout.now tokens }
    ensures { result ≡ is_marked (tokens_of layout.now tokens) }
{
    let tokens = &layout.tokens.as_slice()[tokens.from as usize..tokens.to as usize];
    tokens.iter().any(|token| token.kind.is_star())
}

// The one way to share the tokens of a marked sentence out among a template's words and slots, or none.
pub(crate) fn marked_cut(
    alloc: Global,
    layout: &Layout,
    parts: &[Part],
    tokens: Span,
) -> Result<Ways, AllocError>
    requires layout { IsLayout layout.now }
    requires tokens { IsSpan layout.now tokens }
    ensures { IfOk result (λ found. found ≡ marked_cuts layout.now parts.now (tokens_of layout.now tokens)) }
{
    let mut lengths = Vec::new(alloc);
    let mut at = tokens.from;
    for part in parts {
        let rest = Span {
            from: at,
            to: tokens.to,
        };
        match marked_part(alloc, layout, part, rest)? {
            Taken::Nothing => return Ok(Ways::from_vec(Vec::new(alloc))),
            Taken::Word => at += 1,
            Taken::Slot(n) => {
                lengths.push(n)?;
                at += n + 2;
            }
        }
    }
    let mut ways = Vec::new(alloc);
    if at == tokens.to {
        ways.push(Lengths::from_vec(lengths))?;
    }
    Ok(Ways::from_vec(ways))
}

// What a part takes of the tokens of a marked sentence.
#[derive(Clone, Copy)]
pub(crate) enum Taken {
    // The next tokens aren't the part's.
    Nothing,
    // One token, which is the part's word.
    Word,
    // An asterisk, so many tokens and an asterisk.
    Slot(u32),
}

// What a part takes of the next tokens of a marked sentence.
fn marked_part(
    alloc: Global,
    layout: &Layout,
    part: &Part,
    tokens: Span,
) -> Result<Taken, AllocError>
    requires layout { IsLayout layout.now }
    requires tokens { IsSpan layout.now tokens }
    ensures exact { IfOk result (λ taken. taken ≡ taken_by layout.now part.now (tokens_of layout.now tokens)) }
    ensures inside { IfOk result (λ taken. tokens.from + taken_count taken ≤ tokens.to) }
{
    match part {
        Part::Word(word) => {
            if tokens.from < tokens.to && layout.has_word(tokens.from, word.as_str()) {
                Ok(Taken::Word)
            } else {
                Ok(Taken::Nothing)
            }
        }
        Part::Slot(_) => match marked_length(alloc, layout, tokens)? {
            Some(n) => Ok(Taken::Slot(n)),
            None => Ok(Taken::Nothing),
        },
    }
}

// How many tokens stand between the asterisk at the front and the next one, where they are a phrase.
fn marked_length(alloc: Global, layout: &Layout, tokens: Span) -> Result<Option<u32>, AllocError>
    requires layout { IsLayout layout.now }
    requires tokens { IsSpan layout.now tokens }
    ensures exact { IfOk result (λ found. found ≡ marked_length_of layout.now (tokens_of layout.now tokens)) }
    ensures inside { IfOk result (λ found. IfSome found (λ n. tokens.from + n + 2 ≤ tokens.to)) }
{
    if tokens.from == tokens.to || !layout.token(tokens.from).kind.is_star() {
        return Ok(None);
    }
    let from = tokens.from + 1;
    let end = until_star(layout, from, tokens.to);
    if end == tokens.to {
        return Ok(None);
    }
    if shape(alloc, layout, Span { from, to: end })?.is_some() {
        return Ok(Some(end - from));
    }
    Ok(None)
}

// The next asterisk, or the end.
fn until_star(layout: &Layout, from: u32, to: u32) -> u32
    requires ordered { from ≤ to }
    requires within { to ≤ length layout.now.tokens }
    ensures exact { result ≡ from + until_star (slice_range layout.now.tokens from to) }
    ensures inside { result ≤ to }
{
    for at in from..to {
        if layout.token(at).kind.is_star() {
            return at;
        }
    }
    to
}
