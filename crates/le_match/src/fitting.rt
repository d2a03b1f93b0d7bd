ghost use Rattle.std.specs.Prelude.{◌≡◌, ◌≤◌, ◌<◌, ◌+◌, length, slice_range, IfSome, IfNone};
ghost use Rattle.std.specs.Option.{option_map};
ghost use Rattle.le_layout.specs.Layout.{IsLayout};
ghost use Rattle.le_layout.specs.Words.{IsSpan, tokens_of};
ghost use Rattle.le_match.specs.Walks.{behind_word, behind_part, may_fit};

use le_layout::{Layout, Span};
use le_templates::Part;

// Whether a template's words stand among the tokens of a sentence in order, with a token for each slot.
pub(crate) fn may_fit(layout: &Layout, parts: &[Part], tokens: Span) -> bool
    requires layout { IsLayout layout.now }
    requires tokens { IsSpan layout.now tokens }
    ensures { result ≡ may_fit layout.now parts.now (tokens_of layout.now tokens) }
{
    let mut at = tokens.from;
    for part in parts {
        let Some(next) = behind_part(layout, part, at, tokens.to) else {
            return false;
        };
        at = next;
    }
    true
}

// The place after the token that a part takes: the next one, or the next that is the part's word.
fn behind_part(layout: &Layout, part: &Part, from: u32, to: u32) -> Option<u32>
    requires layout { IsLayout layout.now }
    requires ordered { from ≤ to }
    requires within { to ≤ length layout.now.tokens }
    ensures place { option_map (λ at. slice_range layout.now.tokens at to) result ≡ behind_part layout.now part.now (slice_range layout.now.tokens from to) }
    ensures inside { IfSome result (λ at. at ≤ to) }
{
    match part {
        Part::Word(word) => behind_word(layout, word.as_str(), from, to),
        Part::Slot(_) => { if from < to { Some(from + 1) } else { None } }
    }
}

// The place after the next token that is this word.
fn behind_word(layout: &Layout, word: &str, from: u32, to: u32) -> Option<u32>
    requires layout { IsLayout layout.now }
    requires ordered { from ≤ to }
    requires within { to ≤ length layout.now.tokens }
    ensures place { option_map (λ at. slice_range layout.now.tokens at to) result ≡ behind_word layout.now word.now (slice_range layout.now.tokens from to) }
    ensures inside { IfSome result (λ at. at ≤ to) }
{
    for at in from..to {
        if layout.has_word(at, word) {
            return Some(at + 1);
        }
    }
    None
}
