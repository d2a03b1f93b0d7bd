ghost use Rattle.std.specs.Prelude.{◌≡◌, ◌&&◌, nat_le, ◌+◌, ◌<◌, ◌≤◌, ◌∷◌, List, length, map, slice_range, Option, None, Some, true, IfOk};
ghost use Rattle.std.specs.Option.{option_map};
ghost use Rattle.std.specs.List.{list_any};
ghost use Rattle.le_layout.specs.Layout.{IsLayout};
ghost use Rattle.le_layout.specs.Words.{tokens_of, text_of};
ghost use Rattle.le_templates.specs.Form.{slot_first, outside, inside, is_word_part, is_spelled, is_reserved, begins_with, has_opening, word_count, has_counts, is_template, template_of};
ghost use Rattle.le_templates.specs.Walks.{ClosesAt};
ghost use Rattle.le_templates.specs.declared.part.Part.TheVariants.{Slot};

use crate::{Part, Parts, Template};
use le_base::{MOST_PHRASE_WORDS, MOST_SLOTS, MOST_TEMPLATE_WORDS, Text};
use le_layout::{ALL_CASES, Layout, NOT_THE_CASE, Span, THE_CASE};
use std::alloc::{AllocError, Global};

/// The template that the tokens of a span spell, or None where they spell none. The error is want of
/// memory.
#[tactic(auto, unfolding(crate::specs::Form::template_of))]
pub(crate) fn template_of(
    alloc: Global,
    layout: &Layout,
    span: Span,
) -> Result<Option<Template>, AllocError>
    requires layout { IsLayout layout.now }
    requires ordered { span.from ≤ span.to }
    requires within { span.to ≤ length layout.now.tokens }
    ensures { IfOk result (λ found. option_map (λ t. t.parts) found ≡ template_of layout.now span) }
{
    let Some(parts) = outside(alloc, layout, span)? else {
        return Ok(None);
    };
    if !is_template(&parts) {
        return Ok(None);
    }
    Ok(Some(Template {
        parts: Parts::from_vec(parts),
    }))
}

// The words and slots that the tokens spell.
fn outside(alloc: Global, layout: &Layout, span: Span) -> Result<Option<Vec<Part>>, AllocError>
    requires layout { IsLayout layout.now }
    requires ordered { span.from ≤ span.to }
    requires within { span.to ≤ length layout.now.tokens }
    ensures { IfOk result (λ found. option_map (λ v. v.items) found ≡ outside layout.now (tokens_of layout.now span)) }
{
    let mut parts = Vec::new(alloc);
    let mut at = span.from;
    while at < span.to {
        let kind = layout.token(at).kind;
        if kind.is_word() {
            parts.push(Part::Word(Text::of(alloc, layout.word(at))?))?;
            at += 1;
        } else if kind.is_star() {
            let Some(end) = slot_end(layout, at + 1, span.to) else {
                return Ok(None);
            };
            parts.push(Part::Slot(layout.spaced(
                alloc,
                Span {
                    from: at + 1,
                    to: end,
                },
            )?))?;
            at = end + 1;
        } else {
            return Ok(None);
        }
    }
    Ok(Some(parts))
}

// The asterisk that closes the slot whose phrase begins at a token, where the phrase has 1 to 12 words.
fn slot_end(layout: &Layout, from: u32, to: u32) -> Option<u32>
    requires ordered { from ≤ to }
    requires within { to ≤ length layout.now.tokens }
    ensures { ClosesAt layout.now from to result }
{
    for end in from..to {
        let kind = layout.token(end).kind;
        if kind.is_star() {
            return if is_phrase_len(end - from) {
                Some(end)
            } else {
                None
            };
        }
        if !kind.is_word() {
            return None;
        }
    }
    None
}

// Whether a phrase may have so many words.
fn is_phrase_len(count: u32) -> bool
    ensures test { result ≡ (nat_le 1 count && nat_le count 12) }
    ensures some { result ≡ true → 0 < count }
{
    1 <= count && count <= MOST_PHRASE_WORDS
}

// Whether words and slots are a template.
#[tactic(auto, unfolding(crate::specs::Form::is_template))]
fn is_template(parts: &[Part]) -> bool
    ensures { result ≡ is_template parts.now }
{
    has_counts(parts) && !has_reserved(parts) && !has_opening(parts)
}

// Whether there are 1 to 40 words outside slots, and at most 8 slots.
fn has_counts(parts: &[Part]) -> bool
    ensures { result ≡ has_counts parts.now }
{
    let words = word_count(parts);
    1 <= words && words <= MOST_TEMPLATE_WORDS && parts.len() <= words + MOST_SLOTS
}

// How many words stand outside slots.
fn word_count(parts: &[Part]) -> usize
    ensures { result ≡ word_count parts.now }
{
    let mut count = 0;
    for part in parts {
        if is_word_part(part) {
            count += 1;
        }
    }
    count
}

// Whether a part is a word.
fn is_word_part(part: &Part) -> bool
    ensures { result ≡ is_word_part part.now }
{
    matches!(part, Part::Word(_))
}

// Whether a part is this word outside slots, ASCII case ignored.
fn is_spelled(part: &Part, word: &str) -> bool
    ensures { result ≡ is_spelled word.now part.now }
{
    match part {
        Part::Word(text) => text.as_str().eq_ignore_ascii_case(word),
        Part::Slot(_) => false,
    }
}

// Whether a part is a word that no template has outside slots.
#[tactic(auto, unfolding(crate::specs::Form::is_reserved))]
fn is_reserved(part: &Part) -> bool
    ensures { result ≡ is_reserved part.now }
{
    is_spelled(part, "if") || is_spelled(part, "each")
}

// Whether a word outside slots is one that no template has there.
fn has_reserved(parts: &[Part]) -> bool
    ensures { result ≡ list_any is_reserved parts.now }
{
    parts.iter().any(|part| is_reserved(part))
}

// Whether the first parts are these words, ASCII case ignored.
fn begins_with(parts: &[Part], words: &[&str]) -> bool
    ensures { result ≡ begins_with parts.now (map (λ w. w.now) words.now) }
{
    for i in 0..words.len() {
        if parts.len() <= i {
            return false;
        }
        if !is_spelled(&parts[i], words[i]) {
            return false;
        }
    }
    true
}

// Whether a template begins with the words of a connective or of an opener.
#[tactic(auto, unfolding(crate::specs::Form::has_opening))]
fn has_opening(parts: &[Part]) -> bool
    ensures { result ≡ has_opening parts.now }
{
    begins_with(parts, &["and"])
        || begins_with(parts, &["or"])
        || begins_with(parts, &NOT_THE_CASE)
        || begins_with(parts, &THE_CASE)
        || begins_with(parts, &ALL_CASES)
}
