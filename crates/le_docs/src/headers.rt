ghost use Rattle.std.specs.Prelude.{◌≡◌, ◌+◌, ◌<◌, ◌≤◌, length, None, All, IfOk, IfSome};
ghost use Rattle.le_layout.specs.Layout.{IsLayout, IsLineOver};
ghost use Rattle.le_docs.specs.Bounds.{IsHeadOver};
ghost use Rattle.le_docs.specs.Faults.{least_from};
ghost use Rattle.le_docs.specs.Headers.{first_colon as first_colon_of, all_words as all_words_of, is_target as is_target_of, is_templates as is_templates_of, opens_knowledge as opens_knowledge_of, is_knowledge as is_knowledge_of, is_named as is_named_of, head_in as head_in_of, head_of as head_of_line, IsHeadIn, heads_of, line_faults, lines_faults, first_faults};

use crate::SectionKind;
use crate::faults::sooner;
use le_base::Code;
use le_layout::{Fault, Layout, Line, Span};
use std::alloc::{AllocError, Global};

/// A header.
#[derive(Clone, Copy, Debug)]
pub struct Head {
    /// What its section holds.
    pub kind: SectionKind,
    /// Its first token, counted from 0.
    pub at: u32,
    /// The tokens of its name.
    pub name: Span,
    /// The place after its colon.
    pub body: u32,
}

/// The headers of a layout, in order, and the fault among its lines that decides.
#[derive(Drop)]
pub struct Headers {
    /// The headers.
    pub heads: Vec<Head>,
    /// The fault, where there is one.
    pub least: Option<Fault>,
}

/// The headers of a layout, and the faults of its lines.
pub fn find_headers(alloc: Global, layout: &Layout) -> Result<Headers, AllocError>
    requires layout { IsLayout layout.now }
    ensures heads { IfOk result (λ found. found.heads.items ≡ heads_of layout.now layout.now.lines) }
    ensures within { IfOk result (λ found. All (IsHeadOver (length layout.now.tokens)) found.heads.items) }
    ensures least { IfOk result (λ found. found.least ≡ least_from (least_from None (first_faults layout.now layout.now.lines)) (lines_faults layout.now layout.now.lines)) }
{
    let mut heads = Vec::new(alloc);
    let mut least = first_fault(layout);
    for line in layout.lines.as_slice() {
        let head = head_of(layout, *line);
        least = with_line_fault(layout, *line, head, least);
        if let Some(head) = head {
            heads.push(head)?;
        }
    }
    Ok(Headers { heads, least })
}

/// The fault of a first line that is no header, where there is one.
fn first_fault(layout: &Layout) -> Option<Fault>
    requires layout { IsLayout layout.now }
    ensures { result ≡ least_from None (first_faults layout.now layout.now.lines) }
{
    let lines = layout.lines.as_slice();
    if lines.is_empty() {
        return None;
    }
    let line = lines[0];
    if head_of(layout, line).is_some() {
        return None;
    }
    Some(Fault::at(Code::UnknownHeader, line.from))
}

/// The fault that decides, where a line has a colon that ends no header.
fn with_line_fault(
    layout: &Layout,
    line: Line,
    head: Option<Head>,
    least: Option<Fault>,
) -> Option<Fault>
    requires layout { IsLayout layout.now }
    requires line { IsLineOver (length layout.now.tokens) line }
    requires head { IfSome head (IsHeadIn line) }
    ensures { result ≡ least_from least (line_faults layout.now line head) }
{
    let from = match head {
        Some(head) => head.body,
        None => line.from,
    };
    if first_colon(layout, from, line.to) < line.to {
        return sooner(least, Fault::at(Code::UnknownHeader, line.from));
    }
    least
}

/// The header at the front of a line, where there is one.
fn head_of(layout: &Layout, line: Line) -> Option<Head>
    requires layout { IsLayout layout.now }
    requires line { IsLineOver (length layout.now.tokens) line }
    ensures exact { result ≡ head_of_line layout.now line }
    ensures within { IfSome result (IsHeadIn line) }
{
    let colon = first_colon(layout, line.from, line.to);
    if colon < line.to {
        return head_in(layout, line.from, colon);
    }
    None
}

/// The header that these tokens are, which stand before a colon.
#[tactic(auto, unfolding(crate::specs::Headers::head_in))]
fn head_in(layout: &Layout, from: u32, colon: u32) -> Option<Head>
    requires layout { IsLayout layout.now }
    requires ordered { from ≤ colon }
    requires inside { colon < length layout.now.tokens }
    ensures exact { result ≡ head_in_of layout.now from colon }
    ensures within { IfSome result (λ head. (head.at ≡ from) × (head.name.to ≤ colon) × (head.body ≡ colon + 1)) }
{
    let (kind, first, last) = if is_target(layout, from, colon) {
        (SectionKind::Target, from, from)
    } else if is_templates(layout, from, colon) {
        (SectionKind::Templates, from, from)
    } else if is_knowledge(layout, from, colon) {
        (SectionKind::Knowledge, from + 3, colon.saturating_sub(1))
    } else if is_named(layout, "scenario", from, colon) {
        (SectionKind::Scenario, from + 1, colon.saturating_sub(1))
    } else if is_named(layout, "query", from, colon) {
        (SectionKind::Query, from + 1, colon.saturating_sub(1))
    } else {
        return None;
    };
    Some(Head {
        kind,
        at: from,
        name: Span {
            from: first,
            to: last,
        },
        body: colon + 1,
    })
}

/// Whether these tokens are `the target language is`.
#[tactic(auto, unfolding(crate::specs::Headers::is_target))]
fn is_target(layout: &Layout, from: u32, to: u32) -> bool
    requires layout { IsLayout layout.now }
    requires ordered { from ≤ to }
    requires inside { to ≤ length layout.now.tokens }
    ensures { result ≡ is_target_of layout.now from to }
{
    to - from == 4
        && layout.has_word(from, "the")
        && layout.has_word(from + 1, "target")
        && layout.has_word(from + 2, "language")
        && layout.has_word(from + 3, "is")
}

/// Whether these tokens are `the templates are`.
#[tactic(auto, unfolding(crate::specs::Headers::is_templates))]
fn is_templates(layout: &Layout, from: u32, to: u32) -> bool
    requires layout { IsLayout layout.now }
    requires ordered { from ≤ to }
    requires inside { to ≤ length layout.now.tokens }
    ensures { result ≡ is_templates_of layout.now from to }
{
    to - from == 3
        && layout.has_word(from, "the")
        && layout.has_word(from + 1, "templates")
        && layout.has_word(from + 2, "are")
}

/// Whether these tokens are `the knowledge base`, a name or none, and `includes`.
#[tactic(auto, unfolding(crate::specs::Headers::is_knowledge))]
fn is_knowledge(layout: &Layout, from: u32, to: u32) -> bool
    requires layout { IsLayout layout.now }
    requires ordered { from ≤ to }
    requires inside { to ≤ length layout.now.tokens }
    ensures { result ≡ is_knowledge_of layout.now from to }
{
    4 <= to - from
        && to - from <= 16
        && opens_knowledge(layout, from)
        && layout.has_word(to - 1, "includes")
        && all_words(layout, from + 3, to - 1)
}

/// Whether `the knowledge base` stands at a token.
#[tactic(auto, unfolding(crate::specs::Headers::opens_knowledge))]
fn opens_knowledge(layout: &Layout, from: u32) -> bool
    requires layout { IsLayout layout.now }
    requires inside { from + 3 ≤ length layout.now.tokens }
    ensures { result ≡ opens_knowledge_of layout.now from }
{
    layout.has_word(from, "the")
        && layout.has_word(from + 1, "knowledge")
        && layout.has_word(from + 2, "base")
}

/// Whether these tokens are this word, a name and `is`.
#[tactic(auto, unfolding(crate::specs::Headers::is_named))]
fn is_named(layout: &Layout, word: &str, from: u32, to: u32) -> bool
    requires layout { IsLayout layout.now }
    requires ordered { from ≤ to }
    requires inside { to ≤ length layout.now.tokens }
    ensures { result ≡ is_named_of layout.now word.now from to }
{
    3 <= to - from
        && to - from <= 14
        && layout.has_word(from, word)
        && layout.has_word(to - 1, "is")
        && all_words(layout, from + 1, to - 1)
}

/// Whether all of these tokens are words.
fn all_words(layout: &Layout, from: u32, to: u32) -> bool
    requires inside { to ≤ length layout.now.tokens }
    ensures { result ≡ all_words_of layout.now from to }
{
    for k in from..to {
        if !layout.token(k).kind.is_word() {
            return false;
        }
    }
    true
}

/// The first colon among these tokens, or their end.
fn first_colon(layout: &Layout, from: u32, to: u32) -> u32
    requires ordered { from ≤ to }
    requires inside { to ≤ length layout.now.tokens }
    ensures exact { result ≡ first_colon_of layout.now from to }
    ensures low { from ≤ result }
    ensures high { result ≤ to }
{
    for k in from..to {
        if layout.token(k).kind.is_colon() {
            return k;
        }
    }
    to
}
