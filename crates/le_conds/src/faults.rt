ghost use Rattle.std.specs.Prelude.{◌≡◌, ◌≤◌, length, All, Some};
ghost use Rattle.le_layout.specs.Layout.{IsLayout};
ghost use Rattle.le_conds.specs.Bounds.{IsEntryOver};
ghost use Rattle.le_conds.specs.Members.{is_empty as is_empty_span};
ghost use Rattle.le_conds.specs.Faults.{fault_if, is_long as is_long_span, begins_scope as begins_scope_in, begins_opener as begins_opener_in, part_faults as part_faults_of, conclusion_faults as conclusion_faults_of, least_onto};

use crate::entry::Entry;
use crate::openers::{gather_seen, opens_for_all, opens_negation};
use le_base::{Code, MOST_SENTENCE_TOKENS};
use le_layout::{Fault, Layout, Span};

/// The fault that decides among those that were found and, if something is so, one that stands before them.
pub fn sooner_if(is_so: bool, code: Code, place: u32, least: Option<Fault>) -> Option<Fault>
    ensures { result ≡ least_onto (fault_if is_so code place) least }
{
    if is_so {
        return Fault::at(code, place).sooner(least);
    }
    least
}

/// Whether there is no token.
pub fn is_empty(span: Span) -> bool
    ensures { result ≡ is_empty_span span }
{
    span.to <= span.from
}

/// Whether there are more than 200 tokens.
fn is_long(span: Span) -> bool
    ensures { result ≡ is_long_span span }
{
    MOST_SENTENCE_TOKENS < span.to.saturating_sub(span.from)
}

/// Whether some tokens begin with the words of a negation or of a `for all`.
fn begins_scope(layout: &Layout, span: Span) -> bool
    requires layout { IsLayout layout.now }
    requires ordered { span.from ≤ span.to }
    requires inside { span.to ≤ length layout.now.tokens }
    ensures { result ≡ begins_scope_in layout.now span }
{
    opens_negation(layout, span.from, span.to) || opens_for_all(layout, span.from, span.to)
}

/// Whether some tokens begin with an opener. There may be none.
fn begins_opener(layout: &Layout, span: Span) -> bool
    requires layout { IsLayout layout.now }
    requires inside { span.to ≤ length layout.now.tokens }
    ensures { result ≡ begins_opener_in layout.now span }
{
    if span.to < span.from {
        return false;
    }
    begins_scope(layout, span) || gather_seen(layout, span.from, span.to).such_that.is_some()
}

/// The fault that decides among those of an item's own tokens and those that were found.
pub fn part_fault(layout: &Layout, entry: Entry, least: Option<Fault>) -> Option<Fault>
    requires layout { IsLayout layout.now }
    requires entry { IsEntryOver (length layout.now.tokens) entry }
    ensures { result ≡ least_onto (part_faults_of layout.now entry) least }
{
    let content = Span {
        from: entry.own,
        to: entry.inline.to,
    };
    let opens = begins_opener(layout, entry.inline);
    let least = sooner_if(opens, Code::NegationScope, entry.inline.from, least);
    let least = sooner_if(is_long(content), Code::LongSentence, entry.own, least);
    sooner_if(is_empty(content), Code::BadIndent, entry.at, least)
}

/// The fault that decides among those of a conclusion and those that were found.
pub fn conclusion_fault(layout: &Layout, conclusion: Span, least: Option<Fault>) -> Option<Fault>
    requires layout { IsLayout layout.now }
    requires ordered { conclusion.from ≤ conclusion.to }
    requires inside { conclusion.to ≤ length layout.now.tokens }
    ensures { result ≡ least_onto (conclusion_faults_of layout.now conclusion) least }
{
    let from = conclusion.from;
    let opens = begins_scope(layout, conclusion);
    let least = sooner_if(opens, Code::NegationScope, from, least);
    let least = sooner_if(is_long(conclusion), Code::LongSentence, from, least);
    sooner_if(is_empty(conclusion), Code::BadIndent, from, least)
}
