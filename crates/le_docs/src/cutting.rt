ghost use Rattle.std.specs.Prelude.{◌≡◌, ◌<◌, ◌≤◌, length, All, IfOk};
ghost use Rattle.std.specs.Option.{option_to_list};
ghost use Rattle.le_layout.specs.Layout.{IsLayout};
ghost use Rattle.le_docs.specs.Kinds.{ends_sentence as ends_sentence_of};
ghost use Rattle.le_docs.specs.Faults.{least_from};
ghost use Rattle.le_docs.specs.Bounds.{IsSentenceOver, IsSectionOver};
ghost use Rattle.le_docs.specs.Cuts.{parts_in, spans_at, open_at};
ghost use Rattle.le_docs.specs.Sections.{is_prolog as is_prolog_of, target_faults, open_faults, query_faults, parts_under, section_at, section_faults};

use crate::faults::sooner;
use crate::headers::Head;
use crate::{Section, SectionKind, Spans};
use le_base::{Code, Text};
use le_layout::{Fault, Kind, Layout, Span, Token};
use std::alloc::{AllocError, Global};

/// The sentences of a section, of which the last may not be ended.
#[derive(Drop)]
pub struct Cut {
    /// All of them, without the tokens that end them.
    pub sentences: Vec<Span>,
    /// The one that isn't ended.
    pub unended: Option<Span>,
}

/// A section, and the fault that decides.
#[derive(Drop)]
pub struct Checked {
    /// The section.
    pub section: Section,
    /// The fault, where there is one.
    pub least: Option<Fault>,
}

/// The section of a header, which ends at a token, and the fault that decides among its faults and
/// one that was found before.
pub fn section(
    alloc: Global,
    layout: &Layout,
    head: Head,
    to: u32,
    least: Option<Fault>,
) -> Result<Checked, AllocError>
    requires layout { IsLayout layout.now }
    requires at { head.at < length layout.now.tokens }
    requires name { head.name.to ≤ length layout.now.tokens }
    requires inside { to ≤ length layout.now.tokens }
    ensures section { IfOk result (λ checked. checked.section ≡ section_at layout.now head to) }
    ensures within { IfOk result (λ checked. IsSectionOver (length layout.now.tokens) checked.section) }
    ensures least { IfOk result (λ checked. checked.least ≡ least_from least (section_faults layout.now head to)) }
{
    let cut = sentences(
        alloc,
        layout,
        head.kind.is(SectionKind::Templates),
        head.body,
        to,
    )?;
    let least = with_target_fault(layout, head, to, least);
    let least = with_open_fault(layout, cut.unended, least);
    let least = with_query_fault(layout, head, cut.sentences.as_slice(), least);
    let section = Section {
        kind: head.kind,
        name: layout.spaced(alloc, head.name)?,
        at: head.at,
        sentences: Spans::from_vec(cut.sentences),
    };
    Ok(Checked { section, least })
}

/// The fault that decides, where a target isn't `prolog` and a full stop.
fn with_target_fault(layout: &Layout, head: Head, to: u32, least: Option<Fault>) -> Option<Fault>
    requires layout { IsLayout layout.now }
    requires inside { to ≤ length layout.now.tokens }
    ensures { result ≡ least_from least (target_faults layout.now head to) }
{
    if head.kind.is(SectionKind::Target) && !is_prolog(layout, head.body, to) {
        return sooner(least, Fault::at(Code::UnknownHeader, head.at));
    }
    least
}

/// Whether these tokens are `prolog` and a full stop.
fn is_prolog(layout: &Layout, from: u32, to: u32) -> bool
    requires layout { IsLayout layout.now }
    requires inside { to ≤ length layout.now.tokens }
    ensures { result ≡ is_prolog_of layout.now from to }
{
    to.saturating_sub(from) == 2
        && layout.has_word(from, "prolog")
        && layout.token(from + 1).kind.is_stop()
}

/// The fault that decides, where a sentence isn't ended.
fn with_open_fault(layout: &Layout, unended: Option<Span>, least: Option<Fault>) -> Option<Fault>
    ensures { result ≡ least_from least (open_faults layout.now (option_to_list unended)) }
{
    match unended {
        Some(span) => sooner(least, Fault::at(Code::NoStop, span.from)),
        None => least,
    }
}

/// The fault that decides, where a query hasn't exactly one sentence.
fn with_query_fault(
    layout: &Layout,
    head: Head,
    sentences: &[Span],
    least: Option<Fault>,
) -> Option<Fault>
    ensures { result ≡ least_from least (query_faults layout.now head sentences.now) }
{
    if !head.kind.is(SectionKind::Query) {
        return least;
    }
    match sentences {
        [] => sooner(least, Fault::at(Code::NoStop, head.at)),
        [_] => least,
        [_, second, ..] => sooner(least, Fault::at(Code::UnknownHeader, second.from)),
    }
}

/// The sentences among these tokens. Where commas do, they end a sentence, as full stops do.
fn sentences(
    alloc: Global,
    layout: &Layout,
    commas: bool,
    from: u32,
    to: u32,
) -> Result<Cut, AllocError>
    requires inside { to ≤ length layout.now.tokens }
    ensures sentences { IfOk result (λ cut. cut.sentences.items ≡ spans_at from (parts_in layout.now commas from to)) }
    ensures within { IfOk result (λ cut. All (IsSentenceOver (length layout.now.tokens)) cut.sentences.items) }
    ensures unended { IfOk result (λ cut. option_to_list cut.unended ≡ open_at from (parts_in layout.now commas from to)) }
{
    let mut sentences = Vec::new(alloc);
    let mut start = from;
    for k in from..to {
        if !ends_sentence(commas, &layout.tokens.as_slice()[k as usize]) {
            continue;
        }
        if start < k {
            sentences.push(Span { from: start, to: k })?;
        }
        start = k + 1;
    }
    if to <= start {
        return Ok(Cut {
            sentences,
            unended: None,
        });
    }
    let unended = Span { from: start, to };
    sentences.push(unended)?;
    Ok(Cut {
        sentences,
        unended: Some(unended),
    })
}

/// Whether a token ends a sentence.
fn ends_sentence(commas: bool, token: &Token) -> bool
    ensures { result ≡ ends_sentence_of commas token.now.kind }
{
    match token.kind {
        Kind::Stop => true,
        Kind::Comma => commas,
        _ => false,
    }
}
