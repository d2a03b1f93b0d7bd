ghost use Rattle.std.specs.Prelude.{◌≡◌, length, All, IfOk};
ghost use Rattle.le_base.specs.Stop.{Gives};
ghost use Rattle.le_layout.specs.Layout.{IsLayout};
ghost use Rattle.le_docs.specs.Bounds.{IsSentenceOver, IsSectionOver};
ghost use Rattle.le_clauses.specs.Pieces.{is_read as is_read_section, clauses_of, piece_of, pieces_of, program_of};
ghost use Rattle.le_clauses.specs.Validity.{IsWhole};

use crate::declaring::declared;
use crate::queries::query;
use crate::rules::rule;
use crate::{Piece, Pieces, Whole};
use le_base::{Stop, Text};
use le_docs::{Doc, Section, SectionKind};
use le_layout::{Layout, Span};
use le_templates::Templates;
use le_terms::{AskedList, Clause, Clauses, GroupKind, Groups, Literals, Names};
use std::alloc::Global;

/// The whole of a document: its templates, and then its sentences one by one in the order of the text.
/// A rule's conclusion is the head of a clause and its conditions are the body, with a clause for each
/// branch of its groups; a fact is a clause without a body; the conditions of a query are its literals,
/// and each phrase of `which` and a name is asked for.
///
/// A refusal is the first in this order: `BadTemplate`, `SameTemplate` or `TooMany` for a template; and
/// then for each sentence the refusal of its shape (`LongSentence`, `MixedConnectives`, `BadIndent`,
/// `NegationScope`), that of its reading (`NoReading`, `Ambiguous`, `Dangling`, `Again`, `WhichHere`,
/// `TooMany` for a 65th variable, `PredefinedHead` for a conclusion by a predefined template), and
/// `TooMany` for a 50,001st clause, those of groups counted. The layout is a valid one, and the sections
/// lie in it.
pub fn program(alloc: Global, layout: &Layout, doc: &Doc) -> Result<Whole, Stop>
    requires layout { IsLayout layout.now }
    requires doc { All (IsSectionOver (length layout.now.tokens)) doc.now.sections }
    ensures exact { Gives (λ whole. whole) result (program_of layout.now doc.now) }
    ensures sound { IfOk result IsWhole }
{
    let sections = doc.sections.as_slice();
    let templates = declared(alloc, layout, sections)?;
    let mut names = Names::new(alloc);
    let mut count = 0;
    let mut groups = Vec::new(alloc);
    let pieces = pieces(
        alloc,
        layout,
        &templates,
        &mut names,
        &mut count,
        &mut groups,
        sections,
    )?;
    Ok(Whole {
        templates,
        names,
        groups: Groups::from_vec(groups),
        pieces: Pieces::from_vec(pieces),
    })
}

// The pieces of sections in order. So many clauses stand before them, and then after them.
fn pieces(
    alloc: Global,
    layout: &Layout,
    templates: &Templates,
    names: &mut Names,
    count: &mut u32,
    groups: &mut Vec<GroupKind>,
    sections: &[Section],
) -> Result<Vec<Piece>, Stop>
    requires layout { IsLayout layout.now }
    requires sections { All (IsSectionOver (length layout.now.tokens)) sections.now }
    ensures exact { Gives (λ pieces. record { value = pieces.items; names = names.new; count = count.new; groups = groups.new.items }) result (pieces_of templates.now names.old count.old groups.old.items layout.now sections.now) }
{
    let mut pieces = Vec::new(alloc);
    for section in sections {
        if is_read(section) {
            let piece = piece(alloc, layout, templates, names, count, groups, section)?;
            pieces.push(piece)?;
        }
    }
    Ok(pieces)
}

// Whether a section has rules, facts or a query.
fn is_read(section: &Section) -> bool
    ensures { result ≡ is_read_section section.now }
{
    match section.kind {
        SectionKind::Target | SectionKind::Templates => false,
        SectionKind::Knowledge | SectionKind::Scenario | SectionKind::Query => true,
    }
}

// The piece of a knowledge base, a scenario or a query.
fn piece(
    alloc: Global,
    layout: &Layout,
    templates: &Templates,
    names: &mut Names,
    count: &mut u32,
    groups: &mut Vec<GroupKind>,
    section: &Section,
) -> Result<Piece, Stop>
    requires layout { IsLayout layout.now }
    requires section { IsSectionOver (length layout.now.tokens) section.now }
    ensures exact { Gives (λ piece. record { value = piece; names = names.new; count = count.new; groups = groups.new.items }) result (piece_of templates.now names.old count.old groups.old.items layout.now section.now) }
{
    let spans = section.sentences.as_slice();
    if section.kind.is(SectionKind::Query) && !spans.is_empty() {
        return query(
            alloc, layout, templates, names, count, groups, section, spans[0],
        );
    }
    let clauses = clauses(alloc, layout, templates, names, count, groups, spans)?;
    Ok(Piece {
        kind: section.kind,
        name: Text::of(alloc, section.name.as_str())?,
        clauses: Clauses::from_vec(clauses),
        query: Literals::from_vec(Vec::new(alloc)),
        asked: AskedList::from_vec(Vec::new(alloc)),
        vars: 0,
    })
}

// The clauses of rules and facts in order.
fn clauses(
    alloc: Global,
    layout: &Layout,
    templates: &Templates,
    names: &mut Names,
    count: &mut u32,
    groups: &mut Vec<GroupKind>,
    spans: &[Span],
) -> Result<Vec<Clause>, Stop>
    requires layout { IsLayout layout.now }
    requires spans { All (IsSentenceOver (length layout.now.tokens)) spans.now }
    ensures exact { Gives (λ clauses. record { value = clauses.items; names = names.new; count = count.new; groups = groups.new.items }) result (clauses_of templates.now names.old count.old groups.old.items layout.now spans.now) }
{
    let mut clauses = Vec::new(alloc);
    for span in spans {
        let mut more = rule(alloc, layout, templates, names, count, groups, *span)?;
        clauses.append(&mut more)?;
    }
    Ok(clauses)
}
