ghost use Rattle.std.specs.Prelude.{◌≡◌, ◌<◌, ◌-◌, ℕ, true, List, length, All, IfOk};
ghost use Rattle.le_base.specs.Stop.{Gives};
ghost use Rattle.le_layout.specs.Layout.{IsLayout};
ghost use Rattle.le_layout.specs.Words.{IsSpan, IsSomeSpan, tokens_of, token_of};
ghost use Rattle.le_match.specs.Terms.{term_of, atom_of};
ghost use Rattle.le_scope.specs.Phrases.{phrase_name as phrase_name_of};
ghost use Rattle.le_scope.specs.Scopes.{introduction, introduced};
ghost use Rattle.le_conds.specs.Bounds.{IsPart, IsCondIn};
ghost use Rattle.le_clauses.specs.Rules.{sentence_part as sentence_part_of, is_gather as is_gather_of, value_part, gather_part as gather_part_of, kind_part, parts_of};

use crate::conclusions::atom;
use crate::part::Part;
use le_base::{Code, FoldKind, Stop};
use le_conds::{Cond, CondKind};
use le_layout::{Layout, Span};
use le_match::term;
use le_scope::{Intro, Scope, is_name, phrase_name, shape};
use le_templates::Templates;
use le_terms::{Names, Term};
use std::alloc::{AllocError, Global};

/// The parts of conditions, from left to right.
pub fn parts(
    alloc: Global,
    layout: &Layout,
    templates: &Templates,
    names: &mut Names,
    scope: &mut Scope,
    query: bool,
    nodes: &[Cond],
) -> Result<Vec<Part>, Stop>
    requires layout { IsLayout layout.now }
    requires nodes { All (IsCondIn layout.now) nodes.now }
    ensures exact { Gives (λ parts. record { value = parts.items; names = names.new; scope = scope.new }) result (parts_of templates.now names.old scope.old query layout.now nodes.now) }
{
    let mut parts = Vec::new(alloc);
    for node in nodes {
        let part = part(alloc, layout, templates, names, scope, query, *node)?;
        parts.push(part)?;
    }
    Ok(parts)
}

// The part of a condition.
fn part(
    alloc: Global,
    layout: &Layout,
    templates: &Templates,
    names: &mut Names,
    scope: &mut Scope,
    query: bool,
    node: Cond,
) -> Result<Part, Stop>
    requires layout { IsLayout layout.now }
    requires node { IsCondIn layout.now node }
    ensures exact { Gives (λ part. record { value = part; names = names.new; scope = scope.new }) result (kind_part templates.now names.old scope.old query layout.now node.at node.kind) }
{
    match node.kind {
        CondKind::Sentence(span) => {
            sentence_part(alloc, layout, templates, names, scope, query, span)
        }
        CondKind::And(count) => Ok(Part::And(count)),
        CondKind::Or(count) => Ok(Part::Or(count)),
        CondKind::Not => Ok(Part::Not(layout.token(node.at).line)),
        CondKind::ForAll => Ok(Part::ForAll(layout.token(node.at).line)),
        CondKind::Gather {
            fold,
            result: res,
            name,
        } => gather_part(
            alloc, layout, templates, names, scope, query, node.at, fold, res, name,
        ),
    }
}

// The part of a sentence.
fn sentence_part(
    alloc: Global,
    layout: &Layout,
    templates: &Templates,
    names: &mut Names,
    scope: &mut Scope,
    query: bool,
    span: Span,
) -> Result<Part, Stop>
    requires layout { IsLayout layout.now }
    requires span { IsPart layout.now span }
    ensures exact { Gives (λ part. record { value = part; names = names.new; scope = scope.new }) result (sentence_part_of (token_of layout.now span.from).line (atom_of templates.now names.old scope.old query layout.now (tokens_of layout.now span))) }
{
    let line = layout.token(span.from).line;
    let atom = atom(alloc, layout, templates, names, scope, query, span)?;
    Ok(Part::Sentence { line, atom })
}

// The part of a gather with its first token, its result and the name of its value.
fn gather_part(
    alloc: Global,
    layout: &Layout,
    templates: &Templates,
    names: &mut Names,
    scope: &mut Scope,
    query: bool,
    at: u32,
    fold: FoldKind,
    total: Span,
    name: Span,
) -> Result<Part, Stop>
    requires layout { IsLayout layout.now }
    requires at { at < length layout.now.tokens }
    requires total { IsSpan layout.now total }
    requires name { IsSpan layout.now name }
    ensures exact { Gives (λ part. record { value = part; names = names.new; scope = scope.new }) result (gather_part_of templates.now names.old scope.old query layout.now at fold total name) }
{
    let first = layout.token(at);
    if !is_gather(alloc, layout, total, name)? {
        return Err(first.refused(alloc, Code::NoReading));
    }
    let total = result_term(alloc, layout, templates, names, scope, query, total)?;
    named_part(alloc, layout, scope, first.line, fold, total, name)
}

// Whether a result is a phrase and a value has a name; then the result isn't empty.
fn is_gather(alloc: Global, layout: &Layout, total: Span, name: Span) -> Result<bool, AllocError>
    requires layout { IsLayout layout.now }
    requires total { IsSpan layout.now total }
    requires name { IsSpan layout.now name }
    ensures exact { IfOk result (λ b. b ≡ is_gather_of layout.now total name) }
    ensures total { IfOk result (λ b. b ≡ true → total.from < total.to) }
{
    if shape(alloc, layout, total)?.is_none() {
        return Ok(false);
    }
    Ok(is_name(layout, name))
}

// The term of a result. There can't be 2^30 names, since a document has fewer tokens.
fn result_term(
    alloc: Global,
    layout: &Layout,
    templates: &Templates,
    names: &mut Names,
    scope: &mut Scope,
    query: bool,
    tokens: Span,
) -> Result<Term, Stop>
    requires layout { IsLayout layout.now }
    requires tokens { IsSomeSpan layout.now tokens }
    ensures exact { Gives (λ term. record { value = term; names = names.new; scope = scope.new }) result (term_of templates.now names.old scope.old query layout.now (tokens_of layout.now tokens)) }
{
    if names.count() >= 1 << 30 {
        return Err(Stop::Memory);
    }
    term(alloc, layout, templates, names, scope, query, tokens)
}

// A gather whose result was read, with the name of its value, which is introduced.
fn named_part(
    alloc: Global,
    layout: &Layout,
    scope: &mut Scope,
    line: u32,
    fold: FoldKind,
    total: Term,
    name: Span,
) -> Result<Part, Stop>
    requires layout { IsLayout layout.now }
    requires some { 0 < length layout.now.tokens }
    requires name { IsSpan layout.now name }
    ensures exact { (names : List (List ℕ)) → Gives (λ part. record { value = part; names = names; scope = scope.new }) result (value_part line fold total names (introduced scope.old (phrase_name_of layout.now (tokens_of layout.now name))) (token_of layout.now (name.from - 1)) (introduction scope.old (phrase_name_of layout.now (tokens_of layout.now name)))) }
{
    let each = layout.token(name.from.saturating_sub(1));
    let text = phrase_name(alloc, layout, name)?;
    match scope.introduce(text.as_str())? {
        Intro::New(value) => Ok(Part::Gather {
            line,
            fold,
            result: total,
            value,
        }),
        Intro::Again => Err(each.refused(alloc, Code::Again)),
        Intro::Full => Err(each.refused(alloc, Code::TooMany)),
    }
}
