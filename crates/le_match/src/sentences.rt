ghost use Rattle.std.specs.Prelude.{◌≡◌, ◌+◌, ◌-◌, ◌^◌, ◌<◌, length, map, take, IfOk, OnErr};
ghost use Rattle.std.specs.List.{All};
ghost use Rattle.le_base.specs.declared.stop.Stop.TheVariants.{Refused};
ghost use Rattle.le_base.specs.Stop.{Gives};
ghost use Rattle.le_layout.specs.Layout.{IsLayout};
ghost use Rattle.le_layout.specs.Words.{IsSpan, IsSomeSpan, tokens_of};
ghost use Rattle.le_match.specs.Shares.{IsRead, shares_of};
ghost use Rattle.le_match.specs.Terms.{atom_of, atom_found, terms_of, ambiguous as ambiguous_of};
ghost use Rattle.le_match.specs.Walks.{IsLongerScope, IsPlace, share_of, total_size};

use crate::phrases::{phrase_term, refused};
use crate::sharing::{Place, places};
use crate::shown::shown;
use crate::{BestReading, Reading, best};
use le_base::{Code, Refusal, Stop};
use le_layout::{Layout, Span};
use le_scope::Scope;
use le_templates::Templates;
use le_terms::{Atom, Names, Terms};
use std::alloc::{AllocError, Global};

/// The atom of a sentence of at least one token: the predicate of its single best reading, with the terms
/// of its slots from left to right. Refused with `NoReading` at the first token exactly where the sentence
/// has no reading, with `Ambiguous` there exactly where it has two or more best readings, of which the
/// refusal shows the first two as marked sentences, and with the first refusal of a slot's phrase, as
/// `term` says. After an error the names and the scope are as before. The layout is a valid one and has
/// the tokens, and there are fewer than 2^31 names.
pub fn read(
    alloc: Global,
    layout: &Layout,
    templates: &Templates,
    names: &mut Names,
    scope: &mut Scope,
    query: bool,
    tokens: Span,
) -> Result<Atom, Stop>
    requires layout { IsLayout layout.now }
    requires tokens { IsSomeSpan layout.now tokens }
    requires few { length names.old < 2 ^ 31 }
    ensures exact { Gives (λ atom. record { value = atom; names = names.new; scope = scope.new }) result (atom_of templates.now names.old scope.old query layout.now (tokens_of layout.now tokens)) }
    ensures names { OnErr result (names.new ≡ names.old) }
    ensures scope { OnErr result (scope.new ≡ scope.old) }
{
    match best(alloc, layout, templates, tokens)? {
        BestReading::None => Err(refused(alloc, layout, Code::NoReading, tokens)),
        BestReading::One(reading) => single(
            alloc, layout, templates, names, scope, query, tokens, &reading,
        ),
        BestReading::Two(first, second) => Err(ambiguous(
            alloc, layout, templates, tokens, &first, &second,
        )?),
    }
}

// The atom of a reading. After an error the names and the scope are as before.
fn single(
    alloc: Global,
    layout: &Layout,
    templates: &Templates,
    names: &mut Names,
    scope: &mut Scope,
    query: bool,
    tokens: Span,
    reading: &Reading,
) -> Result<Atom, Stop>
    requires layout { IsLayout layout.now }
    requires tokens { IsSpan layout.now tokens }
    requires known { reading.now.pred < 20 + length templates.now }
    requires read { IsRead templates.now layout.now (tokens_of layout.now tokens) reading.now }
    requires few { length names.old < 2 ^ 31 }
    ensures exact { Gives (λ atom. record { value = atom; names = names.new; scope = scope.new }) result (atom_found reading.now.pred (terms_of templates.now names.old scope.old query layout.now (shares_of templates.now (tokens_of layout.now tokens) reading.now))) }
    ensures names { OnErr result (names.new ≡ names.old) }
    ensures scope { OnErr result (scope.new ≡ scope.old) }
{
    let names_before = names.count();
    let scope_before = scope.count();
    let found = atom(
        alloc, layout, templates, names, scope, query, tokens, reading,
    );
    if found.is_err() {
        names.truncate(names_before);
        scope.truncate(scope_before);
    }
    found
}

// The atom of a reading. After an error names may have come, after those before.
fn atom(
    alloc: Global,
    layout: &Layout,
    templates: &Templates,
    names: &mut Names,
    scope: &mut Scope,
    query: bool,
    tokens: Span,
    reading: &Reading,
) -> Result<Atom, Stop>
    requires layout { IsLayout layout.now }
    requires tokens { IsSpan layout.now tokens }
    requires known { reading.now.pred < 20 + length templates.now }
    requires read { IsRead templates.now layout.now (tokens_of layout.now tokens) reading.now }
    requires few { length names.old < 2 ^ 31 }
    ensures exact { Gives (λ atom. record { value = atom; names = names.new; scope = scope.new }) result (atom_found reading.now.pred (terms_of templates.now names.old scope.old query layout.now (shares_of templates.now (tokens_of layout.now tokens) reading.now))) }
    ensures names { take (length names.old) names.new ≡ names.old }
    ensures scope { IsLongerScope scope.old scope.new }
{
    let places = places(alloc, layout, templates, tokens, reading)?;
    let args = terms(alloc, layout, templates, names, scope, query, &places)?;
    Ok(Atom {
        pred: reading.pred,
        args,
    })
}

// The terms of the slots' phrases from left to right.
fn terms(
    alloc: Global,
    layout: &Layout,
    templates: &Templates,
    names: &mut Names,
    scope: &mut Scope,
    query: bool,
    places: &[Place],
) -> Result<Terms, Stop>
    requires layout { IsLayout layout.now }
    requires places { All (IsPlace layout.now) places.now }
    requires few { length names.old + total_size places.now < 2 ^ 32 - 1 }
    ensures exact { Gives (λ terms. record { value = terms; names = names.new; scope = scope.new }) result (terms_of templates.now names.old scope.old query layout.now (map (share_of layout.now) places.now)) }
    ensures names { take (length names.old) names.new ≡ names.old }
    ensures scope { IsLongerScope scope.old scope.new }
{
    let mut found = Vec::new(alloc);
    for place in places {
        if let Place::Slot(span) = place {
            found.push(phrase_term(alloc, layout, templates, names, scope, query, *span)?)?;
        }
    }
    Ok(Terms::from_vec(found))
}

// The refusal of a sentence with more than one best reading, which shows the first two.
fn ambiguous(
    alloc: Global,
    layout: &Layout,
    templates: &Templates,
    tokens: Span,
    first: &Reading,
    second: &Reading,
) -> Result<Stop, AllocError>
    requires layout { IsLayout layout.now }
    requires tokens { IsSomeSpan layout.now tokens }
    requires first_known { first.now.pred < 20 + length templates.now }
    requires second_known { second.now.pred < 20 + length templates.now }
    requires first_read { IsRead templates.now layout.now (tokens_of layout.now tokens) first.now }
    requires second_read { IsRead templates.now layout.now (tokens_of layout.now tokens) second.now }
    ensures { IfOk result (λ stop. stop ≡ Refused (ambiguous_of templates.now layout.now (tokens_of layout.now tokens) first.now second.now)) }
{
    let token = layout.token(tokens.from);
    Ok(Stop::Refused(Refusal {
        code: Code::Ambiguous,
        line: token.line,
        column: token.column,
        first: shown(alloc, layout, templates, tokens, first)?,
        second: shown(alloc, layout, templates, tokens, second)?,
    }))
}
