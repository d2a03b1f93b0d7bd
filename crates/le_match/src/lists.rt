ghost use Rattle.std.specs.Prelude.{◌≡◌, ◌+◌, ◌-◌, ◌^◌, ◌<◌, Some, [], ◌∷◌, length, map, IfOk};
ghost use Rattle.std.specs.List.{All};
ghost use Rattle.le_base.specs.Stop.{Gives};
ghost use Rattle.le_layout.specs.Layout.{IsLayout};
ghost use Rattle.le_layout.specs.Words.{IsSomeSpan, tokens_of};
ghost use Rattle.le_scope.specs.declared.phrase.PhraseForm.TheVariants.{List};
ghost use Rattle.le_scope.specs.Phrases.{phrase_form};
ghost use Rattle.le_scope.specs.Parts.{IsPartOf};
ghost use Rattle.le_match.specs.Terms.{member, members, member_found, symbols_of, tree_found};
ghost use Rattle.le_match.specs.Walks.{IsLonger, IsLongerBy, IsLongerScope, IsPartSpelled, AreSpelled};

use crate::phrases::item_term;
use le_base::Stop;
use le_layout::{Layout, Span};
use le_scope::{ListPart, Scope, list_parts};
use le_templates::Templates;
use le_terms::{Names, Sym, Term};
use std::alloc::{AllocError, Global};

// The term of a list. After an error names may have come, after those before.
pub(crate) fn list_term(
    alloc: Global,
    layout: &Layout,
    templates: &Templates,
    names: &mut Names,
    scope: &mut Scope,
    query: bool,
    tokens: Span,
) -> Result<Term, Stop>
    requires layout { IsLayout layout.now }
    requires tokens { IsSomeSpan layout.now tokens }
    requires list { phrase_form layout.now (tokens_of layout.now tokens) ≡ Some List }
    requires few { length names.old + (tokens.to - tokens.from) < 2 ^ 32 - 1 }
    ensures exact { Gives (λ term. record { value = term; names = names.new; scope = scope.new }) result (tree_found (symbols_of templates.now names.old scope.old query layout.now (members (tokens_of layout.now tokens)))) }
    ensures names { IsLongerBy (tokens.to - tokens.from) names.old names.new }
    ensures scope { IsLongerScope scope.old scope.new }
{
    let parts = list_parts(alloc, layout, tokens)?;
    let found = symbols(alloc, layout, templates, names, scope, query, &parts)?;
    Ok(Term::from_syms(found))
}

// The symbols of a list's parts from left to right.
fn symbols(
    alloc: Global,
    layout: &Layout,
    templates: &Templates,
    names: &mut Names,
    scope: &mut Scope,
    query: bool,
    parts: &[ListPart],
) -> Result<Vec<Sym>, Stop>
    requires layout { IsLayout layout.now }
    requires parts { All (IsPartOf layout.now) parts.now }
    requires few { length names.old + length parts.now < 2 ^ 32 - 1 }
    ensures exact { Gives (λ found. record { value = found.items; names = names.new; scope = scope.new }) result (symbols_of templates.now names.old scope.old query layout.now (map (member layout.now.tokens) parts.now)) }
    ensures spelled { IfOk result (λ found. AreSpelled parts.now found.items) }
    ensures names { IsLongerBy (length parts.now) names.old names.new }
    ensures scope { IsLongerScope scope.old scope.new }
{
    let mut found = Vec::new(alloc);
    for part in parts {
        let more = part_symbols(alloc, layout, templates, names, scope, query, *part)?;
        found.extend_from_slice(more.as_slice())?;
    }
    Ok(found)
}

// The symbols of one part of a list.
fn part_symbols(
    alloc: Global,
    layout: &Layout,
    templates: &Templates,
    names: &mut Names,
    scope: &mut Scope,
    query: bool,
    part: ListPart,
) -> Result<Vec<Sym>, Stop>
    requires layout { IsLayout layout.now }
    requires part { IsPartOf layout.now part }
    requires few { length names.old < 2 ^ 32 - 1 }
    ensures exact { Gives (λ found. record { value = found.items; names = names.new; scope = scope.new }) result (member_found templates.now names.old scope.old query layout.now (member layout.now.tokens part)) }
    ensures spelled { IfOk result (λ found. IsPartSpelled part found.items) }
    ensures names { IsLonger names.old names.new }
    ensures scope { IsLongerScope scope.old scope.new }
{
    match part {
        ListPart::Cell => Ok(one_symbol(alloc, Sym::Cons)?),
        ListPart::End => Ok(one_symbol(alloc, Sym::Nil)?),
        ListPart::Item(span) => {
            let term = item_term(alloc, layout, templates, names, scope, query, span)?;
            Ok(term.into_syms())
        }
    }
}

// One symbol.
fn one_symbol(alloc: Global, symbol: Sym) -> Result<Vec<Sym>, AllocError>
    ensures { IfOk result (λ symbols. symbols.items ≡ symbol ∷ []) }
{
    let mut symbols = Vec::with_capacity(alloc, 1)?;
    symbols.push(symbol)?;
    Ok(symbols)
}
