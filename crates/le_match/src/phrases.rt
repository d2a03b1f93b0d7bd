ghost use Rattle.std.specs.Prelude.{◌≡◌, ℕ, ◌+◌, ◌-◌, ◌^◌, ◌<◌, Some, true, List, drop, length, IfOk, OnOk, OnErr};
ghost use Rattle.le_base.specs.declared.stop.Stop.TheVariants.{Refused};
ghost use Rattle.le_base.specs.Stop.{Gives, refusal_at};
ghost use Rattle.le_layout.specs.Layout.{IsLayout};
ghost use Rattle.le_layout.specs.Words.{IsSomeSpan, tokens_of, text_of};
ghost use Rattle.le_base.specs.Ranges.{IsNumber, IsDay};
ghost use Rattle.le_terms.specs.Tree.{constant, number, date};
ghost use Rattle.le_terms.specs.Names.{number_of_name, entered};
ghost use Rattle.le_scope.specs.Phrases.{IsFormInRange, is_simple_phrase, phrase_name as name_of};
ghost use Rattle.le_scope.specs.Scopes.{ScopeState, place_of};
ghost use Rattle.le_scope.specs.declared.scope.Intro.{Intro};
ghost use Rattle.le_match.specs.Terms.{term_of, simple_term as simple_term_of, by_simple_form, first_of, last_of, constant_found, introducing, asking, by_introduction, by_place};
ghost use Rattle.le_match.specs.Walks.{IsLonger, IsLongerBy, IsLongerScope};

use crate::lists::list_term;
use le_base::{Code, Stop, Text};
use le_layout::{Layout, Span};
use le_scope::{Intro, PhraseForm, Scope, phrase_name, shape};
use le_templates::Templates;
use le_terms::{Names, Sym, Term};
use std::alloc::{AllocError, Global};

/// The term of a phrase of at least one token, in the scope of a rule, a fact or a query. A quoted text is
/// the constant of its content, a number or a date is its value, and a constant's name is its words joined
/// by one space. `a` or `an` and a name introduce a variable, and so does `which` in a query, whose number
/// the scope notes. `the` and a name are the variable where the name was introduced, else the constant of
/// `the ` and the name. Names are compared with ASCII case ignored. A list's term is made of those of its
/// phrases, which are found from left to right: `[]` is the empty list, `[p, q]` the cell of p and of the
/// cell of q and the empty list, and `[p | r]` the cell of p and r. Refused with `NoReading` at the first
/// token exactly where the tokens are no phrase, and else at the first token of the first phrase that isn't
/// a list and that is refused: with `Dangling` where `the` stands before a name that wasn't introduced and
/// whose last word is the last word of a slot of the user's templates, with `WhichHere` where `which`
/// stands outside a query, with `Again` where an introduced name is there already, and else with `TooMany`
/// where the scope is full. After an error the names and the scope are as before. The layout is a valid one
/// and has the tokens, and there are fewer than 2^31 names.
pub fn term(
    alloc: Global,
    layout: &Layout,
    templates: &Templates,
    names: &mut Names,
    scope: &mut Scope,
    query: bool,
    tokens: Span,
) -> Result<Term, Stop>
    requires layout { IsLayout layout.now }
    requires tokens { IsSomeSpan layout.now tokens }
    requires few { length names.old < 2 ^ 31 }
    ensures exact { Gives (λ term. record { value = term; names = names.new; scope = scope.new }) result (term_of templates.now names.old scope.old query layout.now (tokens_of layout.now tokens)) }
    ensures names { OnErr result (names.new ≡ names.old) }
    ensures scope { OnErr result (scope.new ≡ scope.old) }
{
    let names_before = names.count();
    let scope_before = scope.count();
    let found = phrase_term(alloc, layout, templates, names, scope, query, tokens);
    if found.is_err() {
        names.truncate(names_before);
        scope.truncate(scope_before);
    }
    found
}

// The term of a phrase. After an error names may have come, after those before.
pub(crate) fn phrase_term(
    alloc: Global,
    layout: &Layout,
    templates: &Templates,
    names: &mut Names,
    scope: &mut Scope,
    query: bool,
    tokens: Span,
) -> Result<Term, Stop>
    requires layout { IsLayout layout.now }
    requires tokens { IsSomeSpan layout.now tokens }
    requires few { length names.old + (tokens.to - tokens.from) < 2 ^ 32 - 1 }
    ensures exact { Gives (λ term. record { value = term; names = names.new; scope = scope.new }) result (term_of templates.now names.old scope.old query layout.now (tokens_of layout.now tokens)) }
    ensures names { IsLongerBy (tokens.to - tokens.from) names.old names.new }
    ensures scope { IsLongerScope scope.old scope.new }
{
    let Some(form) = shape(alloc, layout, tokens)? else {
        return Err(refused(alloc, layout, Code::NoReading, tokens));
    };
    match form {
        PhraseForm::List => list_term(alloc, layout, templates, names, scope, query, tokens),
        _ => simple_term(alloc, layout, templates, names, scope, query, tokens, form),
    }
}

// The term of a phrase without brackets that stands in a list.
pub(crate) fn item_term(
    alloc: Global,
    layout: &Layout,
    templates: &Templates,
    names: &mut Names,
    scope: &mut Scope,
    query: bool,
    tokens: Span,
) -> Result<Term, Stop>
    requires layout { IsLayout layout.now }
    requires tokens { IsSomeSpan layout.now tokens }
    requires simple { is_simple_phrase layout.now (tokens_of layout.now tokens) ≡ true }
    requires few { length names.old < 2 ^ 32 - 1 }
    ensures exact { Gives (λ term. record { value = term; names = names.new; scope = scope.new }) result (simple_term_of templates.now names.old scope.old query layout.now (tokens_of layout.now tokens)) }
    ensures names { IsLonger names.old names.new }
    ensures scope { IsLongerScope scope.old scope.new }
{
    let Some(form) = shape(alloc, layout, tokens)? else {
        return Err(refused(alloc, layout, Code::NoReading, tokens));
    };
    simple_term(alloc, layout, templates, names, scope, query, tokens, form)
}

// The term of a phrase without brackets that has this form.
fn simple_term(
    alloc: Global,
    layout: &Layout,
    templates: &Templates,
    names: &mut Names,
    scope: &mut Scope,
    query: bool,
    tokens: Span,
    form: PhraseForm,
) -> Result<Term, Stop>
    requires layout { IsLayout layout.now }
    requires tokens { IsSomeSpan layout.now tokens }
    requires form { IsFormInRange form }
    requires few { length names.old < 2 ^ 32 - 1 }
    ensures exact { Gives (λ term. record { value = term; names = names.new; scope = scope.new }) result (by_simple_form templates.now names.old scope.old query layout.now (tokens_of layout.now tokens) (Some form)) }
    ensures names { IsLonger names.old names.new }
    ensures scope { IsLongerScope scope.old scope.new }
{
    match form {
        PhraseForm::Number(n) => Ok(number(alloc, n)?),
        PhraseForm::Day(day) => Ok(date(alloc, day)?),
        PhraseForm::Quote => Ok(constant(alloc, names, layout.word(tokens.from))?),
        PhraseForm::A => introduced(alloc, layout, scope, tokens),
        PhraseForm::Which => {
            if query {
                asked(alloc, layout, scope, tokens)
            } else {
                Err(refused(alloc, layout, Code::WhichHere, tokens))
            }
        }
        PhraseForm::The => referred(alloc, layout, templates, names, scope, tokens),
        PhraseForm::Constant => named(alloc, layout, names, tokens),
        PhraseForm::List => Err(refused(alloc, layout, Code::NoReading, tokens)),
    }
}

// The refusal of a phrase or a sentence, at its first token.
pub(crate) fn refused(alloc: Global, layout: &Layout, code: Code, tokens: Span) -> Stop
    requires tokens { IsSomeSpan layout.now tokens }
    ensures { let first = first_of (tokens_of layout.now tokens) in result ≡ Refused (refusal_at code first.line first.column) }
{
    layout.token(tokens.from).refused(alloc, code)
}

// The term of a number.
fn number(alloc: Global, n: i64) -> Result<Term, AllocError>
    requires { IsNumber n }
    ensures { IfOk result (λ term. term ≡ number n) }
{
    Term::leaf(alloc, Sym::Num(n))
}

// The term of a date.
fn date(alloc: Global, day: i32) -> Result<Term, AllocError>
    requires { IsDay day }
    ensures { IfOk result (λ term. term ≡ date day) }
{
    Term::leaf(alloc, Sym::Day(day))
}

// The constant of a name.
fn constant(alloc: Global, names: &mut Names, name: &str) -> Result<Term, AllocError>
    requires { length names.old < 2 ^ 32 - 1 }
    ensures exact { IfOk result (λ term. term ≡ constant (number_of_name names.old name.now)) }
    ensures names { OnOk result (names.new ≡ entered names.old name.now) }
    ensures longer { IsLonger names.old names.new }
{
    let number = names.number_of(name)?;
    Term::leaf(alloc, Sym::Name(number))
}

// The constant of the words of a phrase.
fn named(alloc: Global, layout: &Layout, names: &mut Names, tokens: Span) -> Result<Term, Stop>
    requires layout { IsLayout layout.now }
    requires tokens { IsSomeSpan layout.now tokens }
    requires few { length names.old < 2 ^ 32 - 1 }
    ensures exact { (scope : ScopeState) → Gives (λ term. record { value = term; names = names.new; scope = scope }) result (constant_found names.old scope (name_of layout.now (tokens_of layout.now tokens))) }
    ensures longer { IsLonger names.old names.new }
{
    let name = phrase_name(alloc, layout, tokens)?;
    Ok(constant(alloc, names, name.as_str())?)
}

// The variable that a phrase introduces.
fn introduced(alloc: Global, layout: &Layout, scope: &mut Scope, tokens: Span) -> Result<Term, Stop>
    requires layout { IsLayout layout.now }
    requires tokens { IsSomeSpan layout.now tokens }
    ensures exact { (names : List (List ℕ)) → let ts = tokens_of layout.now tokens in
        Gives (λ term. record { value = term; names = names; scope = scope.new }) result (introducing names scope.old (first_of ts) (name_of layout.now (drop 1 ts))) }
    ensures longer { IsLongerScope scope.old scope.new }
{
    let name = phrase_name(alloc, layout, after_article(tokens))?;
    let intro = scope.introduce(name.as_str())?;
    answered(alloc, layout, intro, tokens)
}

// The variable that a phrase with `which` introduces.
fn asked(alloc: Global, layout: &Layout, scope: &mut Scope, tokens: Span) -> Result<Term, Stop>
    requires layout { IsLayout layout.now }
    requires tokens { IsSomeSpan layout.now tokens }
    ensures exact { (names : List (List ℕ)) → let ts = tokens_of layout.now tokens in
        Gives (λ term. record { value = term; names = names; scope = scope.new }) result (asking names scope.old (first_of ts) (name_of layout.now (drop 1 ts))) }
    ensures longer { IsLongerScope scope.old scope.new }
{
    let name = phrase_name(alloc, layout, after_article(tokens))?;
    let intro = scope.ask(name.as_str())?;
    answered(alloc, layout, intro, tokens)
}

// The variable that was introduced with this answer.
fn answered(alloc: Global, layout: &Layout, intro: Intro, tokens: Span) -> Result<Term, Stop>
    requires layout { IsLayout layout.now }
    requires tokens { IsSomeSpan layout.now tokens }
    ensures exact { (names : List (List ℕ)) (scope : ScopeState) → Gives (λ term. record { value = term; names = names; scope = scope }) result (by_introduction names scope (first_of (tokens_of layout.now tokens)) intro) }
{
    match intro {
        Intro::New(n) => Ok(Term::leaf(alloc, Sym::Var(n))?),
        Intro::Again => Err(refused(alloc, layout, Code::Again, tokens)),
        Intro::Full => Err(refused(alloc, layout, Code::TooMany, tokens)),
    }
}

// What a phrase that begins with `the` means.
fn referred(
    alloc: Global,
    layout: &Layout,
    templates: &Templates,
    names: &mut Names,
    scope: &Scope,
    tokens: Span,
) -> Result<Term, Stop>
    requires layout { IsLayout layout.now }
    requires tokens { IsSomeSpan layout.now tokens }
    requires few { length names.old < 2 ^ 32 - 1 }
    ensures exact { let ts = tokens_of layout.now tokens in
        let name = name_of layout.now (drop 1 ts) in
        Gives (λ term. record { value = term; names = names.new; scope = scope.now }) result (by_place templates.now names.old scope.now (first_of ts) (text_of layout.now (last_of ts)) name (place_of scope.now name)) }
    ensures longer { IsLonger names.old names.new }
{
    let name = phrase_name(alloc, layout, after_article(tokens))?;
    if let Some(n) = scope.refer(name.as_str()) {
        return Ok(Term::leaf(alloc, Sym::Var(n))?);
    }
    if templates.ends_slot(layout.word(tokens.to - 1)) {
        return Err(refused(alloc, layout, Code::Dangling, tokens));
    }
    let mut text = Text::of(alloc, "the ")?;
    text.push_str(name.as_str())?;
    Ok(constant(alloc, names, text.as_str())?)
}

// The tokens of a phrase after its article.
fn after_article(tokens: Span) -> Span
    requires { tokens.from < tokens.to }
    ensures { result ≡ record { from = tokens.from + 1; to = tokens.to } }
{
    Span {
        from: tokens.from + 1,
        to: tokens.to,
    }
}
