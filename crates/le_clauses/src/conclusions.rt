ghost use Rattle.std.specs.Prelude.{◌≡◌};
ghost use Rattle.le_base.specs.declared.stop.Stop.TheVariants.{Refused};
ghost use Rattle.le_base.specs.Stop.{Gives, refusal_at};
ghost use Rattle.le_layout.specs.Layout.{IsLayout};
ghost use Rattle.le_layout.specs.Words.{tokens_of, token_of};
ghost use Rattle.le_match.specs.Readings.{best_of};
ghost use Rattle.le_match.specs.Terms.{atom_of};
ghost use Rattle.le_conds.specs.Bounds.{IsPart};
ghost use Rattle.le_clauses.specs.Rules.{new_scope, is_predefined as is_predefined_reading, goes_before as goes_before_token, not_predefined, head_of};

use le_base::{Code, Refusal, Stop};
use le_layout::{Layout, Span, Token};
use le_match::{BestReading, best, read};
use le_scope::Scope;
use le_templates::Templates;
use le_terms::{Atom, Names};
use std::alloc::Global;

/// The atom of a conclusion in a new scope.
pub fn conclusion(
    alloc: Global,
    layout: &Layout,
    templates: &Templates,
    names: &mut Names,
    scope: &mut Scope,
    tokens: Span,
) -> Result<Atom, Stop>
    requires layout { IsLayout layout.now }
    requires scope { scope.old ≡ new_scope }
    requires tokens { IsPart layout.now tokens }
    ensures exact { Gives (λ atom. record { value = atom; names = names.new; scope = scope.new }) result (head_of templates.now names.old layout.now tokens) }
{
    let first = layout.token(tokens.from);
    match atom(alloc, layout, templates, names, scope, false, tokens) {
        Ok(atom) if atom.pred < 20 => Err(first.refused(alloc, Code::PredefinedHead)),
        Ok(atom) => Ok(atom),
        Err(Stop::Memory) => Err(Stop::Memory),
        Err(Stop::Refused(refusal)) => {
            let predefined = is_predefined(&best(alloc, layout, templates, tokens)?);
            if predefined && !goes_before(&refusal, Code::PredefinedHead, first) {
                return Err(first.refused(alloc, Code::PredefinedHead));
            }
            Err(Stop::Refused(refusal))
        }
    }
}

// Whether the best reading is by a predefined template.
fn is_predefined(best: &BestReading) -> bool
    ensures { result ≡ is_predefined_reading best.now }
{
    match best {
        BestReading::One(reading) => reading.pred < 20,
        _ => false,
    }
}

// Whether a refusal goes before one of this code at a token: it stands there and has the lesser number.
fn goes_before(refusal: &Refusal, code: Code, token: Token) -> bool
    ensures { result ≡ goes_before_token refusal.now code token }
{
    refusal.line == token.line
        && refusal.column == token.column
        && refusal.code.number() < code.number()
}

/// The atom of a sentence. There can't be 2^30 names, since a document has fewer tokens: that many would
/// take tens of gigabytes, and are answered as out of memory.
pub fn atom(
    alloc: Global,
    layout: &Layout,
    templates: &Templates,
    names: &mut Names,
    scope: &mut Scope,
    query: bool,
    tokens: Span,
) -> Result<Atom, Stop>
    requires layout { IsLayout layout.now }
    requires tokens { IsPart layout.now tokens }
    ensures exact { Gives (λ atom. record { value = atom; names = names.new; scope = scope.new }) result (atom_of templates.now names.old scope.old query layout.now (tokens_of layout.now tokens)) }
{
    if names.count() >= 1 << 30 {
        return Err(Stop::Memory);
    }
    read(alloc, layout, templates, names, scope, query, tokens)
}
