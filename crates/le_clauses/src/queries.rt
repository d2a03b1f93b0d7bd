ghost use Rattle.std.specs.Prelude.{◌≡◌, ℕ, ◌++◌, List, Ok, IfOk};
ghost use Rattle.le_base.specs.Stop.{Gives};
ghost use Rattle.le_layout.specs.Layout.{IsLayout};
ghost use Rattle.le_layout.specs.Words.{IsSomeSpan};
ghost use Rattle.le_terms.specs.Variables.{firsts, all_occurrences};
ghost use Rattle.le_terms.specs.Program.{literals_terms};
ghost use Rattle.le_clauses.specs.Groups.{number_in};
ghost use Rattle.le_clauses.specs.Conditions.{condition_of};
ghost use Rattle.le_clauses.specs.Shapes.{IsShape};
ghost use Rattle.le_clauses.specs.Pieces.{name_at, within_limit, asked_by, query_draft, query_by, query_read, query_of};

use crate::Piece;
use crate::numbering::{add_literals, literals_numbered, numbered_all, place, small_count};
use crate::occurrences::first_ones;
use crate::part::Part;
use crate::rules::{is_over, next_pred, tree_parts};
use crate::translate::translate;
use le_base::{Code, MOST_VARIABLES, Stop, Text};
use le_conds::conditions;
use le_docs::Section;
use le_layout::{Layout, Span, Token};
use le_scope::Scope;
use le_templates::Templates;
use le_terms::{Asked, AskedList, Clauses, GroupKind, Groups, Literal, Literals, Names};
use std::alloc::{AllocError, Global};

/// The piece of a query with this sentence. So many clauses and these groups stand before it.
pub fn query(
    alloc: Global,
    layout: &Layout,
    templates: &Templates,
    names: &mut Names,
    count: &mut u32,
    groups: &mut Vec<GroupKind>,
    section: &Section,
    sentence: Span,
) -> Result<Piece, Stop>
    requires layout { IsLayout layout.now }
    requires sentence { IsSomeSpan layout.now sentence }
    ensures exact { Gives (λ piece. record { value = piece; names = names.new; count = count.new; groups = groups.new.items }) result (query_of templates.now names.old count.old groups.old.items layout.now section.now sentence) }
{
    let conds = conditions(alloc, layout, sentence)?;
    let mut scope = Scope::with_limit(alloc, MOST_VARIABLES);
    let nodes = conds.nodes.as_slice();
    let parts = tree_parts(alloc, layout, templates, names, &mut scope, true, nodes)?;
    let begin = layout.token(sentence.from);
    read_query(
        alloc, templates, count, groups, section, begin, &scope, parts,
    )
}

// The piece of a query that was read. Its sentence begins at this token.
fn read_query(
    alloc: Global,
    templates: &Templates,
    count: &mut u32,
    groups: &mut Vec<GroupKind>,
    section: &Section,
    begin: Token,
    scope: &Scope,
    parts: Vec<Part>,
) -> Result<Piece, Stop>
    requires shape { IsShape parts.items }
    ensures exact { (names : List (List ℕ)) → Gives (λ piece. record { value = piece; names = names; count = count.new; groups = groups.new.items }) result (query_read templates.now count.old groups.old.items section.now begin (Ok (record { value = parts.items; names = names; scope = scope.now }))) }
{
    let pred = next_pred(templates, groups)?;
    let query = query_piece(alloc, pred, section, scope, parts)?;
    counted_query(alloc, count, groups, begin, query.piece, query.kinds)
}

/// The piece of a query, and the kinds of its groups.
#[derive(Drop)]
pub struct QueryPiece {
    /// The piece.
    pub piece: Piece,
    /// The kinds of its groups.
    pub kinds: Groups,
}

// The piece of a query with these parts, where the next group has this predicate.
fn query_piece(
    alloc: Global,
    pred: u32,
    section: &Section,
    scope: &Scope,
    parts: Vec<Part>,
) -> Result<QueryPiece, AllocError>
    requires shape { IsShape parts.items }
    ensures piece { IfOk result (λ q. q.piece ≡ query_by section.now (query_draft pred scope.now.asked (condition_of parts.items)) scope.now) }
    ensures kinds { IfOk result (λ q. q.kinds ≡ (query_draft pred scope.now.asked (condition_of parts.items)).kinds) }
{
    let done = translate(alloc, pred, scope.asked(), parts)?;
    let vars = query_vars(alloc, done.literals.as_slice(), scope.asked())?;
    let query = literals_numbered(alloc, &vars, done.literals.as_slice())?;
    let clauses = numbered_all(alloc, done.clauses.as_slice())?;
    Ok(QueryPiece {
        piece: Piece {
            kind: section.kind,
            name: Text::of(alloc, section.name.as_str())?,
            clauses: Clauses::from_vec(clauses),
            query: Literals::from_vec(query),
            asked: AskedList::from_vec(asked(alloc, scope, &vars, scope.asked())?),
            vars: small_count(&vars)?,
        },
        kinds: done.kinds,
    })
}

// The variables of a query in order of first occurrence in its literals, and then those it asks for.
fn query_vars(alloc: Global, literals: &[Literal], asked: &[u32]) -> Result<Vec<u32>, AllocError>
    ensures { IfOk result (λ vars. vars.items ≡ firsts (all_occurrences (literals_terms literals.now) ++ asked.now)) }
{
    let mut vars = Vec::new(alloc);
    add_literals(&mut vars, literals)?;
    vars.extend_from_slice(asked)?;
    first_ones(alloc, &vars)
}

// The variables that a query asks for.
fn asked(
    alloc: Global,
    scope: &Scope,
    vars: &[u32],
    wanted: &[u32],
) -> Result<Vec<Asked>, AllocError>
    ensures { IfOk result (λ asked. asked.items ≡ asked_by scope.now.names vars.now wanted.now) }
{
    let mut asked = Vec::new(alloc);
    for var in wanted {
        asked.push(asked_one(alloc, scope, vars, *var)?)?;
    }
    Ok(asked)
}

// A variable that a query asks for; each has a name.
fn asked_one(alloc: Global, scope: &Scope, vars: &[u32], var: u32) -> Result<Asked, AllocError>
    ensures { IfOk result (λ asked. asked ≡ record { name = name_at scope.now.names var; var = number_in vars.now var }) }
{
    if var >= scope.count() {
        return Err(AllocError);
    }
    Ok(Asked {
        name: Text::of(alloc, scope.name(var))?,
        var: place(vars, var)?,
    })
}

// The piece of a query, whose clauses are counted, unless there are too many.
fn counted_query(
    alloc: Global,
    count: &mut u32,
    groups: &mut Vec<GroupKind>,
    begin: Token,
    piece: Piece,
    kinds: Groups,
) -> Result<Piece, Stop>
    ensures exact { (names : List (List ℕ)) → Gives (λ p. record { value = p; names = names; count = count.new; groups = groups.new.items }) result (within_limit count.old groups.old.items begin names piece.clauses kinds piece) }
{
    let more = piece.clauses.as_slice().len();
    if is_over(*count, more) {
        return Err(begin.refused(alloc, Code::TooMany));
    }
    groups.extend_from_slice(kinds.as_slice())?;
    *count += more as u32;
    Ok(piece)
}
