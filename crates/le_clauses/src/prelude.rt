ghost use Rattle.std.specs.Prelude.{◌≡◌, ◌∷◌, [], IfOk};
ghost use Rattle.le_terms.specs.Tree.{variable, nil, cell};
ghost use Rattle.le_clauses.specs.Selection.{prelude as prelude_of, prelude_clause, prelude_literal};

use le_terms::{Atom, Clause, ClauseKind, Form, Literal, Literals, Sym, Term, Terms};
use std::alloc::{AllocError, Global};

/// The clauses of the predefined predicates that aren't computed: `is in` and `followed by`.
#[tactic(auto, unfolding(crate::specs::Selection::prelude))]
pub fn prelude(alloc: Global) -> Result<Vec<Clause>, AllocError>
    ensures { IfOk result (λ clauses. clauses.items ≡ prelude_of) }
{
    let mut clauses = Vec::new(alloc);
    clauses.push(first_is_in(alloc)?)?;
    clauses.push(later_is_in(alloc)?)?;
    clauses.push(none_followed(alloc)?)?;
    clauses.push(some_followed(alloc)?)?;
    Ok(clauses)
}

// X is in [X | L].
fn first_is_in(alloc: Global) -> Result<Clause, AllocError>
    ensures { IfOk result (λ c. c ≡ prelude_clause 18 (variable 0 ∷ cell (variable 0) (variable 1) ∷ []) [] 2) }
{
    let args = two(alloc, var(alloc, 0)?, pair(alloc, 0, 1)?)?;
    Ok(clause(18, args, Literals::from_vec(Vec::new(alloc)), 2))
}

// X is in [Y | L] if X is in L.
fn later_is_in(alloc: Global) -> Result<Clause, AllocError>
    ensures { IfOk result (λ c. c ≡ prelude_clause 18 (variable 0 ∷ cell (variable 1) (variable 2) ∷ []) (prelude_literal 18 (variable 0 ∷ variable 2 ∷ []) ∷ []) 3) }
{
    let args = two(alloc, var(alloc, 0)?, pair(alloc, 1, 2)?)?;
    let inside = two(alloc, var(alloc, 0)?, var(alloc, 2)?)?;
    Ok(clause(18, args, body(alloc, 18, inside)?, 3))
}

// [] followed by L is L.
fn none_followed(alloc: Global) -> Result<Clause, AllocError>
    ensures { IfOk result (λ c. c ≡ prelude_clause 19 (nil ∷ variable 0 ∷ variable 0 ∷ []) [] 1) }
{
    let none = Term::leaf(alloc, Sym::Nil)?;
    let args = three(alloc, none, var(alloc, 0)?, var(alloc, 0)?)?;
    Ok(clause(19, args, Literals::from_vec(Vec::new(alloc)), 1))
}

// [X | A] followed by B is [X | C] if A followed by B is C.
fn some_followed(alloc: Global) -> Result<Clause, AllocError>
    ensures { IfOk result (λ c. c ≡ prelude_clause 19 (cell (variable 0) (variable 1) ∷ variable 2 ∷ cell (variable 0) (variable 3) ∷ []) (prelude_literal 19 (variable 1 ∷ variable 2 ∷ variable 3 ∷ []) ∷ []) 4) }
{
    let args = three(
        alloc,
        pair(alloc, 0, 1)?,
        var(alloc, 2)?,
        pair(alloc, 0, 3)?,
    )?;
    let inside = three(alloc, var(alloc, 1)?, var(alloc, 2)?, var(alloc, 3)?)?;
    Ok(clause(19, args, body(alloc, 19, inside)?, 4))
}

// A clause of a predefined predicate.
fn clause(pred: u32, args: Terms, body: Literals, vars: u32) -> Clause
    ensures { result ≡ prelude_clause pred args body vars }
{
    Clause {
        head: Atom { pred, args },
        body,
        vars,
        line: 0,
        kind: ClauseKind::Prelude,
    }
}

// A body of one atom.
fn body(alloc: Global, pred: u32, args: Terms) -> Result<Literals, AllocError>
    ensures { IfOk result (λ body. body ≡ prelude_literal pred args ∷ []) }
{
    let mut literals = Vec::new(alloc);
    literals.push(Literal {
        line: 0,
        form: Form::Pos(Atom { pred, args }),
    })?;
    Ok(Literals::from_vec(literals))
}

// A variable.
fn var(alloc: Global, number: u32) -> Result<Term, AllocError>
    ensures { IfOk result (λ t. t ≡ variable number) }
{
    Term::leaf(alloc, Sym::Var(number))
}

// A cell of two variables.
fn pair(alloc: Global, head: u32, tail: u32) -> Result<Term, AllocError>
    ensures { IfOk result (λ t. t ≡ cell (variable head) (variable tail)) }
{
    let head = var(alloc, head)?;
    let tail = var(alloc, tail)?;
    Term::cons(alloc, &head, &tail)
}

// Two arguments.
fn two(alloc: Global, first: Term, second: Term) -> Result<Terms, AllocError>
    ensures { IfOk result (λ terms. terms ≡ first ∷ second ∷ []) }
{
    let mut terms = Vec::new(alloc);
    terms.push(first)?;
    terms.push(second)?;
    Ok(Terms::from_vec(terms))
}

// Three arguments.
fn three(alloc: Global, first: Term, second: Term, third: Term) -> Result<Terms, AllocError>
    ensures { IfOk result (λ terms. terms ≡ first ∷ second ∷ third ∷ []) }
{
    let mut terms = Vec::new(alloc);
    terms.push(first)?;
    terms.push(second)?;
    terms.push(third)?;
    Ok(Terms::from_vec(terms))
}
