ghost use Rattle.std.specs.Prelude.{◌≡◌, ◌≢◌, ◌+◌, ◌^◌, ◌<◌, ◌≤◌, ◌∷◌, [], map, length, IfOk};
ghost use Rattle.le_terms.specs.Program.{IsClause, IsProgram};
ghost use Rattle.le_terms.specs.declared.program.Literal.{Literal as AnyLiteral};
ghost use Rattle.le_terms.specs.declared.program.Form.TheVariants.{Pos};
ghost use Rattle.le_proofs.specs.Goals.{Child, children, head_solution, resolvent_by, rest_by, rest_goal};
ghost use Rattle.le_proofs.specs.Replay.{clauses_of};
ghost use Rattle.le_check.specs.Resolvents.{goal_with};
ghost use Rattle.le_check.specs.Goals.{goal_of, placed};

use crate::goal::Goal;
use le_base::Copied;
use le_literals::{Change, changed_terms, head_equations, push_changed};
use le_subst::{Steps, Subst, solve_counted};
use le_terms::{Atom, Clause, Form, Literal, Program, Term};
use std::alloc::{AllocError, Global};
use std::sync::ledger::Ledger;

// The most general unifier of a clause's head, renamed apart, and an atom, or none, by at most one step.
pub(crate) fn unify_head<L: Ledger>(
    alloc: Global,
    next: u32,
    clause: &Clause,
    atom: &Atom,
    steps: &mut Steps<L>,
) -> Result<Option<Subst>, AllocError>
    requires clause { IsClause clause.now }
    requires fits { next + 64 < 2 ^ 32 }
    ensures exact { IfOk result (λ answer. answer ≡ head_solution next clause.now atom.now) }
    ensures steps { steps.new ≤ steps.old + 1 }
    ensures others { clause.now.head.pred ≢ atom.now.pred → steps.new ≡ steps.old }
{
    if clause.head.pred != atom.pred {
        return Ok(None);
    }
    let equations = head_equations(
        alloc,
        next,
        clause.head.args.as_slice(),
        atom.args.as_slice(),
    )?;
    solve_counted(alloc, &equations, steps)
}

// The resolvent of a goal by a clause, in the place of the literal at this place, under a unifier.
pub(crate) fn resolvent(
    alloc: Global,
    goal: &Goal,
    place: usize,
    clause: &Clause,
    subst: &Subst,
) -> Result<Goal, AllocError>
    requires clause { IsClause clause.now }
    requires fits { goal.now.next + 64 < 2 ^ 32 }
    requires inside { place < length goal.now.literals.items }
    ensures { IfOk result (λ new. (literal : AnyLiteral) → goal_of new ≡ resolvent_by (goal_of goal.now) (placed goal.now.literals.items place literal) clause.now subst.now) }
{
    let mut body = Vec::with_capacity(alloc, clause.body.as_slice().len())?;
    push_changed(
        alloc,
        &mut body,
        &Change::Raise(goal.next),
        clause.body.as_slice(),
    )?;
    replaced_literal(alloc, goal, place, goal.next + clause.vars, &body, subst)
}

// A goal with other literals in the place of one, and another next variable, under a unifier.
fn replaced_literal(
    alloc: Global,
    goal: &Goal,
    place: usize,
    next: u32,
    new: &[Literal],
    subst: &Subst,
) -> Result<Goal, AllocError>
    requires inside { place < length goal.now.literals.items }
    ensures { IfOk result (λ changed. goal_of changed ≡ goal_with (goal_of goal.now) place next new.now subst.now) }
{
    let apply = Change::Apply(subst);
    let mut literals = Vec::new(alloc);
    push_changed(alloc, &mut literals, &apply, &goal.literals[..place])?;
    push_changed(alloc, &mut literals, &apply, new)?;
    push_changed(alloc, &mut literals, &apply, &goal.literals[place + 1..])?;
    Ok(Goal {
        next,
        literals,
        terms: changed_terms(alloc, &apply, &goal.terms)?,
    })
}

// A goal without the literal at a place, under a unifier.
pub(crate) fn rest_under(
    alloc: Global,
    goal: &Goal,
    place: usize,
    subst: &Subst,
) -> Result<Goal, AllocError>
    requires inside { place < length goal.now.literals.items }
    ensures { IfOk result (λ new. (literal : AnyLiteral) → goal_of new ≡ rest_by (goal_of goal.now) (placed goal.now.literals.items place literal) subst.now) }
{
    replaced_literal(alloc, goal, place, goal.next, &[], subst)
}

// A goal without the literal at a place.
pub(crate) fn rest(goal: Goal, place: usize) -> Goal
    requires inside { place < length goal.literals.items }
    ensures { (literal : AnyLiteral) → goal_of result ≡ rest_goal (goal_of goal) (placed goal.literals.items place literal) }
{
    let mut rest = goal;
    rest.literals.remove(place);
    rest
}

// The goal of an atom's own search, whose answers these terms are asked for.
pub(crate) fn sub_goal(
    alloc: Global,
    next: u32,
    line: u32,
    atom: &Atom,
    terms: Vec<Term>,
) -> Result<Goal, AllocError>
    ensures { IfOk result (λ goal. goal_of goal ≡ record { next = next; literals = record { line = line; form = Pos atom.now } ∷ []; terms = terms.items }) }
{
    let mut literals = Vec::with_capacity(alloc, 1)?;
    literals.push(Literal {
        line,
        form: Form::Pos(atom.copy(alloc)?),
    })?;
    Ok(Goal {
        next,
        literals,
        terms,
    })
}

// The numbers of the clauses, counted from 1, whose heads unify with a goal's atom at a place, by at most one step for
// each clause of its predicate.
pub(crate) fn unifying_clauses<L: Ledger>(
    alloc: Global,
    program: &Program,
    goal: &Goal,
    place: usize,
    atom: &Atom,
    steps: &mut Steps<L>,
) -> Result<Vec<u32>, AllocError>
    requires program { IsProgram program.now }
    requires fits { goal.now.next + 64 < 2 ^ 32 }
    ensures exact { IfOk result (λ numbers. (literal : AnyLiteral) → map (λ (child : Child). child.clause) (children (goal_of goal.now) (placed goal.now.literals.items place literal) atom.now 1 program.now.clauses) ≡ numbers.items) }
    ensures steps { steps.new ≤ steps.old + clauses_of program.now atom.now.pred }
{
    let mut numbers = Vec::new(alloc);
    for (place_of, clause) in program.clauses.as_slice().iter().enumerate() {
        if unify_head(alloc, goal.next, clause, atom, steps)?.is_some() {
            numbers.push(place_of as u32 + 1)?;
        }
    }
    Ok(numbers)
}
