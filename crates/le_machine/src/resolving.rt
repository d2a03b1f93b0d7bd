ghost use Rattle.std.specs.Prelude.{◌≡◌, ◌+◌, ◌^◌, ◌<◌, length, option_map, IfOk};
ghost use Rattle.le_terms.specs.Program.{IsClause};
ghost use Rattle.le_terms.specs.declared.program.Literal.{Literal as AnyLiteral};
ghost use Rattle.le_proofs.specs.Goals.{literals_under, raised, head_solution, child_by};
ghost use Rattle.le_machine.specs.Keeping.{goal_of, child_of, placed, goal_with};

use crate::goals::{Child, Goal};
use le_literals::{Change, changed_terms, head_equations, push_changed};
use le_subst::{Subst, solve};
use le_terms::{Atom, Clause, Literal, Term};
use std::alloc::{AllocError, Global};

// The child of a goal by the clause of this number, where this is the atom at this place, or none where the head
// doesn't unify with it.
pub(crate) fn resolve(
    alloc: Global,
    goal: &Goal,
    place: usize,
    atom: &Atom,
    number: u32,
    clause: &Clause,
) -> Result<Option<Child>, AllocError>
    requires clause { IsClause clause.now }
    requires short { length clause.now.body < 2 ^ 31 }
    requires fits { goal.now.next + 64 < 2 ^ 32 }
    requires inside { place < length goal.now.literals.items }
    ensures { IfOk result (λ answer. (literal : AnyLiteral) → option_map child_of answer ≡ option_map (child_by (goal_of goal.now) (placed goal.now.literals.items place literal) number clause.now) (head_solution goal.now.next clause.now atom.now)) }
{
    match unify_head(alloc, goal.next, clause, atom)? {
        None => Ok(None),
        Some(unifier) => Ok(Some(Child {
            clause: number,
            count: clause.body.as_slice().len() as u32,
            goal: resolved(alloc, goal, place, clause, &unifier)?,
            unifier,
        })),
    }
}

// The most general unifier of a clause's head, renamed apart, and an atom, or none.
fn unify_head(
    alloc: Global,
    next: u32,
    clause: &Clause,
    atom: &Atom,
) -> Result<Option<Subst>, AllocError>
    requires clause { IsClause clause.now }
    requires fits { next + 64 < 2 ^ 32 }
    ensures { IfOk result (λ answer. answer ≡ head_solution next clause.now atom.now) }
{
    if clause.head.pred != atom.pred {
        return Ok(None);
    }
    let equations = head_equations(
        alloc,
        next,
        clause.head.args.as_slice(),
        atom.args.as_slice(),
    )?;
    solve(alloc, &equations)
}

// The resolvent that a unifier gives.
fn resolved(
    alloc: Global,
    goal: &Goal,
    place: usize,
    clause: &Clause,
    subst: &Subst,
) -> Result<Goal, AllocError>
    requires clause { IsClause clause.now }
    requires fits { goal.now.next + 64 < 2 ^ 32 }
    requires inside { place < length goal.now.literals.items }
    ensures { IfOk result (λ new. goal_of new ≡ goal_with (goal_of goal.now) place (goal.now.next + clause.now.vars) (literals_under (raised goal.now.next) clause.now.body) subst.now) }
{
    let mut body = Vec::with_capacity(alloc, clause.body.as_slice().len())?;
    push_changed(
        alloc,
        &mut body,
        &Change::Raise(goal.next),
        clause.body.as_slice(),
    )?;
    replaced_literal(alloc, goal, place, goal.next + clause.vars, &body, subst)
}

// A goal with other literals in the place of one, and another next variable, under a unifier.
pub(crate) fn replaced_literal(
    alloc: Global,
    goal: &Goal,
    place: usize,
    next: u32,
    new: &[Literal],
    subst: &Subst,
) -> Result<Goal, AllocError>
    requires inside { place < length goal.now.literals.items }
    ensures { IfOk result (λ changed. goal_of changed ≡ goal_with (goal_of goal.now) place next new.now subst.now) }
{
    let apply = Change::Apply(subst);
    let mut literals = Vec::new(alloc);
    push_changed(alloc, &mut literals, &apply, &goal.literals[..place])?;
    push_changed(alloc, &mut literals, &apply, new)?;
    push_changed(alloc, &mut literals, &apply, &goal.literals[place + 1..])?;
    Ok(Goal {
        next,
        literals,
        terms: changed_terms(alloc, &apply, &goal.terms)?,
    })
}
