ghost use Rattle.std.specs.Prelude.{◌≡◌, ◌≤◌, ◌<◌, ◌+◌, ◌^◌, ℕ, IsTrue, IfOk, OnOk};
ghost use Rattle.le_gather.specs.Folds.{fold_of};
ghost use Rattle.le_terms.specs.Program.{IsClause};
ghost use Rattle.le_proofs.specs.Goals.{head_solution};
ghost use Rattle.le_proofs.specs.Search.{computing, by_fold};
ghost use Rattle.le_check.specs.Goals.{IsOutcome, CanCompute};

use crate::equating::{computed, folded};
use crate::goal::Outcome;
use crate::resolving::unify_head;
use le_base::FoldKind;
use le_subst::{Steps, Subst};
use le_terms::{Atom, Clause, Term};
use std::alloc::{AllocError, Global};
use std::sync::ledger::Ledger;

// Takes one of the steps that are allowed. There is one for each node, and no node takes two.
fn take(allowed: &mut usize) -> Result<(), AllocError>
    ensures taken { OnOk result (allowed.new + 1 ≡ allowed.old) }
    ensures fewer { allowed.new ≤ allowed.old }
{
    if *allowed == 0 {
        return Err(AllocError);
    }
    *allowed -= 1;
    Ok(())
}

// What becomes of a computed literal with this atom, by one step of those allowed.
pub(crate) fn computed_counted<L: Ledger>(
    alloc: Global,
    atom: &Atom,
    steps: &mut Steps<L>,
    allowed: &mut usize,
) -> Result<Outcome, AllocError>
    requires computable { CanCompute atom.now }
    ensures exact { IfOk result (λ outcome. (line : ℕ) → IsOutcome outcome (computing line atom.now)) }
    ensures steps { steps.new + allowed.new ≤ steps.old + allowed.old }
{
    take(allowed)?;
    computed(alloc, atom, steps)
}

// What becomes of a gather, by one step of those allowed.
pub(crate) fn folded_counted<L: Ledger>(
    alloc: Global,
    kind: FoldKind,
    target: &Term,
    values: &[Term],
    steps: &mut Steps<L>,
    allowed: &mut usize,
) -> Result<Outcome, AllocError>
    ensures exact { IfOk result (λ outcome. (line : ℕ) → IsOutcome outcome (by_fold line target.now (fold_of kind values.now))) }
    ensures steps { steps.new + allowed.new ≤ steps.old + allowed.old }
{
    take(allowed)?;
    folded(alloc, kind, target, values, steps)
}

// The most general unifier of a clause's head, renamed apart, and an atom, or none, by one step of those allowed.
// A goal with more variables than fit has more nodes above it than there are.
pub(crate) fn unify_counted<L: Ledger>(
    alloc: Global,
    next: u32,
    clause: &Clause,
    atom: &Atom,
    steps: &mut Steps<L>,
    allowed: &mut usize,
) -> Result<Option<Subst>, AllocError>
    requires clause { IsClause clause.now }
    requires fits { next + 64 < 2 ^ 32 }
    ensures exact { IfOk result (λ answer. answer ≡ head_solution next clause.now atom.now) }
    ensures steps { steps.new + allowed.new ≤ steps.old + allowed.old }
{
    take(allowed)?;
    unify_head(alloc, next, clause, atom, steps)
}

// How many arguments each computed predicate has.
const ARITIES: [usize; 18] = [2, 2, 2, 2, 2, 2, 2, 2, 2, 2, 3, 3, 3, 3, 3, 3, 3, 2];

// Whether an atom's predicate is a computed one, with its number of arguments.
pub(crate) fn can_compute(atom: &Atom) -> bool
    ensures { IsTrue result → CanCompute atom.now }
{
    let pred = atom.pred as usize;
    pred < ARITIES.len() && ARITIES[pred] == atom.args.as_slice().len()
}
