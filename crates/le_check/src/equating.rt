ghost use Rattle.std.specs.Prelude.{◌≡◌, ◌≤◌, ◌+◌, ◌∷◌, [], ℕ, IfOk};
ghost use Rattle.le_gather.specs.Folds.{fold_of};
ghost use Rattle.le_subst.specs.Solution.{solve_of};
ghost use Rattle.le_proofs.specs.Search.{by_solution, computing, by_fold};
ghost use Rattle.le_check.specs.Goals.{IsOutcome, CanCompute};

use crate::goal::Outcome;
use le_base::{Copied, FoldKind, GREATEST_NUMBER};
use le_builtins::{Calc, compute};
use le_gather::{FoldAnswer, fold};
use le_subst::{Steps, Subst, solve_counted};
use le_terms::{Atom, Sym, Term};
use std::alloc::{AllocError, Global};
use std::sync::ledger::Ledger;

// How many values a gather can have: more don't fit in memory.
const MOST_VALUES: usize = 1_000_000_000_000_000_000;

// What becomes of a computed literal with this atom, by at most one step.
pub(crate) fn computed<L: Ledger>(
    alloc: Global,
    atom: &Atom,
    steps: &mut Steps<L>,
) -> Result<Outcome, AllocError>
    requires computable { CanCompute atom.now }
    ensures exact { IfOk result (λ outcome. (line : ℕ) → IsOutcome outcome (computing line atom.now)) }
    ensures steps { steps.new ≤ steps.old + 1 }
{
    let args = atom.args.as_slice();
    match compute(atom.pred, args) {
        Calc::Same => equated(alloc, &args[0], &args[1], steps),
        Calc::Gives(sym) => {
            let right = Term::leaf(alloc, sym)?;
            equated(alloc, &args[0], &right, steps)
        }
        Calc::Holds => Ok(Outcome::GoesOn(Subst::empty(alloc))),
        Calc::No => Ok(Outcome::Fails),
        Calc::Unbound => Ok(Outcome::Ends),
        Calc::Range => Ok(Outcome::Ends),
    }
}

// What becomes of an equation, by one step.
fn equated<L: Ledger>(
    alloc: Global,
    left: &Term,
    right: &Term,
    steps: &mut Steps<L>,
) -> Result<Outcome, AllocError>
    ensures exact { IfOk result (λ outcome. IsOutcome outcome (by_solution (solve_of ((left.now, right.now) ∷ [])))) }
    ensures steps { steps.new ≤ steps.old + 1 }
{
    let mut equations = Vec::with_capacity(alloc, 1)?;
    equations.push((left.copy(alloc)?, right.copy(alloc)?))?;
    match solve_counted(alloc, &equations, steps)? {
        None => Ok(Outcome::Fails),
        Some(subst) => Ok(Outcome::GoesOn(subst)),
    }
}

// What becomes of a gather with this result, whose values are these, by at most one step.
pub(crate) fn folded<L: Ledger>(
    alloc: Global,
    kind: FoldKind,
    target: &Term,
    values: &[Term],
    steps: &mut Steps<L>,
) -> Result<Outcome, AllocError>
    ensures exact { IfOk result (λ outcome. (line : ℕ) → IsOutcome outcome (by_fold line target.now (fold_of kind values.now))) }
    ensures steps { steps.new ≤ steps.old + 1 }
{
    if values.len() > MOST_VALUES {
        return Err(AllocError);
    }
    match fold(kind, values) {
        FoldAnswer::Value(number) => {
            // It is in range, since the values are and `fold` answers `Range` for other sums.
            if number < -GREATEST_NUMBER || number > GREATEST_NUMBER {
                return Err(AllocError);
            }
            let value = Term::leaf(alloc, Sym::Num(number))?;
            equated(alloc, target, &value, steps)
        }
        FoldAnswer::No => Ok(Outcome::Fails),
        FoldAnswer::Unbound => Ok(Outcome::Ends),
        FoldAnswer::Range => Ok(Outcome::Ends),
    }
}
