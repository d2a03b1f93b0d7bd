ghost use Rattle.std.specs.Prelude.{◌≡◌, ◌∷◌, [], IfOk};
ghost use Rattle.le_terms.specs.declared.program.Form.TheVariants.{Calc as Computing};
ghost use Rattle.le_subst.specs.Solution.{solve_of};
ghost use Rattle.le_proofs.specs.Search.{by_solution, computing};
ghost use Rattle.le_machine.specs.Keeping.{outcome_of, IsComputable};
ghost use Rattle.le_machine.specs.Turns.{MayEnd};

use crate::goals::Outcome;
use le_base::Copied;
use le_builtins::{Calc, compute};
use le_proofs::Next;
use le_subst::{Subst, solve};
use le_terms::{Atom, Term};
use std::alloc::{AllocError, Global};

// What becomes of a computed literal of this line.
pub(crate) fn computed(alloc: Global, line: u32, atom: &Atom) -> Result<Outcome, AllocError>
    requires computable { IsComputable (Computing atom.now) }
    ensures outcome { IfOk result (λ outcome. outcome_of outcome ≡ computing line atom.now) }
    ensures ends { IfOk result MayEnd }
{
    let args = atom.args.as_slice();
    match compute(atom.pred, args) {
        Calc::Same => equate(alloc, &args[0], &args[1]),
        Calc::Gives(sym) => {
            let right = Term::leaf(alloc, sym)?;
            equate(alloc, &args[0], &right)
        }
        Calc::Holds => Ok(Outcome::GoesOn(Subst::empty(alloc))),
        Calc::No => Ok(Outcome::Fails),
        Calc::Unbound => Ok(Outcome::Ends(Next::Floundered(line))),
        Calc::Range => Ok(Outcome::Ends(Next::OutOfRange(line))),
    }
}

// What becomes of an equation.
pub(crate) fn equate(alloc: Global, left: &Term, right: &Term) -> Result<Outcome, AllocError>
    ensures outcome { IfOk result (λ outcome. outcome_of outcome ≡ by_solution (solve_of ((left.now, right.now) ∷ []))) }
    ensures ends { IfOk result MayEnd }
{
    let mut equations = Vec::with_capacity(alloc, 1)?;
    equations.push((left.copy(alloc)?, right.copy(alloc)?))?;
    match solve(alloc, &equations)? {
        None => Ok(Outcome::Fails),
        Some(unifier) => Ok(Outcome::GoesOn(unifier)),
    }
}
