ghost use Rattle.std.specs.Prelude.{◌≡◌, IfOk};
ghost use Rattle.le_proofs.specs.Goals.{root_of, asked_terms};
ghost use Rattle.le_machine.specs.Keeping.{goal_of};

use crate::goals::Goal;
use le_base::Copied;
use le_terms::{Asked, Program, Sym, Term};
use std::alloc::{AllocError, Global};

// The goal that a program's query begins with.
pub(crate) fn root(alloc: Global, program: &Program) -> Result<Goal, AllocError>
    ensures { IfOk result (λ goal. goal_of goal ≡ root_of program.now) }
{
    Ok(Goal {
        next: program.vars,
        literals: program.query.copy(alloc)?.into_vec(),
        terms: asked_terms(alloc, program.asked.as_slice())?,
    })
}

// The variables that are asked for.
fn asked_terms(alloc: Global, asked: &[Asked]) -> Result<Vec<Term>, AllocError>
    ensures { IfOk result (λ terms. terms.items ≡ asked_terms asked.now) }
{
    let mut terms = Vec::with_capacity(alloc, asked.len())?;
    for one in asked {
        terms.push(Term::leaf(alloc, Sym::Var(one.var))?)?;
    }
    Ok(terms)
}
