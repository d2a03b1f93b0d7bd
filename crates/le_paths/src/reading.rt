ghost use Rattle.std.specs.Prelude.{◌≡◌, map, IfOk};
ghost use Rattle.le_paths.specs.Paths.{node_by, step_now};

use crate::step::CellStep;
use le_base::Copied;
use le_derivations::PathStep;
use le_goals::Goals;
use le_proofs::Node;
use le_subst::Subst;
use le_terms::Form;
use std::alloc::{AllocError, Global};

// The steps of a path with the terms of their literals as they are now.
pub(crate) fn steps_now(
    alloc: Global,
    goals: &Goals<'_>,
    path: &[CellStep],
) -> Result<Vec<PathStep>, AllocError>
    ensures { IfOk result (λ steps. steps.items ≡ map (step_now goals.now.now) path.now) }
{
    let mut steps = Vec::with_capacity(alloc, path.len())?;
    for step in path {
        steps.push(step_now(alloc, goals, step)?)?;
    }
    Ok(steps)
}

// The step with the terms of its literal as they are now.
fn step_now(alloc: Global, goals: &Goals<'_>, step: &CellStep) -> Result<PathStep, AllocError>
    ensures { IfOk result (λ read. read ≡ step_now goals.now.now step.now) }
{
    let Some(literal) = goals.literal_at(alloc, step.goal, step.place)? else {
        // Each step of a path stands at a literal of its goal.
        return Err(AllocError);
    };
    Ok(PathStep {
        place: step.place,
        unifier: Subst::empty(alloc),
        node: node_by(literal.form, step.clause, step.count),
        below: step.below.copy(alloc)?,
    })
}

// The node of the proof of a literal of this form, by a clause of this number with so many literals where it
// is an atom.
fn node_by(form: Form, clause: u32, count: u32) -> Node
    ensures { result ≡ node_by form clause count }
{
    match form {
        Form::Pos(atom) => Node::Use {
            clause,
            count,
            atom,
        },
        Form::Neg(atom) => Node::Absent { atom },
        Form::Calc(atom) => Node::Compute { atom },
        Form::Gather {
            fold,
            result,
            value,
            atom,
        } => Node::Gather {
            fold,
            result,
            value,
            atom,
        },
    }
}
