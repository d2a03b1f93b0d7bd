ghost use Rattle.std.specs.Prelude.{◌≡◌, ℕ, List, reverse, IfOk};
ghost use Rattle.le_terms.specs.Tree.{Tree};
ghost use Rattle.le_proofs.specs.Proofs.{Step};
ghost use Rattle.le_proofs.specs.SearchTree.{empty_leaf, first_proof};
ghost use Rattle.le_proofs.specs.UnderWay.{leaf_along};
ghost use Rattle.le_proofs.specs.Derivations.{certificate_of, proof_nodes};
ghost use Rattle.le_goals.specs.Shown.{goal_at};
ghost use Rattle.le_paths.specs.Paths.{LeadHere};

use crate::reading::steps_now;
use crate::step::CellStep;
use le_derivations::{derivation_of, proof_of};
use le_goals::Goals;
use le_proofs::{Derivation, Node};
use std::alloc::{AllocError, Global};

/// The derivation of the success leaf that a path leads to from its first step to its last, where this is the goal
/// there. The literals of the steps are read as they are now, once each.
pub fn derivation_along(
    alloc: Global,
    goals: &Goals<'_>,
    path: &[CellStep],
    goal: usize,
) -> Result<Derivation, AllocError>
    ensures { IfOk result (λ derivation. (steps : List Step) (left : ℕ) → LeadHere goals.now.now (reverse path.now) steps → derivation.nodes ≡ (certificate_of (leaf_along steps (empty_leaf (goal_at goals.now.now goal).terms left))).nodes) }
{
    let steps = steps_now(alloc, goals, path)?;
    let terms = goals.terms_at(alloc, goal)?;
    derivation_of(alloc, &steps, &terms)
}

/// The nodes of the proof of a goal's only literal that a path leads to from its first step to its last. Their
/// variables are those of the search. The literals of the steps are read as they are now, once each.
pub fn proof_along(
    alloc: Global,
    goals: &Goals<'_>,
    path: &[CellStep],
) -> Result<Vec<Node>, AllocError>
    ensures { IfOk result (λ nodes. (steps : List Step) (terms : List Tree) (left : ℕ) → LeadHere goals.now.now (reverse path.now) steps → nodes.items ≡ proof_nodes (first_proof (leaf_along steps (empty_leaf terms left)))) }
{
    let steps = steps_now(alloc, goals, path)?;
    proof_of(alloc, &steps)
}
