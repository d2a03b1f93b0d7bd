ghost use Rattle.std.specs.Prelude.{◌≡◌, ◌∷◌, ◌++◌, [], ℕ, suc, List, reverse, Some, None, OnOk};
ghost use Rattle.le_terms.specs.declared.program.Atom.{Atom as AnyAtom};
ghost use Rattle.le_terms.specs.declared.program.Form.TheVariants.{Pos};
ghost use Rattle.le_terms.specs.declared.program.Literal.{Literal as AnyLiteral};
ghost use Rattle.le_terms.specs.declared.program.Program.{Program as AnyProgram};
ghost use Rattle.le_proofs.specs.Proofs.{Step};
ghost use Rattle.le_terms.specs.Tree.{Tree};
ghost use Rattle.le_proofs.specs.SearchTree.{empty_leaf, first_proof};
ghost use Rattle.le_proofs.specs.UnderWay.{leaf_along};
ghost use Rattle.le_proofs.specs.Derivations.{proof_nodes};
ghost use Rattle.le_proofs.specs.declared.node.Node.TheVariants.{Present};
ghost use Rattle.le_derivations.specs.Paths.{AreSteps};
ghost use Rattle.le_machine.specs.Keeping.{goal_of, Selects, IsOpen, AreOpen};
ghost use Rattle.le_machine.specs.Turns.{Extends, Leads};

use crate::goals::{Goal, OpenGoal, Search};
use le_base::Copied;
use le_derivations::{PathStep, proof_of};
use le_proofs::Node;
use std::alloc::{AllocError, Global};

// A search of which nothing was visited.
pub(crate) fn begun(alloc: Global, keeps: bool) -> Search
    ensures keeps { result.keeps ≡ keeps }
    ensures path { result.path.items ≡ [] }
    ensures nodes { result.nodes.items ≡ [] }
    ensures opens { result.opens.items ≡ [] }
{
    Search {
        keeps,
        path: Vec::new(alloc),
        nodes: Vec::new(alloc),
        opens: Vec::new(alloc),
    }
}

// Notes a node, where nodes are kept.
pub(crate) fn note(search: &mut Search, node: Node) -> Result<(), AllocError>
    ensures { OnOk result (Extends search.old search.new [] (node ∷ [])) }
{
    if search.keeps {
        search.nodes.push(node)?;
    }
    Ok(())
}

// Notes a node and those below it, where nodes are kept.
pub(crate) fn note_all(
    alloc: Global,
    search: &mut Search,
    node: Node,
    below: &[Node],
) -> Result<(), AllocError>
    ensures { OnOk result (Extends search.old search.new [] (node ∷ below.now)) }
{
    if search.keeps {
        push_all(alloc, &mut search.nodes, node, below)?;
    }
    Ok(())
}

// Appends a node and copies of others.
fn push_all(
    alloc: Global,
    nodes: &mut Vec<Node>,
    node: Node,
    below: &[Node],
) -> Result<(), AllocError>
    ensures { OnOk result (nodes.new.items ≡ nodes.old.items ++ (node ∷ below.now)) }
{
    nodes.push(node)?;
    for one in below {
        nodes.push(one.copy(alloc)?)?;
    }
    Ok(())
}

// Goes on by a step, and notes a node and those below the step.
pub(crate) fn go_on(
    alloc: Global,
    search: &mut Search,
    node: Node,
    step: PathStep,
) -> Result<(), AllocError>
    ensures { OnOk result (Extends search.old search.new (step ∷ []) (node ∷ step.below)) }
{
    note_all(alloc, search, node, step.below.as_slice())?;
    search.path.push(step)?;
    Ok(())
}

// Notes that a negation's atom has a proof, to whose end this path led.
pub(crate) fn note_present(
    alloc: Global,
    search: &mut Search,
    path: &[PathStep],
) -> Result<(), AllocError>
    ensures present { OnOk result ((steps : List Step) (terms : List Tree) (left : ℕ) → AreSteps (reverse path.now) steps → Extends search.old search.new [] (Present ∷ proof_nodes (first_proof (leaf_along steps (empty_leaf terms left))))) }
    ensures opens { OnOk result (search.new.opens.items ≡ search.old.opens.items) }
{
    if search.keeps {
        let proof = proof_of(alloc, path)?;
        push_all(alloc, &mut search.nodes, Node::Present, &proof)?;
    }
    Ok(())
}

// Leaves a goal open whose selected literal, at this place, is an atom.
pub(crate) fn split(search: &mut Search, goal: Goal, place: usize) -> Result<(), AllocError>
    ensures leads { OnOk result ((program : AnyProgram) (left : ℕ) (literal : AnyLiteral) (atom : AnyAtom) → Selects program goal.literals.items place literal → literal.form ≡ Pos atom → Leads program search.old (Some (goal_of goal)) (suc left) search.new None left) }
    ensures keeps { OnOk result (search.new.keeps ≡ search.old.keeps) }
    ensures opens { OnOk result ((left : ℕ) → IsOpen left goal place → AreOpen left search.old.opens.items → AreOpen left search.new.opens.items) }
{
    let split = search.nodes.len();
    note(search, Node::Split { count: 0 })?;
    search.opens.push(OpenGoal {
        goal,
        place,
        from: 0,
        steps: search.path.len(),
        split,
        children: 0,
    })?;
    Ok(())
}
