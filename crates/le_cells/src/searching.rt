ghost use Rattle.std.specs.Prelude.{◌≡◌, ◌∷◌, ◌++◌, [], ℕ, suc, List, length, reverse, Some, None, OnOk};
ghost use Rattle.le_terms.specs.Tree.{Tree};
ghost use Rattle.le_terms.specs.declared.program.Atom.{Atom as AnyAtom};
ghost use Rattle.le_terms.specs.declared.program.Form.TheVariants.{Pos};
ghost use Rattle.le_terms.specs.declared.program.Literal.{Literal as AnyLiteral};
ghost use Rattle.le_terms.specs.declared.program.Program.{Program as AnyProgram};
ghost use Rattle.le_proofs.specs.Proofs.{Step};
ghost use Rattle.le_proofs.specs.SearchTree.{empty_leaf, first_proof};
ghost use Rattle.le_proofs.specs.UnderWay.{leaf_along};
ghost use Rattle.le_proofs.specs.Derivations.{proof_nodes};
ghost use Rattle.le_proofs.specs.declared.node.Node.TheVariants.{Present};
ghost use Rattle.le_paths.specs.Paths.{LeadHere};
ghost use Rattle.le_cells.specs.Keeping.{goal_now, Selects, AreFalling, open_marks};
ghost use Rattle.le_cells.specs.Turns.{Extends, Leads, opened, past};

use crate::goals::{OpenGoal, Search};
use le_base::Copied;
use le_goals::Goals;
use le_paths::{CellStep, proof_along};
use le_proofs::{Node, Nodes};
use std::alloc::{AllocError, Global};

// A search of which nothing was visited.
pub(crate) fn begun(alloc: Global, keeps: bool) -> Search
    ensures keeps { result.keeps ≡ keeps }
    ensures path { result.path.items ≡ [] }
    ensures nodes { result.nodes.items ≡ [] }
    ensures opens { result.opens.items ≡ [] }
{
    Search {
        keeps,
        path: Vec::new(alloc),
        nodes: Vec::new(alloc),
        opens: Vec::new(alloc),
    }
}

// Notes a node, where nodes are kept.
pub(crate) fn note(search: &mut Search, node: Node) -> Result<(), AllocError>
    ensures { OnOk result (Extends search.old search.new [] (node ∷ [])) }
{
    if search.keeps {
        search.nodes.push(node)?;
    }
    Ok(())
}

// Notes a node and those below it, where nodes are kept.
pub(crate) fn note_all(
    alloc: Global,
    search: &mut Search,
    node: Node,
    below: &[Node],
) -> Result<(), AllocError>
    ensures { OnOk result (Extends search.old search.new [] (node ∷ below.now)) }
{
    if search.keeps {
        push_all(alloc, &mut search.nodes, node, below)?;
    }
    Ok(())
}

// Appends a node and copies of others.
fn push_all(
    alloc: Global,
    nodes: &mut Vec<Node>,
    node: Node,
    below: &[Node],
) -> Result<(), AllocError>
    ensures { OnOk result (nodes.new.items ≡ nodes.old.items ++ (node ∷ below.now)) }
{
    nodes.push(node)?;
    for one in below {
        nodes.push(one.copy(alloc)?)?;
    }
    Ok(())
}

// Goes on by a step past a literal, below which these nodes are, and notes a node before them.
pub(crate) fn go_past(
    alloc: Global,
    search: &mut Search,
    node: Node,
    goal: usize,
    place: usize,
    below: Vec<Node>,
) -> Result<(), AllocError>
    ensures { OnOk result (Extends search.old search.new (past goal place below.items ∷ []) (node ∷ below.items)) }
{
    note_all(alloc, search, node, &below)?;
    search.path.push(CellStep {
        goal,
        place,
        clause: 0,
        count: 0,
        below: Nodes::from_vec(below),
    })?;
    Ok(())
}

// Notes that a negation's atom has a proof, to whose end this path led.
pub(crate) fn note_present(
    alloc: Global,
    goals: &Goals<'_>,
    search: &mut Search,
    path: &[CellStep],
) -> Result<(), AllocError>
    ensures present { OnOk result ((steps : List Step) (terms : List Tree) (left : ℕ) → LeadHere goals.now.now (reverse path.now) steps → Extends search.old search.new [] (Present ∷ proof_nodes (first_proof (leaf_along steps (empty_leaf terms left))))) }
    ensures opens { OnOk result (search.new.opens.items ≡ search.old.opens.items) }
{
    if search.keeps {
        let proof = proof_along(alloc, goals, path)?;
        push_all(alloc, &mut search.nodes, Node::Present, &proof)?;
    }
    Ok(())
}

// Leaves a goal open whose selected literal, at this place, is an atom.
pub(crate) fn split(
    goals: &mut Goals<'_>,
    search: &mut Search,
    goal: usize,
    place: usize,
) -> Result<(), AllocError>
    requires marked { (others : List ℕ) × AreFalling (length goals.old.marks) (open_marks search.old.opens.items others) }
    ensures leads { OnOk result ((left : ℕ) (program : AnyProgram) (literal : AnyLiteral) (atom : AnyAtom) → Selects program (goal_now goals.old goal).literals place literal → literal.form ≡ Pos atom → Leads program goals.old search.old (Some (goal_now goals.old goal)) (suc left) goals.new search.new None left) }
    ensures keeps { OnOk result (search.new.keeps ≡ search.old.keeps) }
    ensures opens { OnOk result (search.new.opens.items ≡ search.old.opens.items ++ opened goals.old search.old goal place ∷ []) }
    ensures marks { OnOk result (goals.new.marks ≡ goals.old.marks ++ goals.old.now ∷ []) }
    ensures program { goals.new.program ≡ goals.old.program }
{
    let split = search.nodes.len();
    note(search, Node::Split { count: 0 })?;
    let mark = goals.mark()?;
    search.opens.push(OpenGoal {
        mark,
        goal,
        place,
        from: 0,
        steps: search.path.len(),
        split,
        children: 0,
    })?;
    Ok(())
}
