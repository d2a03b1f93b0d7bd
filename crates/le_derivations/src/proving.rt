ghost use Rattle.std.specs.Prelude.{◌≡◌, ◌∷◌, [], ◌-◌, ◌++◌, ◌≤◌, ◌<◌, ◌^◌, take, drop, length, min, reverse, IfOk, OnOk};
ghost use Rattle.le_proofs.specs.Proofs.{Step, Leaf, from_above};
ghost use Rattle.le_proofs.specs.Replay.{behind};
ghost use Rattle.le_derivations.specs.Paths.{IsStep, AreProofs, IsPartWay, count_of, with_count};

use crate::changing::{Change, changed_node};
use crate::path::PathStep;
use crate::scopes::parts_of;
use le_base::Copied;
use le_proofs::Node;
use le_subst::Subst;
use std::alloc::{AllocError, Global};

// The proofs of the literals of a goal on a path, and what becomes of its variables from there on.
#[derive(Drop)]
pub(crate) struct Proving {
    // The nodes of the proofs, the last first.
    pub(crate) nodes: Vec<Node>,
    // How many proofs they are.
    pub(crate) proofs: usize,
    // What becomes of a variable.
    pub(crate) by: Subst,
}

// The proofs that a path from a goal to one without literals gives, the path's last step first.
pub(crate) fn proved(alloc: Global, path: &[PathStep]) -> Result<Proving, AllocError>
    ensures { IfOk result (λ proving. (whole : Leaf) → IsPartWay (reverse path.now) [] 0 [] whole → AreProofs (reverse proving.nodes.items) proving.proofs proving.by whole) }
{
    let mut proving = Proving {
        nodes: Vec::new(alloc),
        proofs: 0,
        by: Subst::empty(alloc),
    };
    let mut at = path.len();
    while at > 0 {
        at -= 1;
        add_step(alloc, &mut proving, &path[at])?;
    }
    Ok(proving)
}

// Goes up one step.
fn add_step(alloc: Global, proving: &mut Proving, step: &PathStep) -> Result<(), AllocError>
    ensures { OnOk result ((abstract : Step) (leaf : Leaf) → IsStep step.now abstract → AreProofs (reverse proving.old.nodes.items) proving.old.proofs proving.old.by leaf → AreProofs (reverse proving.new.nodes.items) proving.new.proofs proving.new.by (from_above abstract leaf)) }
{
    proving.by.put_after(alloc, &step.unifier)?;
    let taken = taken_proofs(proving.proofs, step.place, &step.node);
    let node = changed_node(alloc, &Change::Apply(&proving.by), &step.node)?;
    let first = with_count(node, taken);
    let at = front_end(&proving.nodes, step.place)?;
    put_in(alloc, &mut proving.nodes, at, first, step.below.as_slice())?;
    let Some(proofs) = (proving.proofs - taken).checked_add(1) else {
        return Err(AllocError);
    };
    proving.proofs = proofs;
    Ok(())
}

// How many of some proofs, after those before a place, stand below a node.
fn taken_proofs(proofs: usize, place: usize, node: &Node) -> usize
    ensures { result ≡ min (count_of node.now) (proofs - place) }
{
    let behind = proofs.saturating_sub(place);
    match node {
        Node::Use { count, .. } => behind.min(*count as usize),
        _ => 0,
    }
}

// A node with so many proofs below it.
fn with_count(node: Node, proofs: usize) -> Node
    requires { proofs < 2 ^ 32 }
    ensures { result ≡ with_count proofs node }
{
    match node {
        Node::Use { clause, atom, .. } => Node::Use {
            clause,
            count: proofs as u32,
            atom,
        },
        other => other,
    }
}

// Where the nodes of the first proofs, so many, begin among those of all, which stand the last first.
fn front_end(nodes: &[Node], proofs: usize) -> Result<usize, AllocError>
    ensures inside { IfOk result (λ at. at ≤ length nodes.now) }
    ensures behind { IfOk result (λ at. reverse (take at nodes.now) ≡ behind proofs (reverse nodes.now)) }
{
    let mut parts = proofs;
    let mut at = nodes.len();
    while parts > 0 && at > 0 {
        at -= 1;
        // So many parts don't fit in memory.
        let Some(more) = (parts - 1).checked_add(parts_of(&nodes[at])) else {
            return Err(AllocError);
        };
        parts = more;
    }
    Ok(at)
}

// Puts a node and those below it among nodes at a place, where all stand the last first.
fn put_in(
    alloc: Global,
    nodes: &mut Vec<Node>,
    at: usize,
    node: Node,
    below: &[Node],
) -> Result<(), AllocError>
    requires { at ≤ length nodes.old.items }
    ensures { OnOk result (reverse nodes.new.items ≡ reverse (drop at nodes.old.items) ++ (node ∷ (below.now ++ reverse (take at nodes.old.items)))) }
{
    let mut front = nodes.split_off(at)?;
    push_reversed(alloc, nodes, below)?;
    nodes.push(node)?;
    nodes.append(&mut front)?;
    Ok(())
}

// Appends nodes, the last first.
fn push_reversed(alloc: Global, nodes: &mut Vec<Node>, more: &[Node]) -> Result<(), AllocError>
    ensures { OnOk result (reverse nodes.new.items ≡ more.now ++ reverse nodes.old.items) }
{
    let mut at = more.len();
    while at > 0 {
        at -= 1;
        nodes.push(more[at].copy(alloc)?)?;
    }
    Ok(())
}
