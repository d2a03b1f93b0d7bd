ghost use Rattle.std.specs.Prelude.{◌≡◌, ◌⊎◌, ◌+◌, ◌-◌, ◌<◌, ◌≤◌, false, drop, length, IsTrue, IfOk};
ghost use Rattle.le_proofs.specs.Derivations.{parts_of};
ghost use Rattle.le_proofs.specs.Replay.{behind};
ghost use Rattle.le_english.specs.Explanations.{leaves, own_parts};
ghost use Rattle.le_english.specs.Walks.{leaf_at, others_after, own_after};

use le_proofs::Node;
use std::alloc::AllocError;

/// Parts of a derivation that aren't shown.
#[derive(Clone, Copy)]
pub struct Unshown {
    /// How many success leaves they have, without those of trees below negations and gathers in them.
    pub leaves: usize,
    /// How many nodes they are.
    pub len: usize,
}

// Parts that are still to be passed: those of other trees and proofs, and after them those of the
// trees whose leaves are counted.
#[derive(Clone, Copy)]
struct Parts {
    others: u64,
    own: u64,
}

/// The first `count` parts of these nodes. The error is that of an explanation that is too long, which
/// only nodes meet that are no derivation.
pub fn first_parts(nodes: &[Node], count: u32) -> Result<Unshown, AllocError>
    ensures leaves { IfOk result (λ found. found.leaves ≡ leaves 0 count nodes.now) }
    ensures rest { IfOk result (λ found. drop found.len nodes.now ≡ behind count nodes.now) }
    ensures within { IfOk result (λ found. found.len ≤ length nodes.now) }
{
    let mut parts = Parts {
        others: 0,
        own: u64::from(count),
    };
    let mut leaves = 0;
    let mut at = 0;
    while at < nodes.len() && has_some(parts) {
        let node = &nodes[at];
        leaves += leaf(parts, node);
        parts = parts_after(parts, node)?;
        at += 1;
    }
    Ok(Unshown { leaves, len: at })
}

// Whether a part is still to be passed.
fn has_some(parts: Parts) -> bool
    ensures some { IsTrue result → (0 < parts.others) ⊎ (0 < parts.own) }
    ensures none { result ≡ false → (parts.others ≡ 0) × (parts.own ≡ 0) }
{
    0 < parts.others || 0 < parts.own
}

// 1 for a success leaf that is counted.
fn leaf(parts: Parts, node: &Node) -> usize
    ensures leaf { result ≡ leaf_at parts.others node.now }
    ensures most { result ≤ 1 }
{
    if parts.others != 0 {
        return 0;
    }
    match node {
        Node::Success => 1,
        _ => 0,
    }
}

// The parts that are still to be passed after a node, where some are before it.
fn parts_after(parts: Parts, node: &Node) -> Result<Parts, AllocError>
    requires { (0 < parts.others) ⊎ (0 < parts.own) }
    ensures others { IfOk result (λ after. after.others ≡ others_after parts.others node.now) }
    ensures own { IfOk result (λ after. after.own ≡ own_after parts.others parts.own node.now) }
{
    let below = parts_of(node);
    if 0 < parts.others {
        let others = sum(below, parts.others - 1)?;
        return Ok(Parts {
            others,
            own: parts.own,
        });
    }
    let kept = own_parts(node);
    let own = sum(kept, parts.own - 1)?;
    Ok(Parts {
        others: below - kept,
        own,
    })
}

// The sum of two numbers, where it fits.
fn sum(one: u64, other: u64) -> Result<u64, AllocError>
    ensures { IfOk result (λ n. n ≡ one + other) }
{
    match one.checked_add(other) {
        Some(n) => Ok(n),
        None => Err(AllocError),
    }
}

// How many parts a node has below it.
fn parts_of(node: &Node) -> u64
    ensures { result ≡ parts_of node.now }
{
    match node {
        Node::Use { count, .. } | Node::Split { count } => u64::from(*count),
        Node::Compute { .. } | Node::Success | Node::Dead => 0,
        Node::Lacking | Node::Gathered => 2,
        _ => 1,
    }
}

// How many of them are parts of the same tree.
fn own_parts(node: &Node) -> u64
    ensures kept { result ≡ own_parts node.now }
    ensures most { result ≤ parts_of node.now }
{
    match node {
        Node::Split { count } => u64::from(*count),
        Node::Branch { .. } | Node::Computed | Node::Lacking | Node::Gathered => 1,
        _ => 0,
    }
}
