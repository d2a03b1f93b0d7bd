ghost use Rattle.std.specs.Prelude.{◌≡◌, ◌<◌, ◌+◌, ◌^◌, ◌++◌, [], length, reverse, IfOk, OnOk};
ghost use Rattle.le_proofs.specs.Derivations.{parts_of, scope_below, times};
ghost use Rattle.le_derivations.specs.Numbers.{scopes_of};

use le_proofs::Node;
use std::alloc::{AllocError, Global};

// The search whose variables each node of a derivation of so many literals has.
pub(crate) fn node_scopes(
    alloc: Global,
    nodes: &[Node],
    proofs: usize,
) -> Result<Vec<u64>, AllocError>
    ensures scopes { IfOk result (λ scopes. scopes.items ≡ scopes_of 1 (times proofs 0 []) nodes.now) }
    ensures all { IfOk result (λ scopes. length scopes.items ≡ length nodes.now) }
{
    let mut scopes = Vec::with_capacity(alloc, nodes.len())?;
    let mut waiting = Vec::new(alloc);
    push_times(&mut waiting, proofs, 0)?;
    for (place, node) in nodes.iter().enumerate() {
        // There is one, since the nodes of a derivation are as many as their counts say.
        let Some(scope) = waiting.pop() else {
            return Err(AllocError);
        };
        scopes.push(scope)?;
        let below = scope_below(place as u64 + 1, scope, node);
        push_times(&mut waiting, parts_of(node), below)?;
    }
    Ok(scopes)
}

// Puts a scope on top of those that are waiting, so many times.
fn push_times(waiting: &mut Vec<u64>, count: usize, scope: u64) -> Result<(), AllocError>
    ensures { OnOk result (reverse waiting.new.items ≡ times count scope (reverse waiting.old.items)) }
{
    for done in 0..count {
        waiting.push(scope)?;
    }
    Ok(())
}

// How many parts a node has below it.
pub(crate) fn parts_of(node: &Node) -> usize
    ensures parts { result ≡ parts_of node.now }
    ensures few { result < 2 ^ 32 }
{
    match node {
        Node::Use { count, .. } | Node::Split { count } => *count as usize,
        Node::Compute { .. } | Node::Success | Node::Dead => 0,
        Node::Lacking | Node::Gathered => 2,
        _ => 1,
    }
}

// The search whose variables the parts of a node have.
fn scope_below(number: u64, scope: u64, node: &Node) -> u64
    ensures { result ≡ scope_below number scope node.now }
{
    match node {
        Node::Present => number,
        _ => scope,
    }
}
