ghost use Rattle.std.specs.Prelude.{◌≡◌, ◌≤◌, ◌<◌, drop, length, IfOk};
ghost use Rattle.le_proofs.specs.Replay.{beginnings as beginnings_of};
ghost use Rattle.le_proofs.specs.Replay.{behind};
ghost use Rattle.le_proofs.specs.Derivations.{parts_of};
ghost use Rattle.le_check.specs.Parts.{ArePartEnds, EndFrom, AreInside, nodes_from};

use le_proofs::Node;
use std::alloc::{AllocError, Global};

// For each node the place where the part that begins with it ends. A part stands below one node only, so each is passed
// over once.
pub(crate) fn part_ends(alloc: Global, nodes: &[Node]) -> Result<Vec<usize>, AllocError>
    ensures { IfOk result (λ ends. ArePartEnds nodes.now ends.items) }
{
    let mut ends = vec![in alloc; 0; nodes.len()]?;
    let mut place = nodes.len();
    while place > 0 {
        place -= 1;
        let end = place_after(nodes, &ends, parts_of(&nodes[place]), place + 1);
        ends[place] = end;
    }
    Ok(ends)
}

// The place after so many parts, the first of them at the beginning.
pub(crate) fn parts_end(nodes: &[Node], ends: &[usize], count: usize) -> usize
    requires ends { ArePartEnds nodes.now ends.now }
    ensures inside { result ≤ length nodes.now }
    ensures rest { drop result nodes.now ≡ behind count nodes.now }
{
    place_after(nodes, ends, count, 0)
}

// The place after so many parts, the first of them at this place.
fn place_after(nodes: &[Node], ends: &[usize], count: usize, from: usize) -> usize
    requires ends { EndFrom nodes.now ends.now from }
    requires from { from ≤ length nodes.now }
    ensures inside { result ≤ length nodes.now }
    ensures rest { drop result nodes.now ≡ behind count (drop from nodes.now) }
{
    let mut at = from;
    let mut left = count;
    while left > 0 && at < nodes.len() {
        at = ends[at];
        left -= 1;
    }
    at
}

// How many parts a node has below it.
pub(crate) fn parts_of(node: &Node) -> usize
    ensures { result ≡ parts_of node.now }
{
    match node {
        Node::Use { count, .. } | Node::Split { count } => *count as usize,
        Node::Compute { .. } | Node::Success | Node::Dead => 0,
        Node::Lacking | Node::Gathered => 2,
        _ => 1,
    }
}

// Where so many parts begin, the first of them at this place.
pub(crate) fn beginnings(
    alloc: Global,
    nodes: &[Node],
    ends: &[usize],
    count: usize,
    from: usize,
) -> Result<Vec<usize>, AllocError>
    requires ends { ArePartEnds nodes.now ends.now }
    requires from { from ≤ length nodes.now }
    ensures places { IfOk result (λ places. nodes_from nodes.now places.items ≡ beginnings_of count (drop from nodes.now)) }
    ensures inside { IfOk result (λ places. AreInside nodes.now places.items) }
{
    let mut places = Vec::new(alloc);
    let mut at = from;
    for done in 0..count {
        places.push(at)?;
        at = end_at(nodes, ends, at);
    }
    Ok(places)
}

// The place where the part that begins at this one ends.
fn end_at(nodes: &[Node], ends: &[usize], at: usize) -> usize
    requires ends { ArePartEnds nodes.now ends.now }
    requires at { at ≤ length nodes.now }
    ensures inside { result ≤ length nodes.now }
    ensures rest { drop result nodes.now ≡ behind 1 (drop at nodes.now) }
{
    if at < nodes.len() { ends[at] } else { at }
}
