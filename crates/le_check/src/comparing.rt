ghost use Rattle.std.specs.Prelude.{◌≡◌, ◌∷◌, ◌<◌, ◌≤◌, [], length, option_map, IfOk, nat_lt};
ghost use Rattle.std.specs.List.{list_all};
ghost use Rattle.le_terms.specs.Variables.{all_occurrences, canonical_of};
ghost use Rattle.le_terms.specs.Walks.{symbol_variables};
ghost use Rattle.le_builtins.specs.Compute.{is_same};
ghost use Rattle.le_proofs.specs.declared.node.Node.TheVariants.{Use, Compute, Absent, Gather, Split, Branch};
ghost use Rattle.le_proofs.specs.Replay.{Proven as Replayed, accepted, behind, compared, other_at, node_number, first_other, same_atom, same_at, same_fold, same_node, same_nodes, same_terms};
ghost use Rattle.le_check.specs.Parts.{ArePartEnds};
ghost use Rattle.le_check.specs.Replays.{IsProven, fault_of};
ghost use Rattle.le_check.specs.Verdicts.{verdict_by};

use crate::parts::parts_end;
use crate::replaying::{Fault, Proven};
use crate::verdict::Verdict;
use le_base::FoldKind;
use le_derivations::derivation_of;
use le_proofs::Node;
use le_terms::{Atom, Program, Sym, Term, Terms, canonical};
use std::alloc::{AllocError, Global};

// A number that no variable of a replay has.
const TOO_HIGH: u32 = 4_000_000_000;

// The verdict on a derivation whose replay came through: nodes left after its proofs, and then the first node of the
// replay that isn't the one that it should be.
pub(crate) fn compare(
    alloc: Global,
    program: &Program,
    nodes: &[Node],
    ends: &[usize],
    proven: Proven,
) -> Result<Verdict, AllocError>
    requires few { length nodes.now ≤ 60000000 }
    requires ends { ArePartEnds nodes.now ends.now }
    ensures { IfOk result (λ verdict. (p : Replayed) → IsProven proven p → verdict_by verdict ≡ compared nodes.now (behind (length program.now.query) nodes.now) p) }
{
    let place = parts_end(nodes, ends, program.query.as_slice().len());
    if place < nodes.len() {
        return Ok(Verdict::Refused {
            node: place as u32 + 1,
            why: 10,
        });
    }
    compare_all(alloc, nodes, proven)
}

// The same where no nodes are left after the proofs.
fn compare_all(alloc: Global, nodes: &[Node], proven: Proven) -> Result<Verdict, AllocError>
    ensures { IfOk result (λ verdict. (p : Replayed) → IsProven proven p → verdict_by verdict ≡ compared nodes.now [] p) }
{
    let should = derivation_of(alloc, &proven.path, &proven.terms)?;
    let expected = should.nodes.as_slice();
    if !same_nodes(expected, nodes) {
        return Ok(other_at(first_other(expected, nodes, &proven.order)));
    }
    accepted(alloc, &proven.terms)
}

// The verdict that accepts, with these terms as values.
fn accepted(alloc: Global, terms: &[Term]) -> Result<Verdict, AllocError>
    ensures { IfOk result (λ verdict. verdict_by verdict ≡ accepted (canonical_of terms.now)) }
{
    if !are_low(terms) {
        // They are: the query has at most 64 variables, and each node has at most 64 more.
        return Err(AllocError);
    }
    let values = canonical(alloc, terms)?;
    Ok(Verdict::Accepted(Terms::from_vec(values)))
}

// Whether each variable of some terms has a number below 4,000,000,000.
fn are_low(terms: &[Term]) -> bool
    ensures { result ≡ list_all (λ v. nat_lt v 4000000000) (all_occurrences terms.now) }
{
    for term in terms {
        if !is_low(term.as_syms()) {
            return false;
        }
    }
    true
}

// Whether each variable of some symbols has such a number.
fn is_low(syms: &[Sym]) -> bool
    ensures { result ≡ list_all (λ v. nat_lt v 4000000000) (symbol_variables syms.now) }
{
    for sym in syms {
        if let Sym::Var(var) = sym {
            if *var >= TOO_HIGH {
                return false;
            }
        }
    }
    true
}

// The verdict by the first node that isn't the one that it should be.
fn other_at(fault: Option<Fault>) -> Verdict
    ensures { verdict_by result ≡ other_at (option_map fault_of fault) }
{
    match fault {
        None => Verdict::Refused { node: 0, why: 8 },
        Some(fault) => Verdict::Refused {
            node: fault.node,
            why: fault.why,
        },
    }
}

// The first in this order that isn't the node that it should be.
fn first_other(expected: &[Node], nodes: &[Node], order: &[u32]) -> Option<Fault>
    ensures { option_map fault_of result ≡ first_other expected.now nodes.now order.now }
{
    for number in order {
        if !same_at(expected, nodes, *number) {
            return Some(Fault {
                node: *number,
                why: 8,
            });
        }
    }
    None
}

// Whether the nodes of this number, counted from 1, are the same, or one of them isn't there.
fn same_at(expected: &[Node], nodes: &[Node], number: u32) -> bool
    ensures { result ≡ same_at (node_number number expected.now) (node_number number nodes.now) }
{
    if number == 0 {
        return true;
    }
    let place = number as usize - 1;
    if place >= expected.len() || place >= nodes.len() {
        return true;
    }
    same_node(&expected[place], &nodes[place])
}

// Whether nodes are the same, one by one.
fn same_nodes(some: &[Node], others: &[Node]) -> bool
    ensures { result ≡ same_nodes some.now others.now }
{
    if some.len() != others.len() {
        return false;
    }
    for (place, node) in some.iter().enumerate() {
        if !same_node(node, &others[place]) {
            return false;
        }
    }
    true
}

// Whether two nodes are the same.
fn same_node(a: &Node, b: &Node) -> bool
    ensures { result ≡ same_node a.now b.now }
{
    match a {
        Node::Use {
            clause,
            count,
            atom,
        } => is_use(*clause, *count, atom, b),
        Node::Compute { atom } => is_compute(atom, b),
        Node::Absent { atom } => is_absent(atom, b),
        Node::Gather {
            fold,
            result,
            value,
            atom,
        } => is_gather(*fold, result, value, atom, b),
        Node::Split { count } => is_split(*count, b),
        Node::Branch { clause } => is_branch(*clause, b),
        Node::Computed => matches!(b, Node::Computed),
        Node::Lacking => matches!(b, Node::Lacking),
        Node::Present => matches!(b, Node::Present),
        Node::Gathered => matches!(b, Node::Gathered),
        Node::Ungathered => matches!(b, Node::Ungathered),
        Node::Success => matches!(b, Node::Success),
        Node::Dead => matches!(b, Node::Dead),
    }
}

// Whether a node is this use of a clause.
fn is_use(number: u32, literals: u32, proved: &Atom, node: &Node) -> bool
    ensures { result ≡ same_node (Use number literals proved.now) node.now }
{
    match node {
        Node::Use {
            clause,
            count,
            atom,
        } => number == *clause && literals == *count && same_atom(proved, atom),
        _ => false,
    }
}

// Whether a node is the proof of this computed literal.
fn is_compute(proved: &Atom, node: &Node) -> bool
    ensures { result ≡ same_node (Compute proved.now) node.now }
{
    match node {
        Node::Compute { atom } => same_atom(proved, atom),
        _ => false,
    }
}

// Whether a node is the proof of this atom's negation.
fn is_absent(negated: &Atom, node: &Node) -> bool
    ensures { result ≡ same_node (Absent negated.now) node.now }
{
    match node {
        Node::Absent { atom } => same_atom(negated, atom),
        _ => false,
    }
}

// Whether a node is the proof of this gather.
fn is_gather(kind: FoldKind, total: &Term, each: &Term, holds: &Atom, node: &Node) -> bool
    ensures { result ≡ same_node (Gather kind total.now each.now holds.now) node.now }
{
    match node {
        Node::Gather {
            fold,
            result,
            value,
            atom,
        } => {
            same_fold(kind, *fold)
                && same_pair(total, each, result, value)
                && same_atom(holds, atom)
        }
        _ => false,
    }
}

// Whether a node is a split of so many branches.
fn is_split(branches: u32, node: &Node) -> bool
    ensures { result ≡ same_node (Split branches) node.now }
{
    match node {
        Node::Split { count } => branches == *count,
        _ => false,
    }
}

// Whether a node is the branch of this clause.
fn is_branch(number: u32, node: &Node) -> bool
    ensures { result ≡ same_node (Branch number) node.now }
{
    match node {
        Node::Branch { clause } => number == *clause,
        _ => false,
    }
}

// Whether two folds are the same.
fn same_fold(a: FoldKind, b: FoldKind) -> bool
    ensures { result ≡ same_fold a b }
{
    match a {
        FoldKind::Sum => matches!(b, FoldKind::Sum),
        FoldKind::Number => matches!(b, FoldKind::Number),
        FoldKind::Greatest => matches!(b, FoldKind::Greatest),
    }
}

// Whether two terms are the same as two others.
fn same_pair(a: &Term, b: &Term, c: &Term, d: &Term) -> bool
    ensures { result ≡ same_terms (a.now ∷ b.now ∷ []) (c.now ∷ d.now ∷ []) }
{
    same_term(a, c) && same_term(b, d)
}

// Whether two terms are the same.
fn same_term(a: &Term, b: &Term) -> bool
    ensures { result ≡ is_same a.now b.now }
{
    a.equals(b)
}

// Whether two atoms are the same.
fn same_atom(a: &Atom, b: &Atom) -> bool
    ensures { result ≡ same_atom a.now b.now }
{
    a.equals(b)
}
