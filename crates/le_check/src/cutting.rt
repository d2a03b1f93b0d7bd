ghost use Rattle.std.specs.Prelude.{◌≡◌, ◌∷◌, ◌≤◌, ℕ, [], length, reverse, option_map, IfOk, IfSome, IsNone};
ghost use Rattle.le_proofs.specs.Derivations.{parts_of, times};
ghost use Rattle.le_proofs.specs.Replay.{Role as SpecRole, proof, cut_of, cut_fault, is_role, role_of, part_role};
ghost use Rattle.le_check.specs.Replays.{fault_of};
ghost use Rattle.le_check.specs.Roles.{role_by, roles_of};

use crate::parts::parts_of;
use crate::replaying::Fault;
use le_proofs::Node;
use le_terms::Program;
use std::alloc::{AllocError, Global};

// What may stand at a place of a derivation.
#[derive(Clone, Copy)]
pub(crate) enum Role {
    // A proof of a literal.
    Proof,
    // The tree of a goal.
    Tree,
    // A branch of a split.
    Branch,
}

// Parts of one role that are still to come.
#[derive(Clone, Copy)]
pub(crate) struct Parts {
    // Their role.
    pub(crate) role: Role,
    // How many there are.
    pub(crate) count: usize,
}

// The first fault of a derivation by the counts of its nodes alone, which is tested in version 2.
pub(crate) fn cut_fault(
    alloc: Global,
    program: &Program,
    nodes: &[Node],
) -> Result<Option<Fault>, AllocError>
    requires few { length nodes.now ≤ 60000000 }
    ensures { IfOk result (λ fault. option_map fault_of fault ≡ cut_of program.now nodes.now) }
{
    if program.version != 2 {
        return Ok(None);
    }
    fault_among(alloc, program.query.as_slice().len(), nodes)
}

// The first fault of the cut in so many proofs.
fn fault_among(alloc: Global, proofs: usize, nodes: &[Node]) -> Result<Option<Fault>, AllocError>
    requires few { length nodes.now ≤ 60000000 }
    ensures { IfOk result (λ fault. option_map fault_of fault ≡ cut_fault 1 (times proofs proof []) nodes.now) }
{
    let mut coming = Vec::new(alloc);
    coming.push(Parts {
        role: Role::Proof,
        count: proofs,
    })?;
    for (place, node) in nodes.iter().enumerate() {
        let Some(role) = next_role(&mut coming)? else {
            return Ok(Some(Fault {
                node: place as u32 + 1,
                why: 10,
            }));
        };
        if !has_role(node, role) {
            return Ok(Some(Fault {
                node: place as u32 + 1,
                why: 3,
            }));
        }
        coming.push(parts_below(node))?;
    }
    end_fault(nodes.len() as u32 + 1, &mut coming)
}

// The fault at the end of the nodes: parts are still to come.
fn end_fault(number: u32, coming: &mut Vec<Parts>) -> Result<Option<Fault>, AllocError>
    ensures { IfOk result (λ fault. option_map fault_of fault ≡ cut_fault number (roles_of (reverse coming.old.items)) []) }
{
    match next_role(coming)? {
        None => Ok(None),
        Some(role) => Ok(Some(Fault {
            node: number,
            why: 9,
        })),
    }
}

// The role of the next part, which is taken away, if there is one.
fn next_role(coming: &mut Vec<Parts>) -> Result<Option<Role>, AllocError>
    ensures some { IfOk result (λ next. IfSome next (λ role. roles_of (reverse coming.old.items) ≡ role_by role ∷ roles_of (reverse coming.new.items))) }
    ensures none { IfOk result (λ next. IsNone next → roles_of (reverse coming.old.items) ≡ []) }
{
    while let Some(parts) = coming.pop() {
        if parts.count > 0 {
            coming.push(Parts {
                role: parts.role,
                count: parts.count - 1,
            })?;
            return Ok(Some(parts.role));
        }
    }
    Ok(None)
}

// The parts of a node.
fn parts_below(node: &Node) -> Parts
    ensures role { role_by result.role ≡ part_role node.now }
    ensures count { result.count ≡ parts_of node.now }
{
    Parts {
        role: part_role(node),
        count: parts_of(node),
    }
}

// The role of a node's parts.
fn part_role(node: &Node) -> Role
    ensures { role_by result ≡ part_role node.now }
{
    match node {
        Node::Use { .. } | Node::Present => Role::Proof,
        Node::Split { .. } => Role::Branch,
        _ => Role::Tree,
    }
}

// Whether a node may stand where one of this role is to stand.
fn has_role(node: &Node, role: Role) -> bool
    ensures { result ≡ is_role (role_by role) (role_of node.now) }
{
    let is_proof = matches!(
        node,
        Node::Use { .. } | Node::Compute { .. } | Node::Absent { .. } | Node::Gather { .. }
    );
    let is_branch = matches!(node, Node::Branch { .. });
    match role {
        Role::Proof => is_proof,
        Role::Branch => is_branch,
        Role::Tree => !is_proof && !is_branch,
    }
}
