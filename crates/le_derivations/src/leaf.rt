ghost use Rattle.std.specs.Prelude.{◌≡◌, ℕ, List, reverse, IfOk};
ghost use Rattle.le_terms.specs.Tree.{Tree};
ghost use Rattle.le_proofs.specs.Proofs.{Step};
ghost use Rattle.le_proofs.specs.SearchTree.{empty_leaf, first_proof};
ghost use Rattle.le_proofs.specs.UnderWay.{leaf_along};
ghost use Rattle.le_proofs.specs.Derivations.{certificate, certificate_of, proof_nodes};
ghost use Rattle.le_derivations.specs.Paths.{AreSteps};

use crate::numbering::numbered_nodes;
use crate::path::PathStep;
use crate::proving::proved;
use crate::scopes::node_scopes;
use le_proofs::{Derivation, Node, Nodes};
use le_terms::Term;
use std::alloc::{AllocError, Global};

// More nodes than a derivation can have: more don't fit in memory.
const TOO_MANY: usize = 1 << 31;

/// The derivation of the success leaf that a path leads to from its first step to its last, where these are
/// the terms of the answer there.
pub fn derivation_of(
    alloc: Global,
    path: &[PathStep],
    terms: &[Term],
) -> Result<Derivation, AllocError>
    ensures { IfOk result (λ derivation. (steps : List Step) (left : ℕ) → AreSteps (reverse path.now) steps → derivation.nodes ≡ (certificate_of (leaf_along steps (empty_leaf terms.now left))).nodes) }
{
    let proving = proved(alloc, path)?;
    let mut nodes = proving.nodes;
    nodes.reverse();
    let numbered = certified(alloc, terms, proving.proofs, &nodes)?;
    Ok(Derivation {
        nodes: Nodes::from_vec(numbered),
    })
}

// The nodes of the certificate of terms and so many proofs.
fn certified(
    alloc: Global,
    terms: &[Term],
    proofs: usize,
    nodes: &[Node],
) -> Result<Vec<Node>, AllocError>
    ensures { IfOk result (λ numbered. numbered.items ≡ (certificate terms.now proofs nodes.now).nodes) }
{
    if nodes.len() >= TOO_MANY {
        return Err(AllocError);
    }
    let scopes = node_scopes(alloc, nodes, proofs)?;
    let width = nodes.len() as u64 + 1;
    let numbered = numbered_nodes(alloc, width, terms, &scopes, nodes)?;
    Ok(numbered)
}

/// The nodes of the proof of a goal's only literal that a path leads to from its first step to its last. Their
/// variables are those of the search.
pub fn proof_of(alloc: Global, path: &[PathStep]) -> Result<Vec<Node>, AllocError>
    ensures { IfOk result (λ nodes. (steps : List Step) (terms : List Tree) (left : ℕ) → AreSteps (reverse path.now) steps → nodes.items ≡ proof_nodes (first_proof (leaf_along steps (empty_leaf terms left)))) }
{
    let proving = proved(alloc, path)?;
    if proving.proofs != 1 {
        // The goal has one literal, and so one proof.
        return Err(AllocError);
    }
    let mut nodes = proving.nodes;
    nodes.reverse();
    Ok(nodes)
}
