ghost use Rattle.std.specs.Prelude.{◌≡◌, ◌≤◌, ◌<◌, ◌^◌, ◌++◌, ◌∷◌, [], length, map, IfOk, OnOk};
ghost use Rattle.std.specs.List.{AllByRecursion};
ghost use Rattle.le_terms.specs.Walks.{symbol_variables, all_noted};
ghost use Rattle.le_proofs.specs.Derivations.{node_terms};
ghost use Rattle.le_derivations.specs.Numbers.{key, keys_of, nodes_keys, numbered_nodes};

use crate::changing::{Change, changed_node, key};
use indexmap::IndexSet;
use le_proofs::Node;
use le_terms::{Sym, Term};
use std::alloc::{AllocError, Global};

// The nodes with the variables of all searches numbered from 1, by first occurrence in the terms, which are
// of the main search, and then in the nodes, each of the search beside it.
pub(crate) fn numbered_nodes(
    alloc: Global,
    width: u64,
    terms: &[Term],
    scopes: &[u64],
    nodes: &[Node],
) -> Result<Vec<Node>, AllocError>
    requires width { width ≤ 2 ^ 31 }
    requires some { 0 < width }
    requires scopes { AllByRecursion (λ scope. scope < width) scopes.now }
    requires all { length scopes.now ≡ length nodes.now }
    ensures { IfOk result (λ new. new.items ≡ numbered_nodes (all_noted [] (keys_of width 0 terms.now ++ nodes_keys width scopes.now nodes.now)) width scopes.now nodes.now) }
{
    let mut keys = IndexSet::new(alloc);
    note_terms(&mut keys, width, 0, terms)?;
    note_nodes(&mut keys, width, scopes, nodes)?;
    renumbered(alloc, &keys, width, scopes, nodes)
}

// Notes the keys of the variables of nodes, each of the search beside it.
fn note_nodes(
    keys: &mut IndexSet<u64>,
    width: u64,
    scopes: &[u64],
    nodes: &[Node],
) -> Result<(), AllocError>
    requires width { width ≤ 2 ^ 31 }
    requires scopes { AllByRecursion (λ scope. scope < width) scopes.now }
    requires all { length scopes.now ≡ length nodes.now }
    ensures { OnOk result (keys.new.keys ≡ all_noted keys.old.keys (nodes_keys width scopes.now nodes.now)) }
{
    for (place, node) in nodes.iter().enumerate() {
        note_node(keys, width, scopes[place], node)?;
    }
    Ok(())
}

// Notes the keys of the variables of a node of a search.
fn note_node(
    keys: &mut IndexSet<u64>,
    width: u64,
    scope: u64,
    node: &Node,
) -> Result<(), AllocError>
    requires width { width ≤ 2 ^ 31 }
    requires scope { scope < width }
    ensures { OnOk result (keys.new.keys ≡ all_noted keys.old.keys (keys_of width scope (node_terms node.now))) }
{
    match node {
        Node::Use { atom, .. } | Node::Compute { atom } | Node::Absent { atom } => {
            note_terms(keys, width, scope, atom.args.as_slice())
        }
        Node::Gather {
            result,
            value,
            atom,
            ..
        } => {
            note_term(keys, width, scope, result)?;
            note_term(keys, width, scope, value)?;
            note_terms(keys, width, scope, atom.args.as_slice())?;
            Ok(())
        }
        _ => Ok(()),
    }
}

// Notes the keys of the variables of terms of a search.
fn note_terms(
    keys: &mut IndexSet<u64>,
    width: u64,
    scope: u64,
    terms: &[Term],
) -> Result<(), AllocError>
    requires width { width ≤ 2 ^ 31 }
    requires scope { scope < width }
    ensures { OnOk result (keys.new.keys ≡ all_noted keys.old.keys (keys_of width scope terms.now)) }
{
    for term in terms {
        note_term(keys, width, scope, term)?;
    }
    Ok(())
}

// Notes the keys of the variables of a term of a search.
fn note_term(
    keys: &mut IndexSet<u64>,
    width: u64,
    scope: u64,
    term: &Term,
) -> Result<(), AllocError>
    requires width { width ≤ 2 ^ 31 }
    requires scope { scope < width }
    ensures { OnOk result (keys.new.keys ≡ all_noted keys.old.keys (keys_of width scope (term.now ∷ []))) }
{
    note_syms(keys, width, scope, term.as_syms())?;
    Ok(())
}

// Notes the keys of the variables among the symbols.
fn note_syms(
    keys: &mut IndexSet<u64>,
    width: u64,
    scope: u64,
    syms: &[Sym],
) -> Result<(), AllocError>
    requires width { width ≤ 2 ^ 31 }
    requires scope { scope < width }
    ensures { OnOk result (keys.new.keys ≡ all_noted keys.old.keys (map (key width scope) (symbol_variables syms.now))) }
{
    for sym in syms {
        note_sym(keys, width, scope, *sym)?;
    }
    Ok(())
}

// Notes the key of a symbol that is a variable.
fn note_sym(keys: &mut IndexSet<u64>, width: u64, scope: u64, sym: Sym) -> Result<(), AllocError>
    requires width { width ≤ 2 ^ 31 }
    requires scope { scope < width }
    ensures { OnOk result (keys.new.keys ≡ all_noted keys.old.keys (map (key width scope) (symbol_variables (sym ∷ [])))) }
{
    match sym {
        Sym::Var(var) => {
            keys.insert(key(width, scope, var))?;
            Ok(())
        }
        _ => Ok(()),
    }
}

// The nodes with their variables numbered by the places of their keys.
fn renumbered(
    alloc: Global,
    keys: &IndexSet<u64>,
    width: u64,
    scopes: &[u64],
    nodes: &[Node],
) -> Result<Vec<Node>, AllocError>
    requires width { width ≤ 2 ^ 31 }
    requires scopes { AllByRecursion (λ scope. scope < width) scopes.now }
    requires all { length scopes.now ≡ length nodes.now }
    ensures { IfOk result (λ new. new.items ≡ numbered_nodes keys.now.keys width scopes.now nodes.now) }
{
    if keys.len() > u32::MAX as usize {
        // So many variables don't fit in memory.
        return Err(AllocError);
    }
    let mut new = Vec::with_capacity(alloc, nodes.len())?;
    for (place, node) in nodes.iter().enumerate() {
        let change = Change::Number(keys, width, scopes[place]);
        new.push(changed_node(alloc, &change, node)?)?;
    }
    Ok(new)
}
