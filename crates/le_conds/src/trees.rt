ghost use Rattle.std.specs.Prelude.{◌≡◌, ◌+◌, ◌<◌, ◌≤◌, ◌^◌, ◌++◌, List, [], ◌∷◌, length, vec_len, IfOk, OnOk, if◌then◌else◌};
ghost use Rattle.le_conds.specs.Trees.{sentence, at_of, flat};
ghost use Rattle.le_conds.specs.Members.{Member, with_item, tree_of};
ghost use Rattle.le_conds.specs.Faults.{item_faults, shape_faults, least_of, least_onto};
ghost use Rattle.le_conds.specs.Stack.{stacked, turned, kind_by as kind_by_lead, closing, pushed, scope_of, marker_of, heads_of, opened_by};

use crate::blocks::{Waiting, count_marker, count_scope, deepest, greater};
use crate::entry::{Entry, Join, Opens};
use crate::shape::{block_fault, is_bare, item_fault};
use crate::{Cond, CondKind};
use le_layout::{Fault, Span};
use std::alloc::{AllocError, Global};

/// What is found of the items of conditions: the fault that decides, and the conditions of their tree.
#[derive(Debug, Drop)]
pub struct Found {
    /// The fault that decides, if there is one.
    pub fault: Option<Fault>,
    /// The conditions in preorder.
    pub nodes: Vec<Cond>,
}

/// The tree of items, and the fault that decides among those of their blocks.
///
/// The items are taken from the last to the first: each takes the members that wait for it, and waits
/// itself. The conditions stand in `nodes` with the first one last, so that nothing is ever moved.
pub fn tree(alloc: Global, entries: &[Entry]) -> Result<Found, AllocError>
    requires { length entries.now + 1 < 2 ^ 32 }
    ensures fault { IfOk result (λ found. found.fault ≡ least_of (shape_faults entries.now)) }
    ensures nodes { IfOk result (λ found. found.nodes.items ≡ flat (tree_of entries.now)) }
{
    let mut waiting = Vec::new(alloc);
    let mut nodes = Vec::new(alloc);
    let mut fault = None;
    let count = entries.len();
    for k in 0..count {
        fault = step(&mut waiting, &mut nodes, fault, entries[count - 1 - k])?;
    }
    let fault = block_fault(true, waiting.as_slice(), fault);
    close_plain(&mut nodes, waiting.as_slice())?;
    nodes.reverse();
    Ok(Found { fault, nodes })
}

/// Takes an item before those that wait, with the fault that decides from it on.
fn step(
    waiting: &mut Vec<Waiting>,
    nodes: &mut Vec<Cond>,
    least: Option<Fault>,
    entry: Entry,
) -> Result<Option<Fault>, AllocError>
    requires { vec_len waiting.old + 1 < 2 ^ 32 }
    ensures waiting { (ms : List Member) → waiting.old.items ≡ stacked ms → OnOk result (waiting.new.items ≡ stacked (with_item entry ms)) }
    ensures nodes { (ms : List Member) → waiting.old.items ≡ stacked ms → nodes.old.items ≡ turned ms → OnOk result (nodes.new.items ≡ turned (with_item entry ms)) }
    ensures fault { (ms : List Member) → waiting.old.items ≡ stacked ms → IfOk result (λ fault. fault ≡ least_onto (item_faults entry ms) least) }
    ensures few { OnOk result (vec_len waiting.new ≤ vec_len waiting.old + 1) }
{
    let count = count_scope(waiting.as_slice(), entry);
    let marker = count_marker(waiting.as_slice(), entry, count);
    let fault = item_fault(entry, waiting.as_slice(), count, least);
    push_item(nodes, entry, waiting.as_slice(), count, marker)?;
    replace(waiting, entry, count, marker)?;
    Ok(fault)
}

/// Puts an item in the place of the members that it takes: so many in its scope, and its marker.
fn replace(
    waiting: &mut Vec<Waiting>,
    entry: Entry,
    count: usize,
    marker: usize,
) -> Result<(), AllocError>
    requires { count + marker ≤ vec_len waiting.old }
    ensures items { (ms : List Member) → waiting.old.items ≡ stacked ms → count ≡ length (scope_of entry.opens entry ms) → marker ≡ length (marker_of entry.opens ms) → OnOk result (waiting.new.items ≡ stacked (with_item entry ms)) }
    ensures few { OnOk result (vec_len waiting.new ≤ vec_len waiting.old + 1) }
{
    let left = waiting.len() - (count + marker);
    let (_, taken) = waiting.as_slice().split_at(left);
    let member = Waiting {
        item: entry,
        deepest: greater(entry.column, deepest(taken)),
    };
    waiting.truncate(left);
    waiting.push(member)?;
    Ok(())
}

/// Pushes the conditions that an item adds to those of the members that wait, where so many are in its
/// scope.
fn push_item(
    nodes: &mut Vec<Cond>,
    entry: Entry,
    waiting: &[Waiting],
    count: usize,
    marker: usize,
) -> Result<(), AllocError>
    requires inside { count ≤ length waiting.now }
    requires few { length waiting.now + 1 < 2 ^ 32 }
    ensures { (ms : List Member) → waiting.now ≡ stacked ms → nodes.old.items ≡ turned ms → count ≡ length (scope_of entry.opens entry ms) → marker ≡ length (marker_of entry.opens ms) → OnOk result (nodes.new.items ≡ nodes.old.items ++ pushed entry.opens entry ms) }
{
    let (_, inner) = waiting.split_at(waiting.len() - count);
    close(nodes, entry, inner)?;
    push_opener(nodes, entry, marker)?;
    Ok(())
}

/// Pushes what closes the block in the scope of an item.
fn close(nodes: &mut Vec<Cond>, entry: Entry, inner: &[Waiting]) -> Result<(), AllocError>
    requires { length inner.now + 1 < 2 ^ 32 }
    ensures { (ms rest : List Member) → inner.now ≡ stacked ms → nodes.old.items ≡ turned (ms ++ rest) → OnOk result (nodes.new.items ≡ nodes.old.items ++ closing (heads_of entry.opens entry) ms) }
{
    if has_head(entry) {
        close_headed(nodes, entry.inline, inner)
    } else {
        close_plain(nodes, inner)
    }
}

/// Whether a sentence heads the block of an item.
fn has_head(entry: Entry) -> bool
    ensures { heads_of entry.opens entry ≡ (if result then sentence entry.inline ∷ [] else []) }
{
    match entry.opens {
        Opens::Nothing => true,
        _ => !is_bare(entry),
    }
}

/// Pushes a sentence and what joins it with the members after it.
fn close_headed(nodes: &mut Vec<Cond>, head: Span, inner: &[Waiting]) -> Result<(), AllocError>
    requires { length inner.now + 1 < 2 ^ 32 }
    ensures { (ms : List Member) → inner.now ≡ stacked ms → OnOk result (nodes.new.items ≡ nodes.old.items ++ closing (sentence head ∷ []) ms) }
{
    nodes.push(Cond {
        kind: CondKind::Sentence(head),
        at: head.from,
    })?;
    let count = inner.len();
    if 0 < count {
        nodes.push(Cond {
            kind: kind_by(inner[count - 1].item.lead, count as u32 + 1),
            at: head.from,
        })?;
    }
    Ok(())
}

/// Pushes what joins some members, unless there is one.
fn close_plain(nodes: &mut Vec<Cond>, inner: &[Waiting]) -> Result<(), AllocError>
    requires { length inner.now + 1 < 2 ^ 32 }
    ensures { (ms rest : List Member) → inner.now ≡ stacked ms → nodes.old.items ≡ turned (ms ++ rest) → OnOk result (nodes.new.items ≡ nodes.old.items ++ closing [] ms) }
{
    let count = inner.len();
    if count == 0 {
        nodes.push(Cond {
            kind: CondKind::And(0),
            at: 0,
        })?;
        return Ok(());
    }
    if count == 1 {
        return Ok(());
    }
    let at = last_at(nodes.as_slice());
    nodes.push(Cond {
        kind: kind_by(inner[count - 2].item.lead, count as u32),
        at,
    })?;
    Ok(())
}

/// The first token of the last of some conditions.
fn last_at(nodes: &[Cond]) -> u32
    ensures { (m : Member) (rest : List Member) → nodes.now ≡ turned (m ∷ rest) → result ≡ at_of m.tree }
{
    let count = nodes.len();
    if count == 0 { 0 } else { nodes[count - 1].at }
}

/// So many conditions joined by a connective.
fn kind_by(lead: Join, count: u32) -> CondKind
    ensures { result ≡ kind_by_lead lead count }
{
    match lead {
        Join::Or => CondKind::Or(count),
        _ => CondKind::And(count),
    }
}

/// Pushes the condition of an item's opener, where it takes so many markers.
fn push_opener(nodes: &mut Vec<Cond>, entry: Entry, marker: usize) -> Result<(), AllocError>
    ensures { (ms : List Member) → marker ≡ length ms → OnOk result (nodes.new.items ≡ nodes.old.items ++ opened_by entry.opens entry ms) }
{
    let kind = match entry.opens {
        Opens::Negation => CondKind::Not,
        Opens::Gather { fold, result, name } => CondKind::Gather { fold, result, name },
        Opens::ForAll if 0 < marker => CondKind::ForAll,
        _ => return Ok(()),
    };
    nodes.push(Cond {
        kind,
        at: entry.own,
    })?;
    Ok(())
}
