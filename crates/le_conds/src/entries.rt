ghost use Rattle.std.specs.Prelude.{◌≡◌, ◌+◌, ◌-◌, ◌<◌, ◌≤◌, ◌++◌, ◌^◌, length, drop, reverse, IfOk, OnOk};
ghost use Rattle.le_layout.specs.Layout.{IsLayout};
ghost use Rattle.le_conds.specs.Bounds.{IsItemOver, AreItemsOver};
ghost use Rattle.le_conds.specs.Openers.{each_end, gather_end};
ghost use Rattle.le_conds.specs.Entries.{fold_at as fold_at_word, gather_by, second_of, opens_of as opens_of_item, opener_end as opener_end_of, join_of as join_of_lead, unmarked, entry as entry_of, further_entries};
ghost use Rattle.le_conds.specs.Stack.{entries_seen};

use crate::entry::{Entry, Join, Opens};
use crate::item::{Item, Lead};
use crate::openers::{gather_seen, indent, opens_for_all, opens_negation};
use le_base::FoldKind;
use le_layout::{Layout, Span};
use std::alloc::{AllocError, Global};

/// What the blocks see of the items of conditions, the first of which is shown at this place where it is
/// empty. The column of an item that is alone isn't counted, so that many short rules on one line don't
/// cost a walk each.
pub fn entries(
    alloc: Global,
    layout: &Layout,
    place: u32,
    items: &[Item],
) -> Result<Vec<Entry>, AllocError>
    requires layout { IsLayout layout.now }
    requires items { AreItemsOver (length layout.now.tokens) items.now }
    ensures { IfOk result (λ entries. entries.items ≡ entries_seen layout.now place items.now) }
{
    let mut entries = Vec::new(alloc);
    if items.is_empty() {
        return Ok(entries);
    }
    let item = items[0];
    let mut columns = Vec::new(alloc);
    if items.len() == 1 {
        entries.push(entry_after(layout, columns.as_slice(), place, 0, item))?;
        return Ok(entries);
    }
    let column = indent(layout, item.at);
    let first = entry_after(layout, columns.as_slice(), place, column, item);
    entries.push(first)?;
    mark(&mut columns, column, first.opens)?;
    push_further(&mut entries, &mut columns, layout, items)?;
    Ok(entries)
}

/// Pushes what the blocks see of all items but the first, where the `for all`s with these columns have no
/// marker yet.
fn push_further(
    entries: &mut Vec<Entry>,
    columns: &mut Vec<u32>,
    layout: &Layout,
    items: &[Item],
) -> Result<(), AllocError>
    requires layout { IsLayout layout.now }
    requires several { 1 < length items.now }
    requires items { AreItemsOver (length layout.now.tokens) items.now }
    ensures { OnOk result (entries.new.items ≡ entries.old.items ++ further_entries layout.now (reverse columns.old.items) (drop 1 items.now)) }
{
    for k in 1..items.len() {
        let item = items[k];
        let column = indent(layout, item.at);
        let next = entry_after(layout, columns.as_slice(), item.at, column, item);
        entries.push(next)?;
        mark(columns, column, next.opens)?;
    }
    Ok(())
}

/// Notes that an item of this column opens this: a `for all` has no marker yet, and a marker is that of
/// the last one.
fn mark(columns: &mut Vec<u32>, column: u32, opens: Opens) -> Result<(), AllocError>
    ensures { OnOk result (reverse columns.new.items ≡ unmarked column (reverse columns.old.items) opens) }
{
    match opens {
        Opens::ForAll => columns.push(column)?,
        Opens::Second(_) => {
            columns.pop();
        }
        _ => {}
    }
    Ok(())
}

/// An item as the blocks see it, where the `for all`s with these columns have no marker yet.
fn entry_after(layout: &Layout, columns: &[u32], place: u32, column: u32, item: Item) -> Entry
    requires layout { IsLayout layout.now }
    requires item { IsItemOver (length layout.now.tokens) item }
    ensures { result ≡ entry_of place column item (opens_of_item layout.now (reverse columns.now) item) }
{
    entry(place, column, item, opens_of(layout, columns, item))
}

/// An item that opens this, as the blocks see it.
fn entry(place: u32, column: u32, item: Item, opens: Opens) -> Entry
    requires { opener_end_of item.content.from opens < 2 ^ 32 }
    ensures { result ≡ entry_of place column item opens }
{
    Entry {
        lead: join_of(item.lead),
        at: place,
        column,
        opens,
        own: item.content.from,
        inline: Span {
            from: opener_end(item.content.from, opens),
            to: item.content.to,
        },
    }
}

/// Where the words of an opener end, which begin here.
fn opener_end(from: u32, opens: Opens) -> u32
    requires { opener_end_of from opens < 2 ^ 32 }
    ensures { result ≡ opener_end_of from opens }
{
    match opens {
        Opens::Nothing => from,
        Opens::Negation => from + 6,
        Opens::ForAll => from + 5,
        Opens::Second(_) => from + 5,
        Opens::Stray => from + 5,
        Opens::Gather { name, .. } => name.to + 2,
    }
}

/// The connective that an item begins with.
fn join_of(lead: Lead) -> Join
    ensures { result ≡ join_of_lead lead }
{
    match lead {
        Lead::And => Join::And,
        Lead::Or => Join::Or,
        _ => Join::Plain,
    }
}

/// What an item opens, where the `for all`s with these columns have no marker yet.
#[tactic(auto, unfolding(crate::specs::Entries::opens_of))]
fn opens_of(layout: &Layout, columns: &[u32], item: Item) -> Opens
    requires layout { IsLayout layout.now }
    requires item { IsItemOver (length layout.now.tokens) item }
    ensures { result ≡ opens_of_item layout.now (reverse columns.now) item }
{
    let from = item.content.from;
    let to = item.content.to;
    if item.lead.is_marker() {
        second(columns)
    } else if opens_negation(layout, from, to) {
        Opens::Negation
    } else if opens_for_all(layout, from, to) {
        Opens::ForAll
    } else {
        gather(layout, from, to)
    }
}

/// A marker, where the `for all`s with these columns have none yet.
fn second(columns: &[u32]) -> Opens
    ensures { result ≡ second_of (reverse columns.now) }
{
    let count = columns.len();
    if count == 0 {
        Opens::Stray
    } else {
        Opens::Second(columns[count - 1])
    }
}

/// A gather, if these tokens begin with its opener.
fn gather(layout: &Layout, from: u32, to: u32) -> Opens
    requires layout { IsLayout layout.now }
    requires ordered { from ≤ to }
    requires inside { to ≤ length layout.now.tokens }
    ensures { result ≡ gather_by layout.now from (each_end layout.now from to) (gather_end layout.now from to) }
{
    let seen = gather_seen(layout, from, to);
    let Some(each) = seen.each else {
        return Opens::Nothing;
    };
    let Some(that) = seen.such_that else {
        return Opens::Nothing;
    };
    Opens::Gather {
        fold: fold_at(layout, each - 3),
        result: Span { from, to: each - 5 },
        name: Span {
            from: each,
            to: that - 2,
        },
    }
}

/// What is made of the values, by the word before `of each`.
fn fold_at(layout: &Layout, k: u32) -> FoldKind
    requires layout { IsLayout layout.now }
    requires inside { k < length layout.now.tokens }
    ensures { result ≡ fold_at_word layout.now k }
{
    if layout.has_word(k, "sum") {
        FoldKind::Sum
    } else if layout.has_word(k, "number") {
        FoldKind::Number
    } else {
        FoldKind::Greatest
    }
}
