ghost use Rattle.std.specs.Prelude.{◌≡◌, ◌+◌, ◌≤◌, ◌&&◌, List, not, length, nat_lt, max};
ghost use Rattle.le_conds.specs.Members.{Member, is_marker as is_marker_item, inside, before_marker, deepest_of};
ghost use Rattle.le_conds.specs.Stack.{stacked, scope_of, marker_of};

use crate::entry::{Entry, Opens};

/// A member that waits for the item that it belongs to.
#[derive(Clone, Copy, Debug)]
pub struct Waiting {
    /// Its item.
    pub item: Entry,
    /// The greatest column among the item and what it takes.
    pub deepest: u32,
}

/// Whether an item is a marker.
pub fn is_marker(opens: Opens) -> bool
    ensures { result ≡ is_marker_item opens }
{
    matches!(opens, Opens::Second(_) | Opens::Stray)
}

/// Whether a member belongs to a scope of this column.
fn belongs(column: u32, member: Waiting) -> bool
    ensures { result ≡ (not (is_marker_item member.item.opens) && nat_lt column member.item.column) }
{
    !is_marker(member.item.opens) && column < member.item.column
}

/// How many of the members that wait, from the last on, are in a scope of this column.
fn count_inside(waiting: &[Waiting], column: u32) -> usize
    ensures low { result ≤ length waiting.now }
    ensures exact { (ms : List Member) → waiting.now ≡ stacked ms → result ≡ length (inside column ms) }
{
    let count = waiting.len();
    for k in 0..count {
        if !belongs(column, waiting[count - 1 - k]) {
            return k;
        }
    }
    count
}

/// How many of the members that wait, from the last on, stand before the first marker.
fn count_before_marker(waiting: &[Waiting]) -> usize
    ensures low { result ≤ length waiting.now }
    ensures exact { (ms : List Member) → waiting.now ≡ stacked ms → result ≡ length (before_marker ms) }
{
    let count = waiting.len();
    for k in 0..count {
        if is_marker(waiting[count - 1 - k].item.opens) {
            return k;
        }
    }
    count
}

/// How many of the members that wait, from the last on, are in the scope of an item.
pub fn count_scope(waiting: &[Waiting], entry: Entry) -> usize
    ensures low { result ≤ length waiting.now }
    ensures exact { (ms : List Member) → waiting.now ≡ stacked ms → result ≡ length (scope_of entry.opens entry ms) }
{
    match entry.opens {
        Opens::ForAll => count_before_marker(waiting),
        Opens::Second(column) => count_inside(waiting, column),
        _ => count_inside(waiting, entry.column),
    }
}

/// How many markers an item takes, where so many of the members that wait are in its scope.
pub fn count_marker(waiting: &[Waiting], entry: Entry, count: usize) -> usize
    requires { count ≤ length waiting.now }
    ensures low { count + result ≤ length waiting.now }
    ensures exact { (ms : List Member) → waiting.now ≡ stacked ms → count ≡ length (scope_of entry.opens entry ms) → result ≡ length (marker_of entry.opens ms) }
{
    match entry.opens {
        Opens::ForAll if count < waiting.len() => 1,
        _ => 0,
    }
}

/// The greatest column among some members.
pub fn deepest(members: &[Waiting]) -> u32
    ensures { (ms : List Member) → members.now ≡ stacked ms → result ≡ deepest_of ms }
{
    let mut deepest = 0;
    for member in members {
        deepest = greater(member.deepest, deepest);
    }
    deepest
}

/// The greater of two columns.
pub fn greater(column: u32, other: u32) -> u32
    ensures { result ≡ max column other }
{
    if column < other { other } else { column }
}
