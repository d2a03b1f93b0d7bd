ghost use Rattle.std.specs.Prelude.{◌≡◌, ◌≤◌, ◌&&◌, List, length, flat_map, nat_le};
ghost use Rattle.le_conds.specs.Members.{Member, deepest_of};
ghost use Rattle.le_conds.specs.Faults.{is_bare as is_bare_item, same_lead as same_lead_of, is_connective as is_connective_lead, member_faults, between_faults, headed_faults, level_faults, first_is_plain, block_faults, nothing_below, scope_faults, marker_faults, for_all_faults, negation_faults, opener_faults, least_onto};
ghost use Rattle.le_conds.specs.Stack.{stacked, scope_of};

use crate::blocks::{Waiting, deepest, is_marker};
use crate::entry::{Entry, Join, Opens};
use crate::faults::{is_empty, sooner_if};
use le_base::Code;
use le_layout::Fault;

/// Whether an item begins with a connective.
fn is_connective(lead: Join) -> bool
    ensures { result ≡ is_connective_lead lead }
{
    !matches!(lead, Join::Plain)
}

/// Whether two items begin with the same connective, or both with none.
fn same_lead(lead: Join, other: Join) -> bool
    ensures { result ≡ same_lead_of lead other }
{
    match lead {
        Join::Plain => matches!(other, Join::Plain),
        Join::And => matches!(other, Join::And),
        Join::Or => matches!(other, Join::Or),
    }
}

/// Whether no sentence follows an opener or a marker in its own item.
pub fn is_bare(entry: Entry) -> bool
    ensures { result ≡ is_bare_item entry }
{
    is_empty(entry.inline)
}

/// The fault that decides among that of a member of a block of this level and those that were found.
fn member_fault(level: u32, lead: Join, item: Entry, least: Option<Fault>) -> Option<Fault>
    ensures { (m : Member) → m.item ≡ item → result ≡ least_onto (member_faults level lead m) least }
{
    if is_marker(item.opens) {
        return least;
    }
    if item.column < level {
        return sooner_if(true, Code::BadIndent, item.at, least);
    }
    let fits = is_connective(item.lead) && same_lead(item.lead, lead);
    sooner_if(!fits, Code::MixedConnectives, item.at, least)
}

/// The fault that decides among those of members of a block of this level and those that were found.
fn members_fault(level: u32, lead: Join, members: &[Waiting], least: Option<Fault>) -> Option<Fault>
    ensures { (ms : List Member) → members.now ≡ stacked ms → result ≡ least_onto (flat_map (member_faults level lead) ms) least }
{
    let mut found = least;
    for k in 0..members.len() {
        found = member_fault(level, lead, members[k].item, found);
    }
    found
}

/// The same of a block that a sentence heads.
fn headed_fault(members: &[Waiting], least: Option<Fault>) -> Option<Fault>
    ensures { (ms : List Member) → members.now ≡ stacked ms → result ≡ least_onto (headed_faults ms) least }
{
    let count = members.len();
    if count == 0 {
        return least;
    }
    let first = members[count - 1].item;
    members_fault(first.column, first.lead, members, least)
}

/// The same of a block of members alone.
fn level_fault(members: &[Waiting], least: Option<Fault>) -> Option<Fault>
    ensures { (ms : List Member) → members.now ≡ stacked ms → result ≡ least_onto (level_faults ms) least }
{
    let count = members.len();
    if count < 2 {
        return least;
    }
    let level = members[count - 1].item.column;
    let lead = members[count - 2].item.lead;
    members_fault(level, lead, &members[..count - 1], least)
}

/// The same of its first member, which has no connective.
fn first_fault(members: &[Waiting], least: Option<Fault>) -> Option<Fault>
    ensures { (ms : List Member) → members.now ≡ stacked ms → result ≡ least_onto (first_is_plain ms) least }
{
    let count = members.len();
    if count == 0 {
        return least;
    }
    let first = members[count - 1].item;
    sooner_if(is_connective(first.lead), Code::BadIndent, first.at, least)
}

/// The fault that decides among those of a block, which a sentence heads or not, and those that were found.
pub fn block_fault(is_headless: bool, members: &[Waiting], least: Option<Fault>) -> Option<Fault>
    ensures { (ms : List Member) → members.now ≡ stacked ms → result ≡ least_onto (block_faults is_headless ms) least }
{
    if is_headless {
        first_fault(members, level_fault(members, least))
    } else {
        headed_fault(members, least)
    }
}

/// The same of the scope of an opener or a marker.
fn scope_fault(entry: Entry, members: &[Waiting], least: Option<Fault>) -> Option<Fault>
    ensures { (ms : List Member) → members.now ≡ stacked ms → result ≡ least_onto (scope_faults entry ms) least }
{
    let bare = is_bare(entry);
    let least = block_fault(bare, members, least);
    sooner_if(
        bare && members.is_empty(),
        Code::BadIndent,
        entry.own,
        least,
    )
}

/// The same of the scope of a negation.
fn negation_fault(entry: Entry, members: &[Waiting], least: Option<Fault>) -> Option<Fault>
    ensures { (ms : List Member) → members.now ≡ stacked ms → result ≡ least_onto (negation_faults (is_bare_item entry) entry ms) least }
{
    if is_bare(entry) {
        return scope_fault(entry, members, least);
    }
    below_fault(members, least)
}

/// The same of a negation that has its sentence: nothing may be in its scope.
fn below_fault(members: &[Waiting], least: Option<Fault>) -> Option<Fault>
    ensures { (ms : List Member) → members.now ≡ stacked ms → result ≡ least_onto (nothing_below ms) least }
{
    let count = members.len();
    if count == 0 {
        return least;
    }
    sooner_if(true, Code::NegationScope, members[count - 1].item.at, least)
}

/// The same of the items between a `for all` of this column and its marker.
fn between_fault(column: u32, members: &[Waiting], least: Option<Fault>) -> Option<Fault>
    ensures { (ms : List Member) → members.now ≡ stacked ms → result ≡ least_onto (flat_map (between_faults column) ms) least }
{
    let mut found = least;
    for k in 0..members.len() {
        let item = members[k].item;
        found = sooner_if(item.column <= column, Code::BadIndent, item.at, found);
    }
    found
}

/// The same of a `for all` and its first block.
fn for_all_fault(entry: Entry, members: &[Waiting], least: Option<Fault>) -> Option<Fault>
    ensures { (ms : List Member) → members.now ≡ stacked ms → result ≡ least_onto (for_all_faults entry ms) least }
{
    let least = block_fault(is_bare(entry), members, least);
    let least = between_fault(entry.column, members, least);
    sooner_if(
        is_unfilled(entry, members),
        Code::BadIndent,
        entry.own,
        least,
    )
}

/// Whether a `for all` has neither a sentence nor a deeper item among these.
fn is_unfilled(entry: Entry, members: &[Waiting]) -> bool
    ensures { (ms : List Member) → members.now ≡ stacked ms → result ≡ (is_bare_item entry && nat_le (deepest_of ms) entry.column) }
{
    is_bare(entry) && deepest(members) <= entry.column
}

/// The same of a `for all`'s marker, which is the last of these members.
fn marker_fault(entry: Entry, members: &[Waiting], least: Option<Fault>) -> Option<Fault>
    ensures { (ms : List Member) → members.now ≡ stacked ms → result ≡ least_onto (marker_faults entry ms) least }
{
    let count = members.len();
    if count == 0 {
        return sooner_if(true, Code::BadIndent, entry.own, least);
    }
    let marker = members[count - 1].item;
    sooner_if(
        marker.column < entry.column,
        Code::BadIndent,
        marker.at,
        least,
    )
}

/// The fault that decides among those of an item and its scope and those that were found, where so many of
/// the members that wait are in its scope.
pub fn item_fault(
    entry: Entry,
    waiting: &[Waiting],
    count: usize,
    least: Option<Fault>,
) -> Option<Fault>
    requires { count ≤ length waiting.now }
    ensures { (ms : List Member) → waiting.now ≡ stacked ms → count ≡ length (scope_of entry.opens entry ms) → result ≡ least_onto (opener_faults entry.opens entry ms) least }
{
    let (others, inner) = waiting.split_at(waiting.len() - count);
    match entry.opens {
        Opens::Nothing => headed_fault(inner, least),
        Opens::Negation => negation_fault(entry, inner, least),
        Opens::ForAll => marker_fault(entry, others, for_all_fault(entry, inner, least)),
        Opens::Stray => sooner_if(true, Code::BadIndent, entry.own, least),
        Opens::Second(_) => scope_fault(entry, inner, least),
        Opens::Gather { .. } => scope_fault(entry, inner, least),
    }
}
