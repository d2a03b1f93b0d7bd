ghost use Rattle.std.specs.Prelude.{◌≡◌, ◌+◌, ◌-◌, ◌<◌, ◌≤◌, length, vec_len, IfOk};
ghost use Rattle.le_layout.specs.Layout.{IsLayout};
ghost use Rattle.le_conds.specs.Bounds.{AreItemsOver};
ghost use Rattle.le_conds.specs.Openers.{gather_end};
ghost use Rattle.le_conds.specs.Items.{is_bare as is_bare_of, lead_of_line as lead_of_line_at, lead_at as lead_at_token, items_of};

use crate::item::{Item, Lead};
use crate::openers::{Seen, is_first, is_place, opens_for_all, opens_marker, opens_negation};
use le_layout::Layout;
use std::alloc::{AllocError, Global};

/// The items of these tokens, which are conditions.
pub fn items(alloc: Global, layout: &Layout, from: u32, to: u32) -> Result<Vec<Item>, AllocError>
    requires layout { IsLayout layout.now }
    requires ordered { from ≤ to }
    requires inside { to ≤ length layout.now.tokens }
    ensures exact { IfOk result (λ items. items.items ≡ items_of layout.now from to) }
    ensures over { IfOk result (λ items. AreItemsOver (length layout.now.tokens) items.items) }
    ensures few { IfOk result (λ items. vec_len items ≤ to - from + 1) }
{
    let mut items = Vec::new(alloc);
    let mut item = Item::opened(Lead::Plain, from);
    let mut seen = Seen::nothing();
    for k in from..to {
        if let Some(lead) = lead_at(layout, to, item, seen, k) {
            items.push(item.closed(k))?;
            item = Item::opened(lead, k);
            seen = Seen::nothing();
        }
        seen = seen.further(layout, item.content.from, k);
    }
    items.push(item.closed(to))?;
    Ok(items)
}

/// How a further item begins at a token, where one does.
#[tactic(auto, unfolding(crate::specs::Items::lead_at))]
fn lead_at(layout: &Layout, to: u32, item: Item, seen: Seen, k: u32) -> Option<Lead>
    requires layout { IsLayout layout.now }
    requires inside { k < to }
    requires within { to ≤ length layout.now.tokens }
    requires begun { item.content.from ≤ k }
    requires seen { seen.such_that ≡ gather_end layout.now item.content.from k }
    ensures { result ≡ lead_at_token layout.now to item k }
{
    if is_first(layout, k) {
        lead_of_line(layout, to, item, seen, k)
    } else {
        None
    }
}

/// How a further item begins at a line's first token, where one does.
#[tactic(auto, unfolding(crate::specs::Items::lead_of_line))]
fn lead_of_line(layout: &Layout, to: u32, item: Item, seen: Seen, k: u32) -> Option<Lead>
    requires layout { IsLayout layout.now }
    requires inside { k < to }
    requires within { to ≤ length layout.now.tokens }
    requires begun { item.content.from ≤ k }
    requires seen { seen.such_that ≡ gather_end layout.now item.content.from k }
    ensures { result ≡ lead_of_line_at layout.now to item k }
{
    if layout.has_word(k, "and") {
        Some(Lead::And)
    } else if layout.has_word(k, "or") {
        Some(Lead::Or)
    } else if opens_marker(layout, k, to) {
        Some(Lead::Marker)
    } else if is_bare(layout, item.lead, seen, item.content.from, k) {
        Some(Lead::Plain)
    } else {
        None
    }
}

/// Whether content that ends here is a marker or an opener and nothing else.
#[tactic(auto, unfolding(crate::specs::Items::is_bare))]
fn is_bare(layout: &Layout, lead: Lead, seen: Seen, from: u32, k: u32) -> bool
    requires layout { IsLayout layout.now }
    requires begun { from ≤ k }
    requires within { k ≤ length layout.now.tokens }
    requires seen { seen.such_that ≡ gather_end layout.now from k }
    ensures { result ≡ is_bare_of layout.now lead from k }
{
    if lead.is_marker() {
        k - from == 5
    } else if opens_negation(layout, from, k) {
        k - from == 6
    } else if opens_for_all(layout, from, k) {
        k - from == 5
    } else {
        is_place(seen.such_that, k)
    }
}
