ghost use Rattle.std.specs.Prelude.{◌≡◌, ◌+◌, ◌^◌, ◌<◌, ◌≤◌, length, slice_range, slice_index_or, reverse};
ghost use Rattle.le_layout.specs.Layout.{IsLayout};
ghost use Rattle.le_layout.specs.Words.{token_of};
ghost use Rattle.le_scope.specs.Lengths.{simple_lengths};
ghost use Rattle.le_scope.specs.Lists.{is_open, is_close, ends_item, until_end, at as row_of, no_lengths, onto, list_length, items_length, last_length, rows_of, first_row};

use crate::lengths::{PhraseLengths, is_length};
use le_layout::{Kind, Layout};

// The lengths at one token in a list, each 0 where there is none.
#[derive(Clone, Copy)]
pub(crate) struct ListLengths {
    // Of the phrase that ends before a token that ends an item.
    pub(crate) phrase: u32,
    // Of items with the bracket that closes them.
    pub(crate) items: u32,
    // Of a last phrase with that bracket.
    pub(crate) last: u32,
}

// Whether a token opens a list.
pub(crate) fn is_open(kind: Kind) -> bool
    ensures { result ≡ is_open kind }
{
    matches!(kind, Kind::Open)
}

// Whether a token closes a list.
pub(crate) fn is_close(kind: Kind) -> bool
    ensures { result ≡ is_close kind }
{
    matches!(kind, Kind::Close)
}

// Whether a token ends the phrase before it in a list.
pub(crate) fn ends_item(kind: Kind) -> bool
    ensures { result ≡ ends_item kind }
{
    matches!(kind, Kind::Close | Kind::Bar | Kind::Comma)
}

// How many tokens from a token on stand before one that ends an item, where so many do after it.
pub(crate) fn count_at(layout: &Layout, at: u32, to: u32, count: u32) -> u32
    requires ordered { at < to }
    requires within { to ≤ length layout.now.tokens }
    requires count { count ≡ until_end (slice_range layout.now.tokens (at + 1) to) }
    ensures { result ≡ until_end (slice_range layout.now.tokens at to) }
{
    if ends_item(layout.token(at).kind) {
        0
    } else {
        count + 1
    }
}

// The lengths at a token, where the phrases without brackets there have these lengths, so many tokens stand
// before one that ends an item, and these are the lengths at the tokens after it, the last first.
pub(crate) fn row_at(
    layout: &Layout,
    at: u32,
    to: u32,
    simple: PhraseLengths,
    count: u32,
    rows: &[ListLengths],
) -> ListLengths
    requires ordered { at < to }
    requires within { to ≤ length layout.now.tokens }
    requires simple { simple ≡ simple_lengths layout.now (slice_range layout.now.tokens at to) }
    requires count { count ≡ until_end (slice_range layout.now.tokens at to) }
    requires rows { rows.now ≡ reverse (rows_of layout.now (slice_range layout.now.tokens (at + 1) to)) }
    ensures { result ≡ first_row layout.now (slice_range layout.now.tokens at to) }
{
    let phrase = item_length(layout, at, to, simple, count, rows);
    if phrase == 0 {
        return phrase_alone(phrase);
    }
    if to - at <= phrase {
        return phrase_alone(phrase);
    }
    let next = layout.token(at + phrase).kind;
    let after = row_after(rows, phrase);
    ListLengths {
        phrase,
        items: items_length(phrase, next, after),
        last: last_length(phrase, next),
    }
}

// The lengths at a token where no items begin.
fn phrase_alone(phrase: u32) -> ListLengths
    ensures { result ≡ record { phrase = phrase; items = 0; last = 0 } }
{
    ListLengths {
        phrase,
        items: 0,
        last: 0,
    }
}

// How many tokens the phrase at a token has, before one that ends an item.
fn item_length(
    layout: &Layout,
    at: u32,
    to: u32,
    simple: PhraseLengths,
    count: u32,
    rows: &[ListLengths],
) -> u32
    requires ordered { at < to }
    requires within { to ≤ length layout.now.tokens }
    requires simple { simple ≡ simple_lengths layout.now (slice_range layout.now.tokens at to) }
    requires count { count ≡ until_end (slice_range layout.now.tokens at to) }
    requires rows { rows.now ≡ reverse (rows_of layout.now (slice_range layout.now.tokens (at + 1) to)) }
    ensures { result ≡ (first_row layout.now (slice_range layout.now.tokens at to)).phrase }
{
    if is_open(layout.token(at).kind) {
        return list_length(layout, at + 1, to, row_after(rows, 0).items);
    }
    if is_length(simple, count) { count } else { 0 }
}

// How many tokens the list has whose first bracket stands before a token, where items at that token have so many.
fn list_length(layout: &Layout, at: u32, to: u32, items: u32) -> u32
    requires inside { 0 < at }
    requires ordered { at ≤ to }
    requires within { to ≤ length layout.now.tokens }
    requires items { items ≡ (row_of (rows_of layout.now (slice_range layout.now.tokens at to)) 0).items }
    ensures { result ≡ list_length (slice_range layout.now.tokens at to) (rows_of layout.now (slice_range layout.now.tokens at to)) }
{
    if at == to {
        return 0;
    }
    if is_close(layout.token(at).kind) {
        return 2;
    }
    onto(1, items)
}

// The lengths at a place among those that stand in reverse order.
fn row_after(rows: &[ListLengths], place: u32) -> ListLengths
    ensures { result ≡ row_of (reverse rows.now) place }
{
    let place = place as usize;
    if rows.len() <= place {
        return phrase_alone(0);
    }
    rows[rows.len() - 1 - place]
}

// How many tokens items have whose first phrase has so many, by the token after it.
fn items_length(count: u32, next: Kind, after: ListLengths) -> u32
    requires items { count + 1 + after.items < 2 ^ 32 }
    requires last { count + 1 + after.last < 2 ^ 32 }
    ensures { result ≡ items_length count next after }
{
    match next {
        Kind::Close => count + 1,
        Kind::Comma => onto(count + 1, after.items),
        Kind::Bar => onto(count + 1, after.last),
        _ => 0,
    }
}

// How many tokens a last phrase of so many and the bracket after it are, by the token after it.
fn last_length(count: u32, next: Kind) -> u32
    requires { count + 1 < 2 ^ 32 }
    ensures { result ≡ last_length count next }
{
    match next {
        Kind::Close => count + 1,
        _ => 0,
    }
}

// So many tokens more than others, where there are any.
fn onto(count: u32, more: u32) -> u32
    requires { count + more < 2 ^ 32 }
    ensures { result ≡ onto count more }
{
    if more == 0 { 0 } else { count + more }
}
