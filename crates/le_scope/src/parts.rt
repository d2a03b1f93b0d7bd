ghost use Rattle.std.specs.Prelude.{◌≡◌, ◌+◌, ◌<◌, ◌≤◌, ◌++◌, Some, None, List, if◌then◌else◌, length, reverse, slice_range, IfOk, OnOk};
ghost use Rattle.std.specs.List.{All};
ghost use Rattle.le_layout.specs.Layout.{IsLayout};
ghost use Rattle.le_layout.specs.Words.{IsSpan, tokens_of, token_of};
ghost use Rattle.le_scope.specs.declared.phrase.PhraseForm.TheVariants.{List as ListForm};
ghost use Rattle.le_scope.specs.Phrases.{phrase_form};
ghost use Rattle.le_scope.specs.declared.parts.ListPart.{ListPart};
ghost use Rattle.le_scope.specs.declared.parts.ListPart.TheVariants.{Cell, End, Item};
ghost use Rattle.le_scope.specs.Lists.{until_end};
ghost use Rattle.le_scope.specs.Parts.{parts_of_list, IsPartOf, passed, bar_passed, closes_next, part_at, opened_after, inside_after, with_part};

use crate::lists::{ends_item, is_close, is_open};
use le_layout::{Kind, Layout, Span};
use std::alloc::{AllocError, Global};

/// A symbol of a list's term.
#[derive(Clone, Copy, Debug, PartialEq, Eq)]
pub enum ListPart {
    /// A cell, whose first term and second term follow.
    Cell,
    /// The empty list.
    End,
    /// The term of the phrase without brackets that these tokens are.
    Item(Span),
}

/// The symbols of the term of a list that some tokens are, in preorder, which is the order of the tokens.
/// `[p, q]` is a cell of p and of a cell of q and the empty list, and `[p | r]` is a cell of p and r. The
/// layout is a valid one and has the tokens, which are a list.
pub fn list_parts(alloc: Global, layout: &Layout, tokens: Span) -> Result<Vec<ListPart>, AllocError>
    requires layout { IsLayout layout.now }
    requires tokens { IsSpan layout.now tokens }
    requires list { phrase_form layout.now (tokens_of layout.now tokens) ≡ Some ListForm }
    ensures parts { IfOk result (λ parts. parts.items ≡ parts_of_list layout.now tokens) }
    ensures within { IfOk result (λ parts. All (IsPartOf layout.now) parts.items) }
{
    let mut parts = Vec::new(alloc);
    let mut opened: Vec<bool> = Vec::new(alloc);
    let mut inside = false;
    for at in tokens.from..tokens.to {
        let kind = layout.token(at).kind;
        let bar = passed(opened.as_slice());
        let part = part_at(layout, at, tokens.to, inside, bar);
        push_part(&mut parts, part)?;
        let closing = closes(layout, at + 1, tokens.to);
        open_lists(&mut opened, kind, closing)?;
        inside = inside_after(kind);
    }
    Ok(parts)
}

// Adds a symbol, where there is one.
fn push_part(parts: &mut Vec<ListPart>, part: Option<ListPart>) -> Result<(), AllocError>
    ensures { OnOk result ((rest : List ListPart) → parts.new.items ++ rest ≡ parts.old.items ++ with_part part rest) }
{
    if let Some(part) = part {
        parts.push(part)?;
    }
    Ok(())
}

// The symbol that a token gives: it stands in a phrase without brackets that began before it or doesn't, and
// the bar of the innermost open list was passed or wasn't.
fn part_at(layout: &Layout, at: u32, to: u32, inside: bool, bar: bool) -> Option<ListPart>
    requires ordered { at < to }
    requires within { to ≤ length layout.now.tokens }
    ensures { result ≡ part_at (token_of layout.now at).kind at inside bar (slice_range layout.now.tokens (at + 1) to) }
{
    match layout.token(at).kind {
        Kind::Open => Some(first_part(layout, at + 1, to)),
        Kind::Comma => Some(ListPart::Cell),
        Kind::Bar => None,
        Kind::Close => end_part(bar),
        _ => item_part(layout, at, to, inside),
    }
}

// What an opening bracket before a token gives.
fn first_part(layout: &Layout, at: u32, to: u32) -> ListPart
    requires ordered { at ≤ to }
    requires within { to ≤ length layout.now.tokens }
    ensures { Some result ≡ (if closes_next (slice_range layout.now.tokens at to) then Some End else Some Cell) }
{
    if closes(layout, at, to) {
        ListPart::End
    } else {
        ListPart::Cell
    }
}

// What a closing bracket gives.
fn end_part(bar: bool) -> Option<ListPart>
    ensures { result ≡ (if bar then None else Some End) }
{
    if bar { None } else { Some(ListPart::End) }
}

// What a token of a phrase without brackets gives.
fn item_part(layout: &Layout, at: u32, to: u32, inside: bool) -> Option<ListPart>
    requires ordered { at < to }
    requires within { to ≤ length layout.now.tokens }
    ensures { result ≡ (if inside then None else Some (Item (record { from = at; to = at + 1 + until_end (slice_range layout.now.tokens (at + 1) to) }))) }
{
    if inside {
        return None;
    }
    let to = item_end(layout, at + 1, to);
    Some(ListPart::Item(Span { from: at, to }))
}

// The next token that ends an item, or the end.
fn item_end(layout: &Layout, from: u32, to: u32) -> u32
    requires ordered { from ≤ to }
    requires within { to ≤ length layout.now.tokens }
    ensures { result ≡ from + until_end (slice_range layout.now.tokens from to) }
{
    for at in from..to {
        if ends_item(layout.token(at).kind) {
            return at;
        }
    }
    to
}

// Whether the token at a place closes a list.
fn closes(layout: &Layout, at: u32, to: u32) -> bool
    requires ordered { at ≤ to }
    requires within { to ≤ length layout.now.tokens }
    ensures { result ≡ closes_next (slice_range layout.now.tokens at to) }
{
    if at == to {
        return false;
    }
    is_close(layout.token(at).kind)
}

// Whether the token after one of this kind stands in a phrase without brackets that began before it.
fn inside_after(kind: Kind) -> bool
    ensures { result ≡ inside_after kind }
{
    !(is_open(kind) || ends_item(kind))
}

// Whether the bar of the innermost open list was passed.
fn passed(opened: &[bool]) -> bool
    ensures { result ≡ passed (reverse opened.now) }
{
    if opened.is_empty() {
        return false;
    }
    opened[opened.len() - 1]
}

// Keeps the lists that are open after a token of this kind, the innermost last.
fn open_lists(opened: &mut Vec<bool>, kind: Kind, closing: bool) -> Result<(), AllocError>
    ensures { OnOk result (reverse opened.new.items ≡ opened_after kind closing (reverse opened.old.items)) }
{
    match kind {
        Kind::Open => opened.push(closing)?,
        Kind::Bar => pass_bar(opened),
        Kind::Close => {
            opened.pop();
        }
        _ => {}
    }
    Ok(())
}

// Notes that the bar of the innermost open list was passed.
fn pass_bar(opened: &mut Vec<bool>)
    ensures { reverse opened.new.items ≡ bar_passed (reverse opened.old.items) }
{
    if opened.pop().is_some() {
        opened.push(true).unwrap();
    }
}
