ghost use Rattle.std.specs.Prelude.{◌≡◌, ◌+◌, ◌<◌, ◌++◌, [], ◌∷◌, length, map, false, IfOk, OnOk};
ghost use Rattle.le_layout.specs.Layout.{IsLayout};
ghost use Rattle.le_layout.specs.Words.{IsSpan, IsSomeSpan, tokens_of, token_of};
ghost use Rattle.le_match.specs.Shares.{IsRead};
ghost use Rattle.le_match.specs.Shown.{shown as shown_of, opening, closing, plain, is_open as is_open_kind, is_close as is_close_kind, share_pieces, text_from};
ghost use Rattle.le_match.specs.Walks.{Writes, space};

use crate::Reading;
use crate::sharing::{Place, places};
use le_base::Text;
use le_layout::{Kind, Layout, Span};
use le_templates::Templates;
use std::alloc::{AllocError, Global};

// How a reading is shown: its marked sentence.
pub(crate) fn shown(
    alloc: Global,
    layout: &Layout,
    templates: &Templates,
    tokens: Span,
    reading: &Reading,
) -> Result<Text, AllocError>
    requires layout { IsLayout layout.now }
    requires tokens { IsSpan layout.now tokens }
    requires known { reading.now.pred < 20 + length templates.now }
    requires read { IsRead templates.now layout.now (tokens_of layout.now tokens) reading.now }
    ensures { IfOk result (λ text. text ≡ shown_of templates.now layout.now (tokens_of layout.now tokens) reading.now) }
{
    let places = places(alloc, layout, templates, tokens, reading)?;
    let mut line = Line {
        text: Text::new(alloc),
        glued: true,
    };
    for place in &places {
        match *place {
            Place::Word(at) => put_token(layout, &mut line, at)?,
            Place::Slot(span) => put_slot(layout, &mut line, span)?,
        }
    }
    Ok(line.text)
}

// The text of the pieces so far, and whether no space stands after the last of them.
#[derive(Drop)]
pub(crate) struct Line {
    text: Text,
    glued: bool,
}

// Puts a slot's tokens, between asterisks.
fn put_slot(layout: &Layout, line: &mut Line, span: Span) -> Result<(), AllocError>
    requires layout { IsLayout layout.now }
    requires span { IsSomeSpan layout.now span }
    ensures { OnOk result (Writes layout.now line.old line.new (opening ∷ (map plain (tokens_of layout.now span) ++ closing ∷ []))) }
{
    put(line, "*", false)?;
    line.glued = true;
    put_tokens(layout, line, span)?;
    put(line, "*", true)
}

// Puts some tokens.
fn put_tokens(layout: &Layout, line: &mut Line, span: Span) -> Result<(), AllocError>
    requires layout { IsLayout layout.now }
    requires span { IsSpan layout.now span }
    ensures { OnOk result (Writes layout.now line.old line.new (map plain (tokens_of layout.now span))) }
{
    for at in span.from..span.to {
        put_token(layout, line, at)?;
    }
    Ok(())
}

// Puts a token as it is spelled, a quoted text with its quotation marks.
fn put_token(layout: &Layout, line: &mut Line, at: u32) -> Result<(), AllocError>
    requires layout { IsLayout layout.now }
    requires inside { at < length layout.now.tokens }
    ensures { OnOk result (Writes layout.now line.old line.new (plain (token_of layout.now at) ∷ [])) }
{
    let kind = layout.token(at).kind;
    if kind.is_quote() {
        put(line, "\"", false)?;
        line.text.push_str(layout.word(at))?;
        line.text.push_str("\"")?;
    } else {
        put(line, layout.word(at), is_close(kind))?;
    }
    line.glued = is_open(kind);
    Ok(())
}

// Puts a text, after a space unless none stands before or after. A space may stand after it.
fn put(line: &mut Line, text: &str, hugs: bool) -> Result<(), AllocError>
    ensures text { OnOk result (line.new.text ≡ line.old.text ++ space line.old.glued hugs ++ text.now) }
    ensures glued { OnOk result (line.new.glued ≡ false) }
{
    if !line.glued && !hugs {
        line.text.push_str(" ")?;
    }
    line.text.push_str(text)?;
    line.glued = false;
    Ok(())
}

// Whether no space stands after a token of this kind.
fn is_open(kind: Kind) -> bool
    ensures { result ≡ is_open_kind kind }
{
    matches!(kind, Kind::Open)
}

// Whether no space stands before a token of this kind.
fn is_close(kind: Kind) -> bool
    ensures { result ≡ is_close_kind kind }
{
    matches!(kind, Kind::Close | Kind::Comma)
}
