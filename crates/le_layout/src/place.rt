ghost use Rattle.std.specs.Prelude.{◌≡◌, ◌-◌, ◌^◌, ◌<◌, length};
ghost use Rattle.le_base.specs.Stop.{refusal_at};
ghost use Rattle.le_layout.specs.Places.{next_column, next_place, place_behind, first_place, refused};
ghost use Rattle.le_layout.specs.Room.{HasRoom};

use crate::characters::has_mark;
use le_base::{Code, Refusal};
use std::alloc::Global;

/// A place in a text, before a character or at the end.
#[derive(Clone, Copy, Debug)]
pub struct Place {
    /// How many bytes of the text stand before it.
    pub byte: u32,
    /// The number of its line, from 1.
    pub line: u32,
    /// Its column, from 0.
    pub column: u32,
}

// The place of the first character of a text after its byte order mark.
pub(crate) fn first_place(chars: &[char]) -> Place
    ensures { result ≡ first_place chars.now }
{
    Place {
        byte: if has_mark(chars) { 3 } else { 0 },
        line: 1,
        column: 0,
    }
}

// The place after characters that stand one after another.
pub(crate) fn place_behind(from: Place, chars: &[char]) -> Place
    requires { HasRoom from (length chars.now) }
    ensures { result ≡ place_behind from chars.now }
{
    let mut place = from;
    let mut at = 0;
    while at < chars.len() {
        place = next_place(place, chars[at]);
        at += 1;
    }
    place
}

// The place after a character.
#[tactic(auto, unfolding(crate::specs::Places::next_place))]
pub(crate) fn next_place(place: Place, c: char) -> Place
    requires { HasRoom place 1 }
    ensures { result ≡ next_place place c }
{
    if c == '\n' {
        Place {
            byte: place.byte + 1,
            line: place.line + 1,
            column: 0,
        }
    } else {
        Place {
            byte: place.byte + c.len_utf8() as u32,
            line: place.line,
            column: next_column(place.column, c),
        }
    }
}

// The column after a character.
fn next_column(column: u32, c: char) -> u32
    requires { column < 2 ^ 32 - 4 }
    ensures { result ≡ next_column column c }
{
    if c == '\t' {
        (column / 4 + 1) * 4
    } else {
        column + 1
    }
}

// A refusal at a place.
pub(crate) fn refused(alloc: Global, code: Code, place: Place) -> Refusal
    requires { HasRoom place 0 }
    ensures { result ≡ refused code place }
{
    Refusal::at(alloc, code, place.line, place.column + 1)
}
