ghost use Rattle.std.specs.Prelude.{◌≡◌, ◌^◌, ◌≤◌, length, IfOk, chars, IsUtf8};
ghost use Rattle.le_base.specs.Stop.{Gives};
ghost use Rattle.le_layout.specs.Places.{first_place, without_mark};
ghost use Rattle.le_layout.specs.Room.{HasRoom};
ghost use Rattle.le_layout.specs.Faults.{unless_faulty};
ghost use Rattle.le_layout.specs.Layout.{layout_in, layout_of, faults_of, place_in, IsLayout};

use crate::characters::{characters, without_mark};
use crate::lines::scan_lines;
use crate::place::{Place, first_place, place_behind, refused};
use crate::{Layout, Lines, Tokens};
use le_base::{Code, Stop, Text};
use std::alloc::{AllocError, Global};
use std::str;

/// The layout of a text of at most 2^28 bytes, UTF-8, in which a byte order mark at the very start is
/// dropped.
///
/// It is refused with `NotUtf8` exactly where the bytes aren't UTF-8, at the first bad byte. Otherwise
/// it is refused exactly where one of the following holds, of which the least place decides: with
/// `BadCharacter` at a character that stands where none of its kind may stand, with `OpenQuote` at a
/// quotation mark that none follows on its line, with `BadNumber` at a word that is an optional `-`, a
/// digit and then digits, full stops and commas, but no number from -10^18 to 10^18, and with `BadDate`
/// at a word of the form of a date that is no date of the years 0001 to 9999. The other error is out of
/// memory.
pub fn scan(alloc: Global, bytes: &[u8]) -> Result<Layout, Stop>
    requires { length bytes.now ≤ 2 ^ 28 }
    ensures exact { Gives (λ layout. layout) result (layout_of bytes.now) }
    ensures sound { IfOk result IsLayout }
{
    match str::from_utf8(bytes) {
        Ok(text) => layout(alloc, text),
        Err(error) => {
            let place = place_in(alloc, &bytes[..error.valid_up_to()])?;
            Err(Stop::Refused(refused(alloc, Code::NotUtf8, place)))
        }
    }
}

// The layout of a text, or its refusal.
fn layout(alloc: Global, text: &str) -> Result<Layout, Stop>
    requires { length text.now ≤ 2 ^ 28 }
    ensures { Gives (λ layout. layout) result (unless_faulty (layout_in text.now) (faults_of (chars text.now))) }
{
    let chars = characters(alloc, text)?;
    let (tokens, lines) = scan_lines(alloc, text, without_mark(&chars), first_place(&chars))?;
    Ok(Layout {
        text: Text::of(alloc, text)?,
        tokens: Tokens::from_vec(tokens),
        lines: Lines::from_vec(lines),
    })
}

// The place after the first bytes of a text, which are UTF-8.
fn place_in(alloc: Global, front: &[u8]) -> Result<Place, AllocError>
    requires short { length front.now ≤ 2 ^ 28 }
    requires utf8 { IsUtf8 front.now }
    ensures value { IfOk result (λ place. place ≡ place_in front.now) }
    ensures room { IfOk result (λ place. HasRoom place 0) }
{
    let Ok(text) = str::from_utf8(front) else {
        return Ok(first_place(&[]));
    };
    let chars = characters(alloc, text)?;
    Ok(place_behind(first_place(&chars), without_mark(&chars)))
}
