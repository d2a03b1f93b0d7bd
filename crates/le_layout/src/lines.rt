ghost use Rattle.std.specs.Prelude.{◌≡◌, ◌+◌, ◌^◌, ◌<◌, ◌≤◌, ◌++◌, [], length, take, drop, true, vec_len, OnOk, IfOk, flat_map, List};
ghost use Rattle.le_base.specs.Stop.{Gives};
ghost use Rattle.le_layout.specs.Lines.{first_line, lines_of};
ghost use Rattle.le_layout.specs.Pieces.{pieces_of};
ghost use Rattle.le_layout.specs.Places.{place_behind};
ghost use Rattle.le_layout.specs.Room.{HasRoom, StandsIn};
ghost use Rattle.le_layout.specs.Faults.{faults_at, faults_from, unless_faulty};
ghost use Rattle.le_layout.specs.Layout.{token_at, single_token, tokens_at, rows_from, line_of, lines_from, as_list, token};
ghost use Rattle.le_layout.specs.declared.token.Token.{Token};
ghost use Rattle.le_layout.specs.declared.token.Line.{Line};

use crate::characters::kind_of;
use crate::faults::fault_at;
use crate::piece::{Form, first_piece};
use crate::place::{Place, place_behind};
use crate::{Kind, Line, Token};
use le_base::Stop;
use std::alloc::{AllocError, Global};

// The tokens and the lines of the characters of a text from a place on.
pub(crate) fn scan_lines(
    alloc: Global,
    text: &str,
    chars: &[char],
    from: Place,
) -> Result<(Vec<Token>, Vec<Line>), Stop>
    requires room { HasRoom from (length chars.now) }
    requires short { length chars.now < 2 ^ 32 }
    requires lie { StandsIn text.now from chars.now }
    ensures { Gives {Y = List Token × List Line} (λ r. (r.0.items, r.1.items)) result (unless_faulty (flat_map (λ row. row) (rows_from from (lines_of chars.now)), lines_from 0 (rows_from from (lines_of chars.now))) (faults_from from (lines_of chars.now))) }
{
    let mut tokens = Vec::new(alloc);
    let mut lines = Vec::new(alloc);
    let mut place = from;
    let mut at = 0;
    while at < chars.len() {
        let first = tokens.len();
        let end = at + line_len(&chars[at..]);
        place = scan_line(alloc, text, &chars[at..end], place, &mut tokens)?;
        push_line(&mut lines, tokens.as_slice(), first)?;
        at = end;
    }
    Ok((tokens, lines))
}

// How many characters the first line has, with its LF.
fn line_len(rest: &[char]) -> usize
    ensures value { result ≡ length (first_line rest.now) }
    ensures inside { result ≤ length rest.now }
{
    let mut len = 0;
    while len < rest.len() {
        if rest[len] == '\n' {
            return len + 1;
        }
        len += 1;
    }
    len
}

// Pushes the tokens of a line of a text that begins at a place, and gives the place after it.
fn scan_line(
    alloc: Global,
    text: &str,
    line: &[char],
    from: Place,
    tokens: &mut Vec<Token>,
) -> Result<Place, Stop>
    requires room { HasRoom from (length line.now) }
    requires lie { StandsIn text.now from line.now }
    ensures place { Gives (λ place. place) result (unless_faulty (place_behind from line.now) (faults_at from (pieces_of line.now))) }
    ensures pushed { OnOk result (tokens.new.items ≡ tokens.old.items ++ tokens_at from (pieces_of line.now)) }
    ensures count { OnOk result (vec_len tokens.new ≤ vec_len tokens.old + length line.now) }
{
    let mut place = from;
    let mut at = 0;
    while at < line.len() {
        let (form, width) = first_piece(&line[at..]);
        let end = at + width;
        let chars = &line[at..end];
        let behind = place_behind(place, chars);
        let piece = &text[place.byte as usize..behind.byte as usize];
        if let Some(refusal) = fault_at(alloc, form, piece, chars, &line[end..], place, behind) {
            return Err(Stop::Refused(refusal));
        }
        if let Some(token) = token_at(form, chars, place, behind.byte) {
            tokens.push(token)?;
        }
        place = behind;
        at = end;
    }
    Ok(place)
}

// The token of a piece of this form that begins at a place and ends before a byte.
#[tactic(auto, unfolding(crate::specs::Layout::token_at))]
fn token_at(form: Form, chars: &[char], place: Place, to: u32) -> Option<Token>
    requires some { 0 < length chars.now }
    requires room { HasRoom place 1 }
    requires later { place.byte < to }
    ensures { as_list result ≡ token_at form chars.now place to }
{
    match form {
        Form::Word => Some(token(Kind::Word, place, place.byte, to)),
        Form::Quote => Some(token(Kind::Quote, place, place.byte + 1, to - 1)),
        Form::Single => Some(token(kind_of(chars[0])?, place, place.byte, to)),
        _ => None,
    }
}

// The token of this kind whose place this is and whose bytes are those from one to another.
fn token(kind: Kind, place: Place, from: u32, to: u32) -> Token
    requires { HasRoom place 0 }
    ensures { result ≡ token kind place from to }
{
    Token {
        kind,
        from,
        to,
        line: place.line,
        column: place.column + 1,
    }
}

// Pushes the line whose tokens are those from `first` on, if there are any. Columns count from 1, and
// indents from 0.
fn push_line(lines: &mut Vec<Line>, tokens: &[Token], first: usize) -> Result<(), AllocError>
    requires { length tokens.now < 2 ^ 32 }
    ensures { OnOk result (lines.new.items ≡ lines.old.items ++ line_of first (drop first tokens.now)) }
{
    if first < tokens.len() {
        let token = tokens[first];
        lines.push(Line {
            number: token.line,
            indent: token.column.saturating_sub(1),
            from: first as u32,
            to: tokens.len() as u32,
        })?;
    }
    Ok(())
}
