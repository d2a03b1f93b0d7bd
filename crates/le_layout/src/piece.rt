ghost use Rattle.std.specs.Prelude.{◌≡◌, ◌<◌, ◌≤◌, ◌∷◌, length, take, drop};
ghost use Rattle.le_layout.specs.Pieces.{joins, goes_on, word_more, before_quote, has_quote, ends_line, before_end, form_at, more_at, piece, pieces_of};

use crate::characters::{begins_with, is_word_character};

/// The form of a piece of a line.
#[derive(Clone, Copy, Debug, PartialEq, Eq)]
pub enum Form {
    /// A word.
    Word,
    /// A quoted text with its quotation marks.
    Quote,
    /// A quotation mark that none follows on the line.
    OpenQuote,
    /// A comment.
    Comment,
    /// The end of a line.
    LineEnd,
    /// Any other single character.
    Single,
}

// The form of the piece at the front of what is left of a line, and its number of characters.
pub(crate) fn first_piece(rest: &[char]) -> (Form, usize)
    requires some { 0 < length rest.now }
    ensures cut { pieces_of rest.now ≡ piece result.0 (take result.1 rest.now) ∷ pieces_of (drop result.1 rest.now) }
    ensures some { 0 < result.1 }
    ensures inside { result.1 ≤ length rest.now }
{
    let first = rest[0];
    let others = &rest[1..];
    let form = form_at(first, others);
    (form, more_at(form, first, others) + 1)
}

// The form of the piece that begins with this character, before these.
#[tactic(auto, unfolding(crate::specs::Pieces::form_at))]
fn form_at(first: char, rest: &[char]) -> Form
    ensures { result ≡ form_at first rest.now }
{
    if is_word_character(first) {
        return Form::Word;
    }
    match first {
        '"' if has_quote(rest) => Form::Quote,
        '"' => Form::OpenQuote,
        '%' => Form::Comment,
        _ if ends_line(first, rest) => Form::LineEnd,
        _ => Form::Single,
    }
}

// How many characters a piece of this form has after its first.
#[tactic(auto, unfolding(crate::specs::Pieces::more_at))]
fn more_at(form: Form, first: char, rest: &[char]) -> usize
    requires { form ≡ form_at first rest.now }
    ensures value { result ≡ more_at form first rest.now }
    ensures inside { result ≤ length rest.now }
{
    match form {
        Form::Word => word_more(first, rest),
        Form::Quote => before_quote(rest) + 1,
        Form::Comment => before_end(rest),
        Form::LineEnd if first == '\r' => 1,
        _ => 0,
    }
}

// How many characters go on a word after its character.
fn word_more(first: char, rest: &[char]) -> usize
    ensures value { result ≡ word_more first rest.now }
    ensures inside { result ≤ length rest.now }
{
    let mut last = first;
    let mut len = 0;
    while len < rest.len() && goes_on(last, &rest[len..]) {
        last = rest[len];
        len += 1;
    }
    len
}

// Whether a word goes on after its character.
#[tactic(auto, unfolding(crate::specs::Pieces::goes_on))]
fn goes_on(last: char, rest: &[char]) -> bool
    ensures { result ≡ goes_on last rest.now }
{
    !rest.is_empty() && (is_word_character(rest[0]) || joins(last, rest[0], &rest[1..]))
}

// Whether a full stop or comma after a word's character joins it to what follows.
#[tactic(auto, unfolding(crate::specs::Pieces::joins))]
fn joins(last: char, mark: char, rest: &[char]) -> bool
    ensures { result ≡ joins last mark rest.now }
{
    !rest.is_empty()
        && ((mark == '.' && is_word_character(rest[0]))
            || (mark == ',' && last.is_ascii_digit() && rest[0].is_ascii_digit()))
}

// Whether a quotation mark stands among the characters.
fn has_quote(rest: &[char]) -> bool
    ensures { result ≡ has_quote rest.now }
{
    before_quote(rest) < rest.len()
}

// How many characters stand before the next quotation mark.
fn before_quote(rest: &[char]) -> usize
    ensures value { result ≡ before_quote rest.now }
    ensures inside { result ≤ length rest.now }
{
    let mut len = 0;
    while len < rest.len() && rest[len] != '"' {
        len += 1;
    }
    len
}

// How many characters stand before the line's end.
fn before_end(rest: &[char]) -> usize
    ensures value { result ≡ before_end rest.now }
    ensures inside { result ≤ length rest.now }
{
    let mut len = 0;
    while len < rest.len() && !ends_line(rest[len], &rest[len + 1..]) {
        len += 1;
    }
    len
}

// Whether the character, before these, is or begins the end of a line.
#[tactic(auto, unfolding(crate::specs::Pieces::ends_line))]
fn ends_line(c: char, rest: &[char]) -> bool
    ensures { result ≡ ends_line c rest.now }
{
    c == '\n' || (c == '\r' && begins_with('\n', rest))
}
