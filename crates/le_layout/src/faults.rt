ghost use Rattle.std.specs.Prelude.{◌≡◌, ◌+◌, ◌≤◌, ◌<◌, ◌&&◌, ◌++◌, ◌∷◌, [], length, if◌then◌else◌, slice_index, encode_utf8_all};
ghost use Rattle.std.specs.List.{list_all};
ghost use Rattle.le_base.specs.declared.code.Code.TheVariants.{BadCharacter};
ghost use Rattle.le_layout.specs.Characters.{may_be_quoted, may_be_commented, begins_with};
ghost use Rattle.le_layout.specs.Places.{place_behind, refused};
ghost use Rattle.le_layout.specs.Room.{HasRoom};
ghost use Rattle.le_layout.specs.Faults.{is_numeral, is_numerals, is_number_like, is_bad_number, is_bad_date, word_faults, faults_among, single_faults, own_faults, is_word_form, first_fault};

use crate::characters::{begins_with, is_space, kind_of, may_be_commented, may_be_quoted};
use crate::piece::Form;
use crate::place::{Place, next_place, refused};
use le_base::{Code, Refusal};
use le_values::{day_of, has_date_form, number_of};
use std::alloc::Global;

// The first fault of a piece of this form at a place, before the rest of its line. The text is the piece's.
pub(crate) fn fault_at(
    alloc: Global,
    form: Form,
    text: &str,
    chars: &[char],
    rest: &[char],
    place: Place,
    behind: Place,
) -> Option<Refusal>
    requires some { 0 < length chars.now }
    requires spelled { text.now ≡ encode_utf8_all chars.now }
    requires room { HasRoom place (length chars.now) }
    requires room_behind { HasRoom behind 0 }
    ensures { result ≡ first_fault (own_faults place form chars.now ++ (if is_word_form form && begins_with 37 rest.now then refused BadCharacter behind ∷ [] else [])) }
{
    let own = own_fault(alloc, form, text, chars, place);
    if own.is_none() && matches!(form, Form::Word) && begins_with('%', rest) {
        return Some(refused(alloc, Code::BadCharacter, behind));
    }
    own
}

// The first fault of a piece of this form by itself.
#[tactic(auto, unfolding(crate::specs::Faults::own_faults))]
fn own_fault(alloc: Global, form: Form, text: &str, chars: &[char], place: Place) -> Option<Refusal>
    requires some { 0 < length chars.now }
    requires spelled { text.now ≡ encode_utf8_all chars.now }
    requires room { HasRoom place (length chars.now) }
    ensures { result ≡ first_fault (own_faults place form chars.now) }
{
    match form {
        Form::Word => word_fault(alloc, text, place),
        Form::Quote => fault_in_quote(alloc, chars, place),
        Form::OpenQuote => Some(refused(alloc, Code::OpenQuote, place)),
        Form::Comment => fault_in_comment(alloc, chars, place),
        Form::LineEnd => None,
        Form::Single => single_fault(alloc, chars[0], place),
    }
}

// The fault of a word: one that looks like a number or a date has to be one.
#[tactic(auto, unfolding(crate::specs::Faults::word_faults))]
fn word_fault(alloc: Global, word: &str, place: Place) -> Option<Refusal>
    requires { HasRoom place 0 }
    ensures { result ≡ first_fault (word_faults place word.now) }
{
    if is_bad_number(word) {
        Some(refused(alloc, Code::BadNumber, place))
    } else if is_bad_date(word) {
        Some(refused(alloc, Code::BadDate, place))
    } else {
        None
    }
}

// The first character of a quoted text that it may not hold.
fn fault_in_quote(alloc: Global, chars: &[char], from: Place) -> Option<Refusal>
    requires { HasRoom from (length chars.now) }
    ensures { result ≡ first_fault (faults_among may_be_quoted from chars.now) }
{
    let mut place = from;
    let mut at = 0;
    while at < chars.len() {
        let c = chars[at];
        if !may_be_quoted(c) {
            return Some(refused(alloc, Code::BadCharacter, place));
        }
        place = next_place(place, c);
        at += 1;
    }
    None
}

// The first character of a comment that it may not hold.
fn fault_in_comment(alloc: Global, chars: &[char], from: Place) -> Option<Refusal>
    requires { HasRoom from (length chars.now) }
    ensures { result ≡ first_fault (faults_among may_be_commented from chars.now) }
{
    let mut place = from;
    let mut at = 0;
    while at < chars.len() {
        let c = chars[at];
        if !may_be_commented(c) {
            return Some(refused(alloc, Code::BadCharacter, place));
        }
        place = next_place(place, c);
        at += 1;
    }
    None
}

// Whether a character by itself may not stand.
#[tactic(auto, unfolding(crate::specs::Faults::single_faults))]
fn single_fault(alloc: Global, c: char, place: Place) -> Option<Refusal>
    requires { HasRoom place 0 }
    ensures { result ≡ first_fault (single_faults place c) }
{
    if is_space(c) || kind_of(c).is_some() {
        None
    } else {
        Some(refused(alloc, Code::BadCharacter, place))
    }
}

// Whether a word of these bytes is number-like and no number.
#[tactic(auto, unfolding(crate::specs::Faults::is_bad_number))]
fn is_bad_number(word: &str) -> bool
    ensures { result ≡ is_bad_number word.now }
{
    is_number_like(word.as_bytes()) && number_of(word).is_none()
}

// Whether a word of these bytes has the form of a date and is none.
#[tactic(auto, unfolding(crate::specs::Faults::is_bad_date))]
fn is_bad_date(word: &str) -> bool
    ensures { result ≡ is_bad_date word.now }
{
    has_date_form(word) && day_of(word).is_none()
}

// Whether the word is an optional `-`, a digit, and then any digits, full stops and commas.
#[tactic(auto, unfolding(crate::specs::Faults::is_number_like))]
fn is_number_like(word: &[u8]) -> bool
    ensures { result ≡ is_number_like word.now }
{
    if !word.is_empty() && word[0] == b'-' {
        is_numerals(&word[1..])
    } else {
        is_numerals(word)
    }
}

// Whether these are a digit, and then any digits, full stops and commas.
#[tactic(auto, unfolding(crate::specs::Faults::is_numerals))]
fn is_numerals(bytes: &[u8]) -> bool
    ensures { result ≡ is_numerals bytes.now }
{
    !bytes.is_empty() && bytes[0].is_ascii_digit() && all_numeral(&bytes[1..])
}

// Whether these are digits, full stops and commas.
fn all_numeral(bytes: &[u8]) -> bool
    ensures { result ≡ list_all is_numeral bytes.now }
{
    bytes.iter().all(|byte| is_numeral(*byte))
}

#[tactic(auto, unfolding(crate::specs::Faults::is_numeral))]
fn is_numeral(byte: u8) -> bool
    ensures { result ≡ is_numeral byte }
{
    byte.is_ascii_digit() || matches!(byte, b'.' | b',')
}
