ghost use Rattle.std.specs.Prelude.{◌≡◌, IfOk, chars};
ghost use Rattle.le_layout.specs.Characters.{is_space, is_ascii_sign, is_further_sign, is_word_character, may_be_quoted, may_be_commented, kind_of, begins_with};
ghost use Rattle.le_layout.specs.Places.{has_mark, without_mark};

use crate::Kind;
use std::alloc::{AllocError, Global};
use unicode_ident::is_xid_continue;

// The characters of a text.
pub(crate) fn characters(alloc: Global, text: &str) -> Result<Vec<char>, AllocError>
    ensures { IfOk result (λ cs. cs.items ≡ chars text.now) }
{
    text.chars().collect(alloc)
}

// Whether a text begins with a byte order mark.
pub(crate) fn has_mark(chars: &[char]) -> bool
    ensures { result ≡ has_mark chars.now }
{
    begins_with('\u{feff}', chars)
}

// The characters after a byte order mark.
pub(crate) fn without_mark(chars: &[char]) -> &[char]
    ensures { result.now ≡ without_mark chars.now }
{
    if has_mark(chars) { &chars[1..] } else { chars }
}

// Whether a text begins with this character.
pub(crate) fn begins_with(c: char, chars: &[char]) -> bool
    ensures { result ≡ begins_with c chars.now }
{
    !chars.is_empty() && chars[0] == c
}

// Whether the character separates tokens.
#[tactic(auto, unfolding(crate::specs::Characters::is_space))]
pub(crate) fn is_space(c: char) -> bool
    ensures { result ≡ is_space c }
{
    matches!(c, ' ' | '\t' | '\u{a0}')
}

// Whether the character stands in words.
#[tactic(auto, unfolding(crate::specs::Characters::is_word_character))]
pub(crate) fn is_word_character(c: char) -> bool
    ensures { result ≡ is_word_character c }
{
    is_xid_continue(c) || is_ascii_sign(c) || is_further_sign(c)
}

#[tactic(auto, unfolding(crate::specs::Characters::is_ascii_sign))]
fn is_ascii_sign(c: char) -> bool
    ensures { result ≡ is_ascii_sign c }
{
    matches!(c, '-' | '\'' | '/' | '&' | '+' | '@' | '#' | '$')
}

#[tactic(auto, unfolding(crate::specs::Characters::is_further_sign))]
fn is_further_sign(c: char) -> bool
    ensures { result ≡ is_further_sign c }
{
    matches!(c, '\u{2019}' | '\u{a3}' | '\u{20ac}')
}

// Whether a quoted text may hold the character.
#[tactic(auto, unfolding(crate::specs::Characters::may_be_quoted))]
pub(crate) fn may_be_quoted(c: char) -> bool
    ensures { result ≡ may_be_quoted c }
{
    c >= ' ' && c != '\u{7f}'
}

// Whether a comment may hold the character.
#[tactic(auto, unfolding(crate::specs::Characters::may_be_commented))]
pub(crate) fn may_be_commented(c: char) -> bool
    ensures { result ≡ may_be_commented c }
{
    c != '\r'
}

// The kind of the token that a character outside words and quoted texts is, or none.
#[tactic(auto, unfolding(crate::specs::Characters::kind_of))]
pub(crate) fn kind_of(c: char) -> Option<Kind>
    ensures { result ≡ kind_of c }
{
    match c {
        ',' => Some(Kind::Comma),
        ':' => Some(Kind::Colon),
        '*' => Some(Kind::Star),
        '.' => Some(Kind::Stop),
        '[' => Some(Kind::Open),
        ']' => Some(Kind::Close),
        '|' => Some(Kind::Bar),
        _ => None,
    }
}
