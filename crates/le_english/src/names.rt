ghost use Rattle.std.specs.Prelude.{◌≡◌, ◌++◌, ◌<◌, ◌&&◌, Some, None, codes, drop, length, if◌then◌else◌, IfOk};
ghost use Rattle.std.specs.Char.{is_ascii_digit};
ghost use Rattle.std.specs.List.{list_all};
ghost use Rattle.std.specs.Str.{bytes_eq};
ghost use Rattle.le_layout.specs.Layout.{IsLayout};
ghost use Rattle.le_layout.specs.Words.{text_of};
ghost use Rattle.le_scope.specs.Phrases.{phrase_form, phrase_name as name_of};
ghost use Rattle.le_english.specs.Phrases.{scanned, is_plain_name, is_plain_by, is_constant_by, is_plain_the, is_numbered_thing, is_digits, last_token};

use le_base::{MOST_TEXT_BYTES, Stop, Text};
use le_layout::{Layout, Span, scan};
use le_scope::{PhraseForm, phrase_name, shape};
use le_templates::Templates;
use std::alloc::{AllocError, Global};

// How many tokens a name has, where it reads, as a phrase, as the constant of that name, and else none.
#[tactic(auto, unfolding(crate::specs::Phrases::is_plain_name))]
pub(crate) fn plain_tokens(
    alloc: Global,
    templates: &Templates,
    name: &str,
) -> Result<Option<usize>, AllocError>
    ensures { IfOk result (λ found. found ≡ (if is_plain_name templates.now name.now then Some (length (scanned name.now)) else None)) }
{
    if MOST_TEXT_BYTES < name.len() {
        return Ok(None);
    }
    match scan(alloc, name.as_bytes()) {
        Ok(layout) => tokens_in(alloc, templates, name, &layout),
        Err(Stop::Refused(_)) => Ok(None),
        Err(Stop::Memory) => Err(AllocError),
    }
}

// How many tokens a name has that is scanned so, where it is plain.
fn tokens_in(
    alloc: Global,
    templates: &Templates,
    name: &str,
    layout: &Layout,
) -> Result<Option<usize>, AllocError>
    requires { IsLayout layout.now }
    ensures { IfOk result (λ found. found ≡ (if is_plain_by templates.now name.now layout.now (phrase_form layout.now layout.now.tokens) then Some (length layout.now.tokens) else None)) }
{
    if is_plain_in(alloc, templates, name, layout)? {
        Ok(Some(layout.tokens.as_slice().len()))
    } else {
        Ok(None)
    }
}

// Whether the words of a name that is scanned so, joined by one space, are the name, and read as its constant.
fn is_plain_in(
    alloc: Global,
    templates: &Templates,
    name: &str,
    layout: &Layout,
) -> Result<bool, AllocError>
    requires { IsLayout layout.now }
    ensures { IfOk result (λ plain. plain ≡ is_plain_by templates.now name.now layout.now (phrase_form layout.now layout.now.tokens)) }
{
    let count = layout.tokens.as_slice().len() as u32;
    let tokens = Span { from: 0, to: count };
    if phrase_name(alloc, layout, tokens)?.as_str() != name {
        return Ok(false);
    }
    match shape(alloc, layout, tokens)? {
        Some(PhraseForm::Constant) => Ok(true),
        Some(PhraseForm::The) => is_plain_the(alloc, templates, name, layout),
        _ => Ok(false),
    }
}

// Whether `the` and the tokens after the first are the name, read as a constant wherever they stand, and are
// no phrase of a variable.
fn is_plain_the(
    alloc: Global,
    templates: &Templates,
    name: &str,
    layout: &Layout,
) -> Result<bool, AllocError>
    requires layout { IsLayout layout.now }
    requires some { 1 < length layout.now.tokens }
    ensures { IfOk result (λ plain. plain ≡ (bytes_eq (codes "the " ++ name_of layout.now (drop 1 layout.now.tokens)) name.now && is_plain_the templates.now layout.now (drop 1 layout.now.tokens))) }
{
    let count = layout.tokens.as_slice().len() as u32;
    let after = Span { from: 1, to: count };
    let own = phrase_name(alloc, layout, after)?;
    let is_own = is_the_name(alloc, own.as_str(), name)?;
    Ok(is_own && is_free(templates, layout, own.as_str()))
}

// Whether the tokens after the first, which spell this name, read as a constant after `the` wherever they
// stand, and are no phrase of a variable.
#[tactic(auto, unfolding(crate::specs::Phrases::is_plain_the))]
fn is_free(templates: &Templates, layout: &Layout, own: &str) -> bool
    requires layout { IsLayout layout.now }
    requires some { 1 < length layout.now.tokens }
    requires own { own.now ≡ name_of layout.now (drop 1 layout.now.tokens) }
    ensures { result ≡ is_plain_the templates.now layout.now (drop 1 layout.now.tokens) }
{
    !templates.ends_slot(last_word(layout)) && !is_numbered_thing(own.as_bytes())
}

// Whether `the`, a space and a name are this name.
fn is_the_name(alloc: Global, own: &str, name: &str) -> Result<bool, AllocError>
    ensures { IfOk result (λ same. same ≡ bytes_eq (codes "the " ++ own.now) name.now) }
{
    let mut spelled = Text::of(alloc, "the ")?;
    spelled.push_str(own)?;
    Ok(spelled.as_str() == name)
}

// The last word of a layout with at least two tokens.
fn last_word(layout: &Layout) -> &str
    requires layout { IsLayout layout.now }
    requires some { 1 < length layout.now.tokens }
    ensures { result.now ≡ text_of layout.now (last_token (drop 1 layout.now.tokens)) }
{
    let count = layout.tokens.as_slice().len() as u32;
    layout.word(count - 1)
}

// Whether a name is `thing`, ASCII case ignored, a space and ASCII digits.
fn is_numbered_thing(name: &[u8]) -> bool
    ensures { result ≡ is_numbered_thing name.now }
{
    if name.len() < 6 {
        return false;
    }
    name[..6].eq_ignore_ascii_case(b"thing ") && is_digits(&name[6..])
}

// Whether there is an ASCII digit and nothing else.
fn is_digits(text: &[u8]) -> bool
    ensures { result ≡ is_digits text.now }
{
    !text.is_empty() && are_digits(text)
}

// Whether each byte is an ASCII digit.
fn are_digits(bytes: &[u8]) -> bool
    ensures { result ≡ list_all is_ascii_digit bytes.now }
{
    bytes.iter().all(|byte| byte.is_ascii_digit())
}
