ghost use Rattle.std.specs.Prelude.{◌≡◌, ◌<◌, ◌≤◌, [], ◌∷◌, length, map, IfOk, IfSome};
ghost use Rattle.std.specs.List.{list_all, list_any};
ghost use Rattle.std.specs.Str.{bytes_eq};
ghost use Rattle.le_layout.specs.Layout.{IsLayout};
ghost use Rattle.le_layout.specs.Words.{IsSpan, tokens_of, token_of, same_word};
ghost use Rattle.le_scope.specs.Phrases.{phrase_form, simple_form, name_form, word_form, IsFormInRange, quote_form, article_form, article, constant_form, is_name, is_plain, is_plain_word, begins_otherwise, begins_with, has_determiner, is_determiner, is_indefinite, phrase_name as name_of};

use crate::lengths::phrase_lengths;
use crate::lists::is_open;
use le_base::{MOST_PHRASE_WORDS, Text};
use le_layout::{Layout, NOT_THE_CASE, Span, THE_CASE};
use le_values::{day_of, number_of};
use std::alloc::{AllocError, Global};

/// The form of a phrase.
#[derive(Clone, Copy, Debug, PartialEq, Eq)]
pub enum PhraseForm {
    /// A number.
    Number(i64),
    /// A date, as its days from 1970-01-01.
    Day(i32),
    /// One quoted text, which is the constant of its content.
    Quote,
    /// A list.
    List,
    /// `a` or `an`, and a name.
    A,
    /// `the`, and a name.
    The,
    /// `which`, and a name.
    Which,
    /// A constant.
    Constant,
}

/// The form of the phrase that some tokens are, or None exactly where they are no phrase. A phrase is a
/// list, or has no brackets.
///
/// A list is `[]`, or `[`, phrases with commas between them, and `]`, or the same with `|` and one more
/// phrase before the `]`; at least one phrase stands before the `|`.
///
/// A name is 1 to 12 plain words. A plain word is none of `if`, `and`, `or`, `which` and `each`, ASCII case ignored, nor
/// `+`, `-` or `/` alone, nor `a` or `an` in lower case. A phrase without brackets is one quoted text, or `a`, `an`, `the`
/// or `which` (ASCII case ignored) and a name, or a name that doesn't begin with `the`, `a`, `an`,
/// `another`, `some`, `any` or `every`, nor with the words `it is not the case that` or
/// `it is the case that` (ASCII case ignored). Of these last names one word that is a number (an optional
/// `-` and ASCII digits) has the form `Number`, one that is a date (`YYYY-MM-DD`) the form `Day`, and any
/// other is a constant.
///
/// The layout is a valid one and has the tokens. The cost is in proportion to the tokens.
pub fn shape(alloc: Global, layout: &Layout, tokens: Span) -> Result<Option<PhraseForm>, AllocError>
    requires layout { IsLayout layout.now }
    requires tokens { IsSpan layout.now tokens }
    ensures form { IfOk result (λ form. form ≡ phrase_form layout.now (tokens_of layout.now tokens)) }
    ensures some { IfOk result (λ form. IfSome form (λ f. tokens.from < tokens.to)) }
    ensures in_range { IfOk result (λ form. IfSome form IsFormInRange) }
{
    if tokens.to <= tokens.from {
        return Ok(None);
    }
    if !is_open(layout.token(tokens.from).kind) {
        return Ok(form_of(layout, tokens));
    }
    let lengths = phrase_lengths(alloc, layout, tokens)?;
    if lengths[0].most == tokens.to - tokens.from {
        Ok(Some(PhraseForm::List))
    } else {
        Ok(None)
    }
}

/// The name that some tokens spell: their texts joined by one space, or the empty text where there is no
/// token. The layout is a valid one and has the tokens.
#[tactic(auto, unfolding(crate::specs::Phrases::phrase_name))]
pub fn phrase_name(alloc: Global, layout: &Layout, tokens: Span) -> Result<Text, AllocError>
    requires layout { IsLayout layout.now }
    requires tokens { IsSpan layout.now tokens }
    ensures { IfOk result (λ name. name ≡ name_of layout.now (tokens_of layout.now tokens)) }
{
    layout.spaced(alloc, tokens)
}

// The form of the phrase without brackets that some tokens are, where they are one.
#[tactic(auto, unfolding(crate::specs::Simple::simple_form))]
fn form_of(layout: &Layout, tokens: Span) -> Option<PhraseForm>
    requires layout { IsLayout layout.now }
    requires tokens { IsSpan layout.now tokens }
    ensures form { result ≡ simple_form layout.now (tokens_of layout.now tokens) }
    ensures some { IfSome result (λ f. tokens.from < tokens.to) }
    ensures in_range { IfSome result IsFormInRange }
{
    if tokens.to <= tokens.from {
        return None;
    }
    if let Some(form) = quote_form(layout, tokens) {
        return Some(form);
    }
    if let Some(form) = article_form(layout, tokens) {
        return Some(form);
    }
    constant_form(layout, tokens)
}

// The form of one quoted text.
fn quote_form(layout: &Layout, tokens: Span) -> Option<PhraseForm>
    requires tokens { IsSpan layout.now tokens }
    ensures form { result ≡ quote_form (tokens_of layout.now tokens) }
    ensures in_range { IfSome result IsFormInRange }
{
    if tokens.to - tokens.from != 1 {
        return None;
    }
    if layout.token(tokens.from).kind.is_quote() {
        Some(PhraseForm::Quote)
    } else {
        None
    }
}

// The form of an article with a name after it.
fn article_form(layout: &Layout, tokens: Span) -> Option<PhraseForm>
    requires layout { IsLayout layout.now }
    requires some { tokens.from < tokens.to }
    requires within { tokens.to ≤ length layout.now.tokens }
    ensures form { result ≡ article_form layout.now (tokens_of layout.now tokens) }
    ensures in_range { IfSome result IsFormInRange }
{
    let name = Span {
        from: tokens.from + 1,
        to: tokens.to,
    };
    if !is_name(layout, name) {
        return None;
    }
    article(layout, tokens.from)
}

// The form that a token gives to the name after it.
#[tactic(auto, unfolding(crate::specs::Simple::article, le_layout::specs::Words::has_word))]
pub(crate) fn article(layout: &Layout, token: u32) -> Option<PhraseForm>
    requires layout { IsLayout layout.now }
    requires inside { token < length layout.now.tokens }
    ensures form { result ≡ article layout.now (token_of layout.now token) }
    ensures in_range { IfSome result IsFormInRange }
{
    if is_indefinite(layout, token) {
        Some(PhraseForm::A)
    } else if layout.has_word(token, "the") {
        Some(PhraseForm::The)
    } else if layout.has_word(token, "which") {
        Some(PhraseForm::Which)
    } else {
        None
    }
}

// Whether a token is `a` or `an`.
#[tactic(auto, unfolding(crate::specs::Simple::is_indefinite, le_layout::specs::Words::has_word))]
fn is_indefinite(layout: &Layout, token: u32) -> bool
    requires layout { IsLayout layout.now }
    requires inside { token < length layout.now.tokens }
    ensures { result ≡ is_indefinite layout.now (token_of layout.now token) }
{
    layout.has_word(token, "a") || layout.has_word(token, "an")
}

// The form of a name that begins as a constant does.
fn constant_form(layout: &Layout, tokens: Span) -> Option<PhraseForm>
    requires layout { IsLayout layout.now }
    requires some { tokens.from < tokens.to }
    requires within { tokens.to ≤ length layout.now.tokens }
    ensures form { result ≡ constant_form layout.now (tokens_of layout.now tokens) }
    ensures in_range { IfSome result IsFormInRange }
{
    if is_name(layout, tokens) && !begins_otherwise(layout, tokens) {
        return Some(name_form(layout, tokens));
    }
    None
}

// The form of a name that begins as a constant does.
fn name_form(layout: &Layout, tokens: Span) -> PhraseForm
    requires layout { IsLayout layout.now }
    requires some { tokens.from < tokens.to }
    requires within { tokens.to ≤ length layout.now.tokens }
    ensures form { result ≡ name_form layout.now (tokens_of layout.now tokens) }
    ensures in_range { IsFormInRange result }
{
    if tokens.to - tokens.from != 1 {
        return PhraseForm::Constant;
    }
    word_form(layout.word(tokens.from))
}

// The form of one word that is a name.
#[tactic(auto, unfolding(crate::specs::Simple::word_form))]
pub(crate) fn word_form(word: &str) -> PhraseForm
    ensures form { result ≡ word_form word.now }
    ensures in_range { IsFormInRange result }
{
    if let Some(n) = number_of(word) {
        return PhraseForm::Number(n);
    }
    if let Some(day) = day_of(word) {
        return PhraseForm::Day(day);
    }
    PhraseForm::Constant
}

/// Whether some tokens are a name: 1 to 12 plain words.
#[tactic(auto, unfolding(crate::specs::Simple::is_name))]
pub fn is_name(layout: &Layout, tokens: Span) -> bool
    requires layout { IsLayout layout.now }
    requires tokens { IsSpan layout.now tokens }
    ensures { result ≡ is_name layout.now (tokens_of layout.now tokens) }
{
    let count = tokens.to - tokens.from;
    1 <= count && count <= MOST_PHRASE_WORDS && are_plain(layout, tokens)
}

// Whether each of some tokens is a plain word.
fn are_plain(layout: &Layout, tokens: Span) -> bool
    requires layout { IsLayout layout.now }
    requires tokens { IsSpan layout.now tokens }
    ensures { result ≡ list_all (is_plain layout.now) (tokens_of layout.now tokens) }
{
    for at in tokens.from..tokens.to {
        if !is_plain(layout, at) {
            return false;
        }
    }
    true
}

// Whether a token is a plain word.
#[tactic(auto, unfolding(crate::specs::Simple::is_plain))]
pub(crate) fn is_plain(layout: &Layout, token: u32) -> bool
    requires layout { IsLayout layout.now }
    requires inside { token < length layout.now.tokens }
    ensures { result ≡ is_plain layout.now (token_of layout.now token) }
{
    layout.token(token).kind.is_word() && is_plain_word(layout.word(token))
}

const CONNECTIVES: [&str; 5] = ["if", "and", "or", "which", "each"];

const PARTICLES: [&str; 5] = ["+", "-", "/", "a", "an"];

// Whether a word is plain.
#[tactic(auto, unfolding(crate::specs::Simple::is_plain_word))]
fn is_plain_word(word: &str) -> bool
    ensures { result ≡ is_plain_word word.now }
{
    !is_any_of(&CONNECTIVES, word) && !is_spelled_as(&PARTICLES, word)
}

// Whether a word is one of these, ASCII case ignored.
fn is_any_of(words: &[&str], word: &str) -> bool
    ensures { result ≡ list_any (λ w. same_word word.now w.now) words.now }
{
    words.iter().any(|w| word.eq_ignore_ascii_case(w))
}

// Whether a word is one of these, case kept.
fn is_spelled_as(words: &[&str], word: &str) -> bool
    ensures { result ≡ list_any (λ w. bytes_eq word.now w.now) words.now }
{
    words.iter().any(|w| word == *w)
}

const DETERMINERS: [&str; 7] = ["the", "a", "an", "another", "some", "any", "every"];

// Whether some tokens begin as no constant does.
#[tactic(auto, unfolding(crate::specs::Simple::begins_otherwise))]
fn begins_otherwise(layout: &Layout, tokens: Span) -> bool
    requires layout { IsLayout layout.now }
    requires some { tokens.from < tokens.to }
    requires within { tokens.to ≤ length layout.now.tokens }
    ensures { result ≡ begins_otherwise layout.now (tokens_of layout.now tokens) }
{
    has_determiner(layout, tokens)
        || begins_with(layout, tokens, &NOT_THE_CASE)
        || begins_with(layout, tokens, &THE_CASE)
}

// Whether the first token is a determiner.
fn has_determiner(layout: &Layout, tokens: Span) -> bool
    requires layout { IsLayout layout.now }
    requires some { tokens.from < tokens.to }
    requires within { tokens.to ≤ length layout.now.tokens }
    ensures { result ≡ has_determiner layout.now (tokens_of layout.now tokens) }
{
    is_determiner(layout, tokens.from)
}

// Whether a token is a determiner.
#[tactic(auto, unfolding(crate::specs::Simple::is_determiner))]
pub(crate) fn is_determiner(layout: &Layout, token: u32) -> bool
    requires layout { IsLayout layout.now }
    requires inside { token < length layout.now.tokens }
    ensures { result ≡ is_determiner layout.now (token_of layout.now token) }
{
    layout.token(token).kind.is_word() && is_any_of(&DETERMINERS, layout.word(token))
}

// Whether the first tokens are these words, ASCII case ignored.
pub(crate) fn begins_with(layout: &Layout, tokens: Span, words: &[&str]) -> bool
    requires layout { IsLayout layout.now }
    requires tokens { IsSpan layout.now tokens }
    ensures { result ≡ begins_with layout.now (tokens_of layout.now tokens) (map (λ w. w.now) words.now) }
{
    let count = (tokens.to - tokens.from) as usize;
    for i in 0..words.len() {
        if count <= i {
            return false;
        }
        if !layout.has_word(tokens.from + i as u32, words[i]) {
            return false;
        }
    }
    true
}
