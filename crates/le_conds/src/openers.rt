ghost use Rattle.std.specs.Prelude.{◌≡◌, ◌+◌, ◌<◌, ◌≤◌, length, None};
ghost use Rattle.le_layout.specs.Layout.{IsLayout};
ghost use Rattle.le_conds.specs.Openers.{is_first as is_first_of, indent as indent_of, says_negation as says_negation_at, says_for_all as says_for_all_at, says_marker as says_marker_at, opens_negation as opens_negation_in, opens_for_all as opens_for_all_in, opens_marker as opens_marker_in, is_fold_word as is_fold_word_at, says_each as says_each_at, says_such_that as says_such_that_at, ends_each as ends_each_at, ends_such_that as ends_such_that_at, or_here as or_here_of, each_end, gather_end as gather_end_of, such_that_end, is_place as is_place_of};

use le_layout::{ALL_CASES, Layout, NOT_THE_CASE, THE_CASE};

/// Whether a token is the first of its line.
#[tactic(auto, unfolding(crate::specs::Openers::is_first))]
pub fn is_first(layout: &Layout, k: u32) -> bool
    requires inside { k < length layout.now.tokens }
    ensures { result ≡ is_first_of layout.now k }
{
    k == 0 || layout.token(k - 1).line != layout.token(k).line
}

/// The indent of a token's line: the column, from 0, of the line's first token.
pub fn indent(layout: &Layout, k: u32) -> u32
    requires inside { k < length layout.now.tokens }
    ensures { result ≡ indent_of layout.now k }
{
    let mut begin = k;
    while 0 < begin && !is_first(layout, begin) {
        begin -= 1;
    }
    layout.token(begin).column.saturating_sub(1)
}

/// Whether these tokens begin with the words of a negation.
#[tactic(auto, unfolding(crate::specs::Openers::opens_negation))]
pub fn opens_negation(layout: &Layout, from: u32, to: u32) -> bool
    requires layout { IsLayout layout.now }
    requires ordered { from ≤ to }
    requires inside { to ≤ length layout.now.tokens }
    ensures { result ≡ opens_negation_in layout.now from to }
{
    6 <= to - from && says_negation(layout, from)
}

/// Whether `it is not the case that` stands at a token.
#[tactic(auto, unfolding(crate::specs::Openers::says_negation))]
fn says_negation(layout: &Layout, k: u32) -> bool
    requires layout { IsLayout layout.now }
    requires inside { k + 6 ≤ length layout.now.tokens }
    ensures { result ≡ says_negation_at layout.now k }
{
    layout.has_words(k, &NOT_THE_CASE)
}

/// Whether these tokens begin with the words of a `for all`.
#[tactic(auto, unfolding(crate::specs::Openers::opens_for_all))]
pub fn opens_for_all(layout: &Layout, from: u32, to: u32) -> bool
    requires layout { IsLayout layout.now }
    requires ordered { from ≤ to }
    requires inside { to ≤ length layout.now.tokens }
    ensures { result ≡ opens_for_all_in layout.now from to }
{
    5 <= to - from && says_for_all(layout, from)
}

/// Whether `for all cases in which` stands at a token.
#[tactic(auto, unfolding(crate::specs::Openers::says_for_all))]
fn says_for_all(layout: &Layout, k: u32) -> bool
    requires layout { IsLayout layout.now }
    requires inside { k + 5 ≤ length layout.now.tokens }
    ensures { result ≡ says_for_all_at layout.now k }
{
    layout.has_words(k, &ALL_CASES)
}

/// Whether these tokens begin with the words of a marker, which stand together on one line.
#[tactic(auto, unfolding(crate::specs::Openers::opens_marker))]
pub fn opens_marker(layout: &Layout, from: u32, to: u32) -> bool
    requires layout { IsLayout layout.now }
    requires ordered { from ≤ to }
    requires inside { to ≤ length layout.now.tokens }
    ensures { result ≡ opens_marker_in layout.now from to }
{
    5 <= to - from
        && says_marker(layout, from)
        && layout.token(from).line == layout.token(from + 4).line
}

/// Whether `it is the case that` stands at a token.
#[tactic(auto, unfolding(crate::specs::Openers::says_marker))]
fn says_marker(layout: &Layout, k: u32) -> bool
    requires layout { IsLayout layout.now }
    requires inside { k + 5 ≤ length layout.now.tokens }
    ensures { result ≡ says_marker_at layout.now k }
{
    layout.has_words(k, &THE_CASE)
}

/// What was found of a gather's opener.
#[derive(Clone, Copy, Debug)]
pub struct Seen {
    /// The place after the first `is the sum of each`.
    pub each: Option<u32>,
    /// The place after the first `such that` that follows it.
    pub such_that: Option<u32>,
}

impl Seen {
    /// Nothing was found.
    pub fn nothing() -> Self
        ensures each { result.each ≡ None }
        ensures such_that { result.such_that ≡ None }
    {
        Seen {
            each: None,
            such_that: None,
        }
    }

    /// What was found of a gather's opener up to the next token, where this was found up to this one.
    pub fn further(self, layout: &Layout, from: u32, k: u32) -> Self
        requires layout { IsLayout layout.now }
        requires inside { k < length layout.now.tokens }
        requires begun { from ≤ k + 1 }
        requires each { self.each ≡ each_end layout.now from k }
        requires such_that { self.such_that ≡ gather_end_of layout.now from k }
        ensures each { result.each ≡ each_end layout.now from (k + 1) }
        ensures such_that { result.such_that ≡ gather_end_of layout.now from (k + 1) }
    {
        let next = k + 1;
        match self.each {
            Some(each) => Seen {
                each: self.each,
                such_that: or_here(self.such_that, ends_such_that(layout, each, next), next),
            },
            None => Seen {
                each: or_here(None, ends_each(layout, from, next), next),
                such_that: None,
            },
        }
    }
}

/// What is found of a gather's opener among these tokens.
pub fn gather_seen(layout: &Layout, from: u32, to: u32) -> Seen
    requires layout { IsLayout layout.now }
    requires ordered { from ≤ to }
    requires inside { to ≤ length layout.now.tokens }
    ensures each { result.each ≡ each_end layout.now from to }
    ensures such_that { result.such_that ≡ gather_end_of layout.now from to }
{
    let mut seen = Seen::nothing();
    for k in from..to {
        seen = seen.further(layout, from, k);
    }
    seen
}

/// The place that was found, or else this one where it is so.
fn or_here(found: Option<u32>, is_so: bool, k: u32) -> Option<u32>
    ensures { result ≡ or_here_of found is_so k }
{
    match found {
        Some(found) => Some(found),
        None if is_so => Some(k),
        None => None,
    }
}

/// Whether this place was found.
pub fn is_place(found: Option<u32>, k: u32) -> bool
    ensures { result ≡ is_place_of found k }
{
    match found {
        Some(found) => found == k,
        None => false,
    }
}

/// Whether a place is the one after `is the sum of each` in content that begins here.
#[tactic(auto, unfolding(crate::specs::Openers::ends_each))]
fn ends_each(layout: &Layout, from: u32, k: u32) -> bool
    requires layout { IsLayout layout.now }
    requires inside { k ≤ length layout.now.tokens }
    ensures { result ≡ ends_each_at layout.now from k }
{
    5 <= k.saturating_sub(from) && says_each(layout, k - 5)
}

/// Whether `is the sum of each`, or another fold's words, stand at a token.
#[tactic(auto, unfolding(crate::specs::Openers::says_each))]
fn says_each(layout: &Layout, k: u32) -> bool
    requires layout { IsLayout layout.now }
    requires inside { k + 5 ≤ length layout.now.tokens }
    ensures { result ≡ says_each_at layout.now k }
{
    layout.has_words(k, &["is", "the"])
        && is_fold_word(layout, k + 2)
        && layout.has_words(k + 3, &["of", "each"])
}

/// Whether a token is a fold's word.
#[tactic(auto, unfolding(crate::specs::Openers::is_fold_word))]
fn is_fold_word(layout: &Layout, k: u32) -> bool
    requires layout { IsLayout layout.now }
    requires inside { k < length layout.now.tokens }
    ensures { result ≡ is_fold_word_at layout.now k }
{
    layout.has_word(k, "sum") || layout.has_word(k, "number") || layout.has_word(k, "greatest")
}

/// Whether a place is the one after a `such that` that follows another place.
#[tactic(auto, unfolding(crate::specs::Openers::ends_such_that))]
fn ends_such_that(layout: &Layout, from: u32, k: u32) -> bool
    requires layout { IsLayout layout.now }
    requires inside { k ≤ length layout.now.tokens }
    ensures { result ≡ ends_such_that_at layout.now from k }
{
    2 <= k.saturating_sub(from) && says_such_that(layout, k - 2)
}

/// Whether `such that` stands at a token.
#[tactic(auto, unfolding(crate::specs::Openers::says_such_that))]
fn says_such_that(layout: &Layout, k: u32) -> bool
    requires layout { IsLayout layout.now }
    requires inside { k + 2 ≤ length layout.now.tokens }
    ensures { result ≡ says_such_that_at layout.now k }
{
    layout.has_words(k, &["such", "that"])
}
