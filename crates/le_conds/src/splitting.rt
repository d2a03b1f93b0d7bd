ghost use Rattle.std.specs.Prelude.{◌≡◌, ◌+◌, ◌-◌, ◌*◌, ◌<◌, ◌≤◌, length, All, IfOk, flat_map};
ghost use Rattle.le_base.specs.Stop.{Gives};
ghost use Rattle.le_layout.specs.Layout.{IsLayout};
ghost use Rattle.le_layout.specs.Words.{IsSomeSpan};
ghost use Rattle.le_conds.specs.Bounds.{IsPart, IsEntryOver, AreConds, AreRuleConds};
ghost use Rattle.le_conds.specs.Trees.{flat};
ghost use Rattle.le_conds.specs.Members.{tree_of};
ghost use Rattle.le_conds.specs.Faults.{part_faults, condition_faults, least_onto, least_of};
ghost use Rattle.le_conds.specs.Rules.{first_if as first_if_of, conditions_among, rule_of, conditions_of};

use crate::cutting::items;
use crate::entries::entries;
use crate::entry::Entry;
use crate::faults::{conclusion_fault, part_fault};
use crate::trees::{Found, tree};
use crate::{Conds, Nodes};
use le_base::Stop;
use le_layout::{Fault, Layout, Span};
use std::alloc::{AllocError, Global};

/// The conclusion and the conditions of a rule's sentence, which has a token. There are no conditions
/// exactly where it has no `if`.
///
/// Of all that is wrong with the shape of the sentence the least place decides, and at one place the least
/// number. A conclusion is refused with `BadIndent` at the `if` where it is empty, with `LongSentence` at
/// its first token where it has more than 200, and with `NegationScope` at its first token where it begins
/// with the words of a negation or of `for all`. For the conditions see `conditions`; where their first
/// item is empty the place is the `if`.
pub fn split_rule(
    alloc: Global,
    layout: &Layout,
    sentence: Span,
) -> Result<(Span, Option<Conds>), Stop>
    requires layout { IsLayout layout.now }
    requires sentence { IsSomeSpan layout.now sentence }
    ensures exact { Gives (λ rule. rule) result (rule_of layout.now sentence) }
    ensures conclusion { IfOk result (λ rule. IsPart layout.now rule.0) }
    ensures conditions { IfOk result (λ rule. AreRuleConds layout.now sentence.to rule.1) }
{
    let end = first_if(layout, sentence);
    let conclusion = Span {
        from: sentence.from,
        to: end,
    };
    if end == sentence.to {
        return match conclusion_fault(layout, conclusion, None) {
            Some(fault) => Err(Stop::Refused(fault.refusal(alloc, layout))),
            None => Ok((conclusion, None)),
        };
    }
    let found = found_among(alloc, layout, end, end + 1, sentence.to)?;
    match conclusion_fault(layout, conclusion, found.fault) {
        Some(fault) => Err(Stop::Refused(fault.refusal(alloc, layout))),
        None => Ok((conclusion, Some(conds(found)))),
    }
}

/// The first `if` of a sentence, or its end.
fn first_if(layout: &Layout, sentence: Span) -> u32
    requires layout { IsLayout layout.now }
    requires ordered { sentence.from ≤ sentence.to }
    requires inside { sentence.to ≤ length layout.now.tokens }
    ensures exact { result ≡ first_if_of layout.now sentence }
    ensures low { sentence.from ≤ result }
    ensures high { result ≤ sentence.to }
{
    for k in sentence.from..sentence.to {
        if layout.has_word(k, "if") {
            return k;
        }
    }
    sentence.to
}

/// The conditions of a query's sentence, which has a token.
///
/// Of all that is wrong with them the least place decides, and at one place the least number. An item is
/// refused with `BadIndent` where it is empty, at its own first token, and at the sentence's where it is
/// the first; with `LongSentence` at the first token of its content where that has more than 200; and with
/// `NegationScope` where an opener follows its opener in the same item, at the inner one. A block is refused
/// with `MixedConnectives` at the first item that hasn't the connective of its second member, and with
/// `BadIndent` at an item that is less deep than the block. Something deeper than a negation that has its
/// sentence is refused with `NegationScope`. An opener or marker with nothing in its scope, a `for all`
/// without a marker and a marker without a `for all` are refused with `BadIndent` at the opener or marker;
/// an item that isn't deeper than the `for all` before its marker, a marker that is less deep than its
/// `for all`, and a connective at the first item after a bare opener are refused with `BadIndent` there.
pub fn conditions(alloc: Global, layout: &Layout, sentence: Span) -> Result<Conds, Stop>
    requires layout { IsLayout layout.now }
    requires sentence { IsSomeSpan layout.now sentence }
    ensures exact { Gives (λ conds. conds) result (conditions_of layout.now sentence) }
    ensures conditions { IfOk result (λ conds. AreConds layout.now sentence.to conds) }
{
    let found = found_among(alloc, layout, sentence.from, sentence.from, sentence.to)?;
    match found.fault {
        Some(fault) => Err(Stop::Refused(fault.refusal(alloc, layout))),
        None => Ok(conds(found)),
    }
}

/// What was found, as conditions.
fn conds(found: Found) -> Conds
    ensures { result.nodes ≡ found.nodes.items }
{
    Conds {
        nodes: Nodes::from_vec(found.nodes),
    }
}

/// The conditions among these tokens, with the fault that decides; at the place is shown that the first
/// item is empty.
fn found_among(
    alloc: Global,
    layout: &Layout,
    place: u32,
    from: u32,
    to: u32,
) -> Result<Found, AllocError>
    requires layout { IsLayout layout.now }
    requires ordered { from ≤ to }
    requires inside { to ≤ length layout.now.tokens }
    ensures fault { IfOk result (λ found. found.fault ≡ least_of (condition_faults layout.now (conditions_among layout.now place from to))) }
    ensures nodes { IfOk result (λ found. found.nodes.items ≡ flat (tree_of (conditions_among layout.now place from to))) }
    ensures few { IfOk result (λ found. length found.nodes.items ≤ 3 * (to - from) + 4) }
{
    let items = items(alloc, layout, from, to)?;
    let entries = entries(alloc, layout, place, items.as_slice())?;
    let found = tree(alloc, entries.as_slice())?;
    let fault = parts_fault(layout, entries.as_slice(), found.fault);
    Ok(Found {
        fault,
        nodes: found.nodes,
    })
}

/// The fault that decides among those of the items' own tokens and those that were found.
fn parts_fault(layout: &Layout, entries: &[Entry], least: Option<Fault>) -> Option<Fault>
    requires layout { IsLayout layout.now }
    requires entries { All (IsEntryOver (length layout.now.tokens)) entries.now }
    ensures { result ≡ least_onto (flat_map (part_faults layout.now) entries.now) least }
{
    let mut fault = least;
    let count = entries.len();
    for k in 0..count {
        fault = part_fault(layout, entries[count - 1 - k], fault);
    }
    fault
}
