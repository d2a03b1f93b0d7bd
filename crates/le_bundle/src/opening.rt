ghost use Rattle.std.specs.Prelude.{◌≡◌, ◌+◌, ◌*◌, ◌^◌, ◌≤◌, ◌<◌, ℕ, [], ◌∷◌, ◌++◌, All, length, drop, true, false, IfOk, IfErr, IfSome, OnOk, Err, Some, option_map};
ghost use Rattle.le_bundle.specs.Lines.{lines_of, last_lines, next_line};
ghost use Rattle.le_bundle.specs.Bundle.{name_of, name_in, number_in, parted, scenario_read, nodes_read, derivation_read, answers_read, answer_words, is_next, begins, ending_in, ending_read, asked_read, bundle_of};
ghost use Rattle.le_bundle.specs.Parts.{bundle_by, asked_by, parted_by, IsShort};
ghost use Rattle.le_bundle.specs.Reads.{Fits, Reads};
ghost use Rattle.le_prooftext.specs.Reading.{count_of as count_in, node_of as node_in};

use crate::endings::{after_words, is_ending, with_number};
use crate::numbers::number_up_to;
use crate::parts::{Limits, Parts};
use crate::reader::Reader;
use crate::unfit::Unfit;
use le_proofs::{Derivation, Node, Nodes};
use le_prooftext::{count_of, node_of};
use std::alloc::{AllocError, Global};

/// The line between the document part and the certificates.
const MARKER: &str = "=== certificates ===";

/// The parts of a bundle of at most 2^28 bytes, or the first line that doesn't fit, counted from 1. A bundle is a
/// document part, the marker, `query NAME`, `scenario NAME` where one was asked for, `budget N` with N from 1 to
/// 1,000,000 and `answers K` with K from 1 to 1,000; then for each of at most K answers its line and its derivation;
/// and then one last line. A line that is missing counts as the line after the last, and one without its LF doesn't fit.
#[tactic(auto, unfolding(crate::specs::Bundle::bundle_of))]
pub fn open(alloc: Global, bytes: &[u8]) -> Result<Parts<'_>, Unfit>
    requires { length bytes.now ≤ 2 ^ 28 }
    ensures exact { Fits bundle_by result (bundle_of bytes.now) }
    ensures few { IfOk result (λ parts. length parts.derivations.items ≤ 1000) }
    ensures short { IfOk result (λ parts. All IsShort parts.derivations.items) }
{
    let mut reader = Reader::of(bytes);
    let document = document_part(&mut reader)?;
    let limits = limits(&mut reader)?;
    let derivations = answers(alloc, limits.most, &mut reader)?;
    let ending = ending(alloc, limits.budget, limits.most, &mut reader)?;
    Ok(Parts {
        document,
        query: limits.query,
        scenario: limits.scenario,
        budget: limits.budget,
        most: limits.most,
        derivations,
        ending,
    })
}

/// The lines before the first that is the marker, which is read too.
fn document_part<'a>(reader: &mut Reader<'a>) -> Result<&'a [u8], Unfit>
    ensures { Fits (λ document. parted_by document.now reader.new) result (parted reader.old.number (lines_of reader.old.rest.now)) }
{
    let bytes = reader.rest;
    let mut end = 0;
    while let Some(line) = reader.line() {
        if line == MARKER.as_bytes() {
            return Ok(&bytes[..end]);
        }
        end += line.len() + 1;
    }
    Err(unmarked(reader))
}

/// The refusal of a text whose last lines have no marker.
fn unmarked(reader: &Reader<'_>) -> Unfit
    requires { lines_of reader.now.rest.now ≡ last_lines reader.now.rest.now }
    ensures { Fits (λ document. parted_by document reader.now) (Err result) (parted reader.now.number (lines_of reader.now.rest.now)) }
{
    if reader.rest.is_empty() || reader.rest == MARKER.as_bytes() {
        return Unfit::Line(reader.number);
    }
    Unfit::Line(reader.number + 1)
}

/// The names and limits of the search.
#[tactic(auto, unfolding(crate::specs::Bundle::asked_read))]
fn limits<'a>(reader: &mut Reader<'a>) -> Result<Limits<'a>, Unfit>
    ensures exact { Reads asked_by result reader.new (asked_read reader.old.number (lines_of reader.old.rest.now)) }
    ensures few { IfOk result (λ limits. limits.most ≤ 1000) }
{
    let query = name(reader, "query ")?;
    let scenario = scenario(reader)?;
    let budget = number(reader, "budget ", 1_000_000)?;
    let most = number(reader, "answers ", 1000)?;
    Ok(Limits {
        query,
        scenario,
        budget,
        most,
    })
}

/// The name in the next line after these words.
fn name<'a>(reader: &mut Reader<'a>, words: &str) -> Result<&'a str, Unfit>
    ensures { Reads (λ name. name.now) result reader.new (next_line (name_in words.now) reader.old.number (lines_of reader.old.rest.now)) }
{
    let number = reader.number;
    let Some(line) = reader.line() else {
        return Err(Unfit::Line(number));
    };
    match name_in(words, line) {
        Some(name) => Ok(name),
        None => Err(Unfit::Line(number)),
    }
}

/// The name in a line after these words.
#[tactic(auto, unfolding(crate::specs::Bundle::name_in))]
fn name_in<'a>(words: &str, line: &'a [u8]) -> Option<&'a str>
    ensures { option_map (λ s. s.now) result ≡ name_in words.now line.now }
{
    name_of(after_words(words, line)?)
}

/// The name that bytes are.
fn name_of(bytes: &[u8]) -> Option<&str>
    ensures { option_map (λ s. s.now) result ≡ name_of bytes.now }
{
    if bytes.is_empty() {
        return None;
    }
    match std::str::from_utf8(bytes) {
        Ok(name) => Some(name),
        Err(_) => None,
    }
}

/// The name in the scenario's line, where the next line is one.
#[tactic(auto, unfolding(crate::specs::Bundle::scenario_read))]
fn scenario<'a>(reader: &mut Reader<'a>) -> Result<Option<&'a str>, Unfit>
    ensures { Reads (option_map (λ name. name.now)) result reader.new (scenario_read reader.old.number (lines_of reader.old.rest.now)) }
{
    if !begins(reader, "scenario ") {
        return Ok(None);
    }
    Ok(Some(name(reader, "scenario ")?))
}

/// Whether the next line begins with these words.
fn begins(reader: &Reader<'_>, words: &str) -> bool
    ensures { result ≡ begins words.now (lines_of reader.now.rest.now) }
{
    let mut ahead = *reader;
    match ahead.line() {
        Some(line) => line.starts_with(words.as_bytes()),
        None => false,
    }
}

/// The number from 1 to `most` in the next line after these words.
fn number(reader: &mut Reader<'_>, words: &str, most: u32) -> Result<u32, Unfit>
    ensures exact { Reads (λ n. n) result reader.new (next_line (number_in words.now most) reader.old.number (lines_of reader.old.rest.now)) }
    ensures within { IfOk result (λ n. n ≤ most) }
{
    let number = reader.number;
    let Some(line) = reader.line() else {
        return Err(Unfit::Line(number));
    };
    match number_in(words, most, line) {
        Some(n) => Ok(n),
        None => Err(Unfit::Line(number)),
    }
}

/// The number from 1 to `most` in a line after these words.
#[tactic(auto, unfolding(crate::specs::Bundle::number_in))]
fn number_in(words: &str, most: u32, line: &[u8]) -> Option<u32>
    ensures exact { result ≡ number_in words.now most line.now }
    ensures within { IfSome result (λ n. n ≤ most) }
{
    number_up_to(most, after_words(words, line)?)
}

/// The derivations of at most so many answers, each under the line of its number.
fn answers(alloc: Global, most: u32, reader: &mut Reader<'_>) -> Result<Vec<Derivation>, Unfit>
    requires { most ≤ 1000 }
    ensures exact { Reads (λ derivations. derivations.items) result reader.new (answers_read most 1 reader.old.number (lines_of reader.old.rest.now)) }
    ensures few { IfOk result (λ derivations. length derivations.items ≤ most) }
    ensures short { IfOk result (λ derivations. All IsShort derivations.items) }
{
    let mut derivations = Vec::new(alloc);
    let mut number = 1;
    while number <= most {
        if !skip_answer(alloc, number, reader)? {
            return Ok(derivations);
        }
        let derivation = derivation(alloc, reader)?;
        keep_derivation(&mut derivations, derivation)?;
        number += 1;
    }
    Ok(derivations)
}

/// Keeps a derivation after others.
fn keep_derivation(
    derivations: &mut Vec<Derivation>,
    derivation: Derivation,
) -> Result<(), AllocError>
    ensures { OnOk result (derivations.new.items ≡ derivations.old.items ++ (derivation ∷ [])) }
{
    derivations.push(derivation)?;
    Ok(())
}

/// Whether the next line is that of the answer of this number, which is read then.
fn skip_answer(alloc: Global, number: u32, reader: &mut Reader<'_>) -> Result<bool, Unfit>
    ensures is { IfOk result (λ is. is ≡ is_next (answer_words number) (lines_of reader.old.rest.now)) }
    ensures read { IfOk result (λ is. is ≡ true → (reader.new.number ≡ reader.old.number + 1) × (lines_of reader.new.rest.now ≡ drop 1 (lines_of reader.old.rest.now))) }
    ensures kept { IfOk result (λ is. is ≡ false → reader.new ≡ reader.old) }
    ensures memory { IfErr result (λ unfit. unfit ≡ Unfit.Memory) }
{
    let words = with_number(alloc, "answer ", number)?;
    let mut ahead = *reader;
    let Some(line) = ahead.line() else {
        return Ok(false);
    };
    if line != words.as_str().as_bytes() {
        return Ok(false);
    }
    *reader = ahead;
    Ok(true)
}

/// A derivation: the line of its number of nodes, and their lines.
#[tactic(auto, unfolding(crate::specs::Bundle::derivation_read))]
fn derivation(alloc: Global, reader: &mut Reader<'_>) -> Result<Derivation, Unfit>
    ensures exact { Reads (λ derivation. derivation.nodes) result reader.new (derivation_read reader.old.number (lines_of reader.old.rest.now)) }
    ensures short { IfOk result (λ derivation. 5 * length derivation.nodes ≤ length reader.old.rest.now) }
{
    let count = count(reader)?;
    let nodes = nodes(alloc, count, reader)?;
    Ok(Derivation {
        nodes: Nodes::from_vec(nodes),
    })
}

/// The number of nodes in the next line.
fn count(reader: &mut Reader<'_>) -> Result<u64, Unfit>
    ensures exact { Reads (λ n. n) result reader.new (next_line count_in reader.old.number (lines_of reader.old.rest.now)) }
    ensures shorter { IfOk result (λ n. length reader.new.rest.now ≤ length reader.old.rest.now) }
{
    let number = reader.number;
    let Some(line) = reader.line() else {
        return Err(Unfit::Line(number));
    };
    match count_of(line) {
        Some(count) => Ok(count),
        None => Err(Unfit::Line(number)),
    }
}

/// The nodes of the next lines, of which there are so many.
fn nodes(alloc: Global, count: u64, reader: &mut Reader<'_>) -> Result<Vec<Node>, Unfit>
    ensures exact { Reads (λ nodes. nodes.items) result reader.new (nodes_read count reader.old.number (lines_of reader.old.rest.now)) }
    ensures short { IfOk result (λ nodes. 5 * length nodes.items ≤ length reader.old.rest.now) }
{
    let mut nodes = Vec::new(alloc);
    let mut left = count;
    while left > 0 {
        let node = node(alloc, reader)?;
        keep_node(&mut nodes, node)?;
        left -= 1;
    }
    Ok(nodes)
}

/// Keeps a node after others.
fn keep_node(nodes: &mut Vec<Node>, node: Node) -> Result<(), AllocError>
    ensures { OnOk result (nodes.new.items ≡ nodes.old.items ++ (node ∷ [])) }
{
    nodes.push(node)?;
    Ok(())
}

/// The node of the next line.
fn node(alloc: Global, reader: &mut Reader<'_>) -> Result<Node, Unfit>
    ensures exact { Reads (λ node. node) result reader.new (next_line node_in reader.old.number (lines_of reader.old.rest.now)) }
    ensures shorter { IfOk result (λ node. length reader.new.rest.now + 5 ≤ length reader.old.rest.now) }
{
    let number = reader.number;
    let Some(line) = reader.line() else {
        return Err(Unfit::Line(number));
    };
    match node_of(alloc, line)? {
        Some(node) => Ok(node),
        None => Err(Unfit::Line(number)),
    }
}

/// The last line, which nothing follows.
#[tactic(auto, unfolding(crate::specs::Bundle::ending_read))]
fn ending<'a>(
    alloc: Global,
    budget: u32,
    most: u32,
    reader: &mut Reader<'a>,
) -> Result<&'a [u8], Unfit>
    ensures { Fits (λ line. line.now) result (ending_read budget most reader.old.number (lines_of reader.old.rest.now)) }
{
    let line = ending_line(alloc, budget, most, reader)?;
    if !reader.rest.is_empty() {
        return Err(Unfit::Line(reader.number));
    }
    Ok(line)
}

/// The next line, which says how a search with these limits ended.
fn ending_line<'a>(
    alloc: Global,
    budget: u32,
    most: u32,
    reader: &mut Reader<'a>,
) -> Result<&'a [u8], Unfit>
    ensures { Reads (λ line. line.now) result reader.new (next_line (ending_in budget most) reader.old.number (lines_of reader.old.rest.now)) }
{
    let number = reader.number;
    let Some(line) = reader.line() else {
        return Err(Unfit::Line(number));
    };
    if !is_ending(alloc, budget, most, line)? {
        return Err(Unfit::Line(number));
    }
    Ok(line)
}
