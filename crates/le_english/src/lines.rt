ghost use Rattle.std.specs.Prelude.{◌≡◌, ◌+◌, ◌-◌, ◌++◌, None, Some, decimal, length, slice_get, IfOk, OnOk, MatchOption};
ghost use Rattle.le_english.specs.Explanations.{indent, tagged, sentence_of, written_tag, use_line, clause_at, group_line, absent_line, fold_word, cases_text, gather_line, node_line};
ghost use Rattle.le_english.specs.Said.{IsKnown};

use crate::pending::Pending;
use crate::phrases::say_term;
use crate::said::{Said, is_template, sentence};
use itoa::Buffer;
use le_base::{FoldKind, Text};
use le_proofs::Node;
use le_templates::Templates;
use le_terms::{Atom, Clause, ClauseKind, GroupKind, Names, Program, Term};
use std::alloc::{AllocError, Global};

/// The line of a node that proves this literal, over so many cases where it is a gather.
pub fn node_line(
    alloc: Global,
    templates: &Templates,
    names: &Names,
    program: &Program,
    at: Pending,
    node: &Node,
    cases: usize,
    last: &mut Option<Said>,
) -> Result<Text, AllocError>
    requires known { IsKnown templates.now names.now last.old }
    ensures known { OnOk result (IsKnown templates.now names.now last.new) }
    ensures text { IfOk result (λ text. text ≡ node_line templates.now names.now program.now at node.now cases) }
{
    match node {
        Node::Use { clause, atom, .. } => match clause_at(program, *clause) {
            Some(clause) => use_line(alloc, templates, names, at.depth, clause, atom, last),
            None => Ok(Text::new(alloc)),
        },
        Node::Compute { atom } => {
            let text = sentence(alloc, templates, names, atom, last)?;
            tagged(alloc, at.depth, text.as_str(), "computed")
        }
        Node::Absent { atom } => absent_line(alloc, templates, names, program, at, atom, last),
        Node::Gather {
            fold,
            result: value,
            ..
        } => gather_line(alloc, templates, names, at, *fold, value, cases),
        _ => Ok(Text::new(alloc)),
    }
}

/// The clause of a number, counted from 1.
pub fn clause_at(program: &Program, number: u32) -> Option<&Clause>
    ensures { MatchOption result (clause_at program.now number ≡ None) (λ clause. clause_at program.now number ≡ Some clause.now) }
{
    program
        .clauses
        .as_slice()
        .get((number as usize).saturating_sub(1))
}

// The line of an atom that is proved by a clause.
fn use_line(
    alloc: Global,
    templates: &Templates,
    names: &Names,
    depth: usize,
    clause: &Clause,
    atom: &Atom,
    last: &mut Option<Said>,
) -> Result<Text, AllocError>
    requires known { IsKnown templates.now names.now last.old }
    ensures known { OnOk result (IsKnown templates.now names.now last.new) }
    ensures text { IfOk result (λ text. text ≡ use_line (sentence_of templates.now names.now atom.now) depth clause.now.kind clause.now.body clause.now.line) }
{
    match clause.kind {
        ClauseKind::Branch => Ok(Text::new(alloc)),
        ClauseKind::Written => {
            let text = sentence(alloc, templates, names, atom, last)?;
            let tag = written_tag(alloc, clause)?;
            tagged(alloc, depth, text.as_str(), tag.as_str())
        }
        ClauseKind::Prelude => {
            let text = sentence(alloc, templates, names, atom, last)?;
            tagged(alloc, depth, text.as_str(), "predefined")
        }
    }
}

// What a written clause is called, and its line.
fn written_tag(alloc: Global, clause: &Clause) -> Result<Text, AllocError>
    ensures { IfOk result (λ text. text ≡ written_tag clause.now.body clause.now.line) }
{
    let mut tag = if clause.body.as_slice().is_empty() {
        Text::of(alloc, "fact, line ")?
    } else {
        Text::of(alloc, "rule, line ")?
    };
    push_number(&mut tag, clause.line as usize)?;
    Ok(tag)
}

// The line that says that there is no way to prove an atom.
#[tactic(auto, unfolding(crate::specs::Explanations::absent_line))]
fn absent_line(
    alloc: Global,
    templates: &Templates,
    names: &Names,
    program: &Program,
    at: Pending,
    atom: &Atom,
    last: &mut Option<Said>,
) -> Result<Text, AllocError>
    requires known { IsKnown templates.now names.now last.old }
    ensures known { OnOk result (IsKnown templates.now names.now last.new) }
    ensures text { IfOk result (λ text. text ≡ absent_line templates.now names.now program.now at.depth at.line atom.now) }
{
    if is_template(templates, atom.pred) {
        let mut text = Text::of(alloc, "it is not the case that ")?;
        text.push_str(sentence(alloc, templates, names, atom, last)?.as_str())?;
        return tagged(alloc, at.depth, text.as_str(), "no way");
    }
    let group = atom.pred.saturating_sub(20 + templates.users());
    group_line(alloc, program.groups.as_slice(), group, at)
}

// The line that says that the group of this place is never met.
fn group_line(
    alloc: Global,
    groups: &[GroupKind],
    group: u32,
    at: Pending,
) -> Result<Text, AllocError>
    ensures { IfOk result (λ text. text ≡ group_line (slice_get groups.now group) at.depth at.line) }
{
    let mut text = Text::of(alloc, "the condition at line ")?;
    push_number(&mut text, at.line as usize)?;
    if let Some(GroupKind::Case) = groups.get(group as usize) {
        text.push_str(" is met in every case")?;
        return tagged(alloc, at.depth, text.as_str(), "all cases");
    }
    text.push_str(" is never met")?;
    tagged(alloc, at.depth, text.as_str(), "no way")
}

// The line of a gather with this result over so many cases.
fn gather_line(
    alloc: Global,
    templates: &Templates,
    names: &Names,
    at: Pending,
    fold: FoldKind,
    value: &Term,
    cases: usize,
) -> Result<Text, AllocError>
    ensures { IfOk result (λ text. text ≡ gather_line templates.now names.now at.depth at.line fold value.now cases) }
{
    let mut text = say_term(alloc, templates, names, value)?;
    push_cases(&mut text, fold, cases, at.line)?;
    tagged(alloc, at.depth, text.as_str(), "all cases")
}

// Appends what is said of a gather after its result.
fn push_cases(text: &mut Text, fold: FoldKind, cases: usize, line: u32) -> Result<(), AllocError>
    ensures { OnOk result (text.new ≡ text.old ++ cases_text fold cases line) }
{
    text.push_str(" is the ")?;
    text.push_str(fold_word(fold))?;
    text.push_str(" over ")?;
    push_number(text, cases)?;
    text.push_str(" cases at line ")?;
    push_number(text, line as usize)?;
    Ok(())
}

// The word for what is made of the values.
fn fold_word(fold: FoldKind) -> &'static str
    ensures { result.now ≡ fold_word fold }
{
    match fold {
        FoldKind::Sum => "sum",
        FoldKind::Number => "number",
        FoldKind::Greatest => "greatest",
    }
}

// A line of an explanation with a text and a tag.
fn tagged(alloc: Global, depth: usize, text: &str, tag: &str) -> Result<Text, AllocError>
    ensures { IfOk result (λ line. line ≡ tagged depth text.now tag.now) }
{
    let mut line = indent(alloc, depth)?;
    line.push_str(text)?;
    line.push_str(". % ")?;
    line.push_str(tag)?;
    line.push_str("\n")?;
    Ok(line)
}

// Four spaces for each step of depth.
fn indent(alloc: Global, depth: usize) -> Result<Text, AllocError>
    ensures { IfOk result (λ text. text ≡ indent depth) }
{
    let mut text = Text::new(alloc);
    for _step in 0..depth {
        text.push_str("    ")?;
    }
    Ok(text)
}

// Appends a number in decimal digits.
fn push_number(text: &mut Text, number: usize) -> Result<(), AllocError>
    ensures { OnOk result (text.new ≡ text.old ++ decimal number) }
{
    text.push_str(Buffer::new().format(number))
}
