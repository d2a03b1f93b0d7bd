ghost use Rattle.std.specs.Prelude.{◌≡◌, ◌<◌, ◌≤◌};
ghost use Rattle.le_terms.specs.Program.{IsProgram};
ghost use Rattle.le_proofs.specs.declared.next.Next.TheVariants.{Answer};
ghost use Rattle.le_machine.specs.declared.phase.Phase.TheVariants.{Told};

use crate::Machine;
use le_base::FoldKind;
use le_proofs::{Next, Node};
use le_terms::{Atom, Program, Sym, Term};
use std::alloc::Global;
use std::test::Fail;

// The digit of a number below 10, and `Z` for another one.
fn digit(number: i64) -> u8 {
    if 0 <= number && number < 10 {
        b'0' + number as u8
    } else {
        b'Z'
    }
}

// The letter of a symbol; a variable's is `A` for the first, and a number's is its digit.
fn letter(sym: Sym) -> u8 {
    match sym {
        Sym::Name(name) => (name % 128) as u8,
        Sym::Num(number) => digit(number),
        Sym::Var(var) => b'@' + (var % 10) as u8,
        Sym::Cons => b':',
        _ => b'.',
    }
}

// Notes the letters of a term.
fn note_term(value: &Term, text: &mut Vec<u8>) -> Result<(), Fail> {
    for sym in value.as_syms() {
        text.push(letter(*sym))?;
    }
    Ok(())
}

// Notes the letters of terms.
fn note_terms(values: &[Term], text: &mut Vec<u8>) -> Result<(), Fail> {
    for value in values {
        note_term(value, text)?;
    }
    Ok(())
}

// Notes the letters of the last answer's values after a `!`.
fn note_values(alloc: Global, machine: &Machine<'_>, text: &mut Vec<u8>) -> Result<(), Fail>
    requires { machine.now.phase ≡ Told Answer }
{
    text.push(b'!')?;
    note_terms(machine.values(alloc)?.as_slice(), text)
}

// Notes a number below 100 by its two digits.
fn note_number(number: u32, text: &mut Vec<u8>) -> Result<(), Fail> {
    text.push(b'0' + (number / 10 % 10) as u8)?;
    text.push(b'0' + (number % 10) as u8)?;
    Ok(())
}

// Notes a letter and a line.
fn note_line(kind: u8, line: u32, text: &mut Vec<u8>) -> Result<(), Fail> {
    text.push(kind)?;
    note_number(line, text)
}

// What a search answers to four calls of `next`, each with its selections.
pub(crate) fn answers(alloc: Global, program: &Program, budget: u32) -> Result<Vec<u8>, Fail>
    requires program { IsProgram program.now }
    requires some { 0 < budget }
    requires most { budget ≤ 1000000 }
{
    let mut machine = Machine::start(alloc, program, budget)?;
    let mut text = Vec::new(alloc);
    for _ in 0..4 {
        match machine.next(alloc)? {
            Next::Answer => note_values(alloc, &machine, &mut text)?,
            Next::Done => text.push(b'D')?,
            Next::Floundered(line) => note_line(b'F', line, &mut text)?,
            Next::OutOfRange(line) => note_line(b'O', line, &mut text)?,
            Next::Spent => text.push(b'S')?,
        }
        text.push(b' ')?;
        note_number(machine.selections(), &mut text)?;
        text.push(b';')?;
    }
    Ok(text)
}

// The letter of a predicate.
fn predicate(pred: u32) -> u8 {
    match pred {
        0 => b'=',
        3 => b'<',
        10 => b'+',
        _ => b'p' + ((pred % 8 + 4) % 8) as u8,
    }
}

// Notes a letter and an atom.
fn note_atom(kind: u8, atom: &Atom, text: &mut Vec<u8>) -> Result<(), Fail> {
    text.push(kind)?;
    text.push(predicate(atom.pred))?;
    note_terms(atom.args.as_slice(), text)
}

// The letter of what a gather makes of its values.
fn fold_letter(fold: FoldKind) -> u8 {
    match fold {
        FoldKind::Sum => b'S',
        FoldKind::Number => b'N',
        FoldKind::Greatest => b'G',
    }
}

// The letter of a node of a tree.
fn kind_letter(node: &Node) -> u8 {
    match node {
        Node::Computed => b'C',
        Node::Lacking => b'L',
        Node::Present => b'P',
        Node::Gathered => b'G',
        Node::Ungathered => b'U',
        Node::Success => b'.',
        _ => b'x',
    }
}

// Notes a node.
fn note_node(node: &Node, text: &mut Vec<u8>) -> Result<(), Fail> {
    match node {
        Node::Use {
            clause,
            count,
            atom,
        } => {
            note_line(b'u', *clause, text)?;
            note_atom(b'0' + (*count % 10) as u8, atom, text)
        }
        Node::Compute { atom } => note_atom(b'c', atom, text),
        Node::Absent { atom } => note_atom(b'n', atom, text),
        Node::Gather {
            fold,
            result,
            value,
            atom,
        } => {
            text.push(b'g')?;
            note_term(result, text)?;
            note_term(value, text)?;
            note_atom(fold_letter(*fold), atom, text)
        }
        Node::Split { count } => note_line(b's', *count, text),
        Node::Branch { clause } => note_line(b'b', *clause, text),
        _ => Ok(text.push(kind_letter(node))?),
    }
}

// Notes the nodes of a derivation, each before a `;`.
fn note_nodes(nodes: &[Node], text: &mut Vec<u8>) -> Result<(), Fail> {
    for node in nodes {
        note_node(node, text)?;
        text.push(b';')?;
    }
    Ok(())
}

// The nodes of the derivation of a search's first answer.
pub(crate) fn derivation(alloc: Global, program: &Program) -> Result<Vec<u8>, Fail>
    requires program { IsProgram program.now }
{
    let mut machine = Machine::start(alloc, program, 99)?;
    let mut text = Vec::new(alloc);
    if let Next::Answer = machine.next(alloc)? {
        note_nodes(machine.derivation(alloc)?.nodes.as_slice(), &mut text)?;
    }
    Ok(text)
}
