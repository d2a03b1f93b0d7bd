ghost use Rattle.std.specs.Prelude.{◌≡◌, ◌<◌, ◌≤◌, get_or, length, IfOk, ◌⊎◌};
ghost use Rattle.std.specs.List.{AllByRecursion};
ghost use Rattle.le_terms.specs.Variables.{occurrences};
ghost use Rattle.le_terms.specs.Program.{HasVariablesBelow, HasArity, IsLiteral, IsProgramClause, IsProgram, StandsInPlace, form_atom, form_terms, literals_terms, predefined_arities};

use crate::{Verdict, check};
use le_base::{FoldKind, Text};
use le_proofs::{Derivation, Node, Nodes};
use le_subst::Steps;
use le_terms::{
    Asked, AskedList, Atom, Clause, ClauseKind, Clauses, Form, Groups, Literal, Literals, Program,
    Sym, Term, Terms,
};
use std::alloc::Global;
use std::marker::Brand;
use std::sync::ledger::{Blank, Ledger};
use std::test::Fail;

// The term of a letter: `A` to `D` are variables, a digit a number, and another letter a constant.
fn term(alloc: Global, letter: u8) -> Result<Term, Fail>
    ensures { IfOk result (λ t. AllByRecursion (λ v. v < 4) (occurrences t)) }
{
    match letter {
        b'A'..=b'D' => Ok(Term::leaf(alloc, Sym::Var(u32::from(letter - b'A')))?),
        b'0'..=b'9' => Ok(Term::leaf(alloc, Sym::Num(i64::from(letter - b'0')))?),
        _ => Ok(Term::leaf(alloc, Sym::Name(u32::from(letter)))?),
    }
}

// The terms of two letters.
fn pair(alloc: Global, first: u8, second: u8) -> Result<Terms, Fail>
    ensures two { IfOk result (λ terms. length terms ≡ 2) }
    ensures variables { IfOk result (λ terms. HasVariablesBelow 4 terms) }
{
    let mut terms = Vec::new(alloc);
    terms.push(term(alloc, first)?)?;
    terms.push(term(alloc, second)?)?;
    Ok(Terms::from_vec(terms))
}

// The atom of a predicate, `p` to `w`, and its two arguments.
fn atom(alloc: Global, pred: u8, first: u8, second: u8) -> Result<Atom, Fail>
    ensures pred { IfOk result (λ atom. 20 ≤ atom.pred) }
    ensures arity { IfOk result (HasArity (λ pred. get_or predefined_arities pred 2) 28) }
    ensures variables { IfOk result (λ atom. HasVariablesBelow 4 atom.args) }
{
    Ok(Atom {
        pred: 20 + u32::from(pred % 8),
        args: pair(alloc, first, second)?,
    })
}

// The computed atom of `0`, equal to, or `1`, different from, and its two arguments.
fn computed(alloc: Global, pred: u8, first: u8, second: u8) -> Result<Atom, Fail>
    ensures pred { IfOk result (λ atom. atom.pred < 2) }
    ensures arity { IfOk result (HasArity (λ pred. get_or predefined_arities pred 2) 28) }
    ensures variables { IfOk result (λ atom. HasVariablesBelow 4 atom.args) }
{
    Ok(Atom {
        pred: u32::from(pred % 2),
        args: pair(alloc, first, second)?,
    })
}

// The form of a sign and an atom's letters: `+` and `-` for an atom and its negation, `=` for a computed literal, and
// `#` where D is the number of each C.
fn form(alloc: Global, sign: u8, pred: u8, first: u8, second: u8) -> Result<Form, Fail>
    ensures stands { IfOk result StandsInPlace }
    ensures arity { IfOk result (λ form. HasArity (λ pred. get_or predefined_arities pred 2) 28 (form_atom form)) }
    ensures variables { IfOk result (λ form. HasVariablesBelow 4 (form_terms form)) }
{
    match sign {
        b'=' => Ok(Form::Calc(computed(alloc, pred, first, second)?)),
        b'-' => Ok(Form::Neg(atom(alloc, pred, first, second)?)),
        b'#' => Ok(Form::Gather {
            fold: FoldKind::Number,
            result: term(alloc, b'D')?,
            value: term(alloc, b'C')?,
            atom: atom(alloc, pred, first, second)?,
        }),
        _ => Ok(Form::Pos(atom(alloc, pred, first, second)?)),
    }
}

// The literals of some letters, four for each.
fn literals(alloc: Global, letters: &[u8]) -> Result<Vec<Literal>, Fail>
    ensures literals { IfOk result (λ literals. AllByRecursion (IsLiteral (λ pred. get_or predefined_arities pred 2) 28) literals.items) }
    ensures variables { IfOk result (λ literals. HasVariablesBelow 4 (literals_terms literals.items)) }
    ensures few { IfOk result (λ literals. length literals.items ≤ length letters.now) }
{
    let mut literals = Vec::new(alloc);
    for place in 0..letters.len() / 4 {
        let at = 4 * place;
        literals.push(Literal {
            line: 1,
            form: form(
                alloc,
                letters[at],
                letters[at + 1],
                letters[at + 2],
                letters[at + 3],
            )?,
        })?;
    }
    Ok(literals)
}

// The clause of some letters: the three of its head, and then its body.
fn clause(alloc: Global, letters: &[u8]) -> Result<Clause, Fail>
    ensures { IfOk result (IsProgramClause (λ pred. get_or predefined_arities pred 2) 28) }
{
    if letters.len() < 3 || letters.len() > 30 {
        return Err(Fail::from("no clause"));
    }
    Ok(Clause {
        head: atom(alloc, letters[0], letters[1], letters[2])?,
        body: Literals::from_vec(literals(alloc, &letters[3..])?),
        vars: 4,
        line: 1,
        kind: ClauseKind::Written,
    })
}

// The clauses of some letters.
fn clauses(alloc: Global, rows: &[&str]) -> Result<Vec<Clause>, Fail>
    ensures clauses { IfOk result (λ clauses. AllByRecursion (IsProgramClause (λ pred. get_or predefined_arities pred 2) 28) clauses.items) }
    ensures few { IfOk result (λ clauses. length clauses.items ≤ length rows.now) }
{
    let mut clauses = Vec::new(alloc);
    for row in rows {
        clauses.push(clause(alloc, row.as_bytes())?)?;
    }
    Ok(clauses)
}

// The first variables, so many of them, as those that are asked for.
fn asked(alloc: Global, count: u32) -> Result<Vec<Asked>, Fail>
    requires { count ≤ 4 }
    ensures { IfOk result (λ asked. AllByRecursion (λ one. one.var < 4) asked.items) }
{
    let mut asked = Vec::new(alloc);
    for var in 0..count {
        asked.push(Asked {
            name: Text::of(alloc, "thing")?,
            var,
        })?;
    }
    Ok(asked)
}

// The program of some clauses and a query, which asks for its first variables.
fn program(
    alloc: Global,
    version: u8,
    rows: &[&str],
    query: &str,
    count: u32,
) -> Result<Program, Fail>
    requires count { count ≤ 4 }
    requires version { (version ≡ 1) ⊎ (version ≡ 2) }
    ensures { IfOk result IsProgram }
{
    if rows.len() > 30 {
        return Err(Fail::from("too many clauses"));
    }
    Ok(Program {
        clauses: Clauses::from_vec(clauses(alloc, rows)?),
        query: Literals::from_vec(literals(alloc, query.as_bytes())?),
        asked: AskedList::from_vec(asked(alloc, count)?),
        vars: 4,
        users: 8,
        groups: Groups::from_vec(Vec::new(alloc)),
        version,
    })
}

// A letter of a row; past its end `0`.
fn at(row: &[u8], place: usize) -> u8 {
    if place < row.len() { row[place] } else { b'0' }
}

// The number of a digit of a row.
fn number(row: &[u8], place: usize) -> u32 {
    u32::from(at(row, place) % 16)
}

// The node of a row: a letter of its kind, and what it holds.
fn node(alloc: Global, row: &[u8]) -> Result<Node, Fail> {
    match at(row, 0) {
        b'U' => Ok(Node::Use {
            clause: number(row, 1),
            count: number(row, 2),
            atom: atom(alloc, at(row, 3), at(row, 4), at(row, 5))?,
        }),
        b'c' => Ok(Node::Compute {
            atom: computed(alloc, at(row, 1), at(row, 2), at(row, 3))?,
        }),
        b'a' => Ok(Node::Absent {
            atom: atom(alloc, at(row, 1), at(row, 2), at(row, 3))?,
        }),
        b'g' => Ok(Node::Gather {
            fold: FoldKind::Number,
            result: term(alloc, at(row, 1))?,
            value: term(alloc, at(row, 2))?,
            atom: atom(alloc, at(row, 3), at(row, 4), at(row, 5))?,
        }),
        _ => Ok(tree_node(row)),
    }
}

// The node of a tree of a row.
fn tree_node(row: &[u8]) -> Node {
    match at(row, 0) {
        b's' => Node::Split {
            count: number(row, 1),
        },
        b'b' => Node::Branch {
            clause: number(row, 1),
        },
        b'C' => Node::Computed,
        b'L' => Node::Lacking,
        b'P' => Node::Present,
        b'G' => Node::Gathered,
        b'N' => Node::Ungathered,
        b'O' => Node::Success,
        _ => Node::Dead,
    }
}

// The derivation of some rows.
fn derivation(alloc: Global, rows: &[&str]) -> Result<Derivation, Fail>
    ensures { IfOk result (λ derivation. length derivation.nodes ≤ length rows.now) }
{
    let mut nodes = Vec::new(alloc);
    for row in rows {
        nodes.push(node(alloc, row.as_bytes())?)?;
    }
    Ok(Derivation {
        nodes: Nodes::from_vec(nodes),
    })
}

// The letter of a symbol; a variable's is its number, and so is a number's.
fn letter(sym: Sym) -> u8 {
    match sym {
        Sym::Name(name) => (name % 128) as u8,
        Sym::Num(number) => b'0' + (number.unsigned_abs() % 10) as u8,
        Sym::Var(var) => b'0' + (var % 10) as u8,
        _ => b'.',
    }
}

// A verdict as text: the values after a `!`, or the numbers of the node and of the fault, where `:` is 10.
fn text_of(alloc: Global, verdict: &Verdict) -> Result<Vec<u8>, Fail> {
    let mut text = Vec::new(alloc);
    match verdict {
        Verdict::Refused { node, why } => {
            text.push(b'0' + (*node % 16) as u8)?;
            text.push(b'0' + *why % 16)?;
        }
        Verdict::Accepted(values) => {
            text.push(b'!')?;
            for value in values.as_slice() {
                text.push(letter(value.root()))?;
            }
        }
    }
    Ok(text)
}

// Whether the verdict on a derivation is this one.
fn says(alloc: Global, program: &Program, rows: &[&str], text: &str) -> Result<bool, Fail>
    requires { IsProgram program.now }
{
    if rows.len() > 30 {
        return Err(Fail::from("too many nodes"));
    }
    let derivation = derivation(alloc, rows)?;
    let said = counted::<Brand>(alloc, Blank::new(1), program, &derivation)?;
    Ok(said.as_slice() == text.as_bytes())
}

// The verdict on a derivation as text.
fn counted<L: Ledger>(
    alloc: Global,
    blank: Blank,
    program: &Program,
    derivation: &Derivation,
) -> Result<Vec<u8>, Fail>
    requires name { blank.name ≡ L.name }
    requires parts { blank.parts ≡ L.parts }
    requires some { 0 < blank.parts }
    requires program { IsProgram program.now }
    requires few { length derivation.now.nodes ≤ 60000000 }
{
    let mut steps = Steps::<L>::begin(blank);
    let verdict = check(alloc, program, derivation, &mut steps)?;
    text_of(alloc, &verdict)
}

#[test]
fn proofs_are_checked(rt: HostRuntime) -> Result<(), Fail> {
    let alloc = rt.alloc();
    let lucky = program(alloc, 1, &["pAB+pAB", "pab"], "+pab", 0)?;
    for (rows, text) in [
        (["U11pab", "U20pab"].as_slice(), "!"),
        // no clause has this number
        (["U11pab", "U70pab"].as_slice(), "21"),
        // the nodes end
        (["U11pab"].as_slice(), "29"),
        // nodes are left
        (["U20pab", "U20pab"].as_slice(), "2:"),
        // the clause's body has one literal; and another kind of node
        (["U10pab"].as_slice(), "13"),
        (["U11pab", "apab", "s0"].as_slice(), "23"),
    ] {
        assert!(rt; says(alloc, &lucky, rows, text)?);
    }
    Ok(())
}

#[test]
fn instances_are_checked(rt: HostRuntime) -> Result<(), Fail> {
    let alloc = rt.alloc();
    for (clauses, query, count, rows, text) in [
        (
            ["rAB+pAC+qCB", "pac", "qcb", "qdb"].as_slice(),
            "+rAB",
            2,
            ["U12rab", "U20pac", "U30qcb"].as_slice(),
            "!ab",
        ),
        // a head that doesn't unify
        (
            ["rAB+pAC+qCB", "pac", "qcb", "qdb"].as_slice(),
            "+rAB",
            2,
            ["U12rab", "U20pac", "U40qdb"].as_slice(),
            "32",
        ),
        // another instance
        (
            ["rAB+pAC+qCB", "pac", "qcb", "qdb"].as_slice(),
            "+rAB",
            2,
            ["U12rab", "U20pad", "U30qcb"].as_slice(),
            "28",
        ),
        // variables that stay unbound
        (["pAB"].as_slice(), "+pAB", 2, ["U10pBC"].as_slice(), "!12"),
        // computed literals, of which the second doesn't hold
        ([].as_slice(), "=0Aa", 1, ["c0aa"].as_slice(), "!a"),
        ([].as_slice(), "=1aa", 0, ["c1aa"].as_slice(), "17"),
    ] {
        let program = program(alloc, 1, clauses, query, count)?;
        assert!(rt; says(alloc, &program, rows, text)?);
    }
    Ok(())
}

#[test]
fn negations_are_checked(rt: HostRuntime) -> Result<(), Fail> {
    let alloc = rt.alloc();
    for (clauses, query, rows, text) in [
        (
            ["pAB-qAB", "qaa"].as_slice(),
            "+pbb",
            ["U11pbb", "aqbb", "s0"].as_slice(),
            "!",
        ),
        // a split with a branch too many
        (
            ["pAB-qAB", "qaa"].as_slice(),
            "+pbb",
            ["U11pbb", "aqbb", "s1"].as_slice(),
            "36",
        ),
        // a success leaf in a failed tree
        (
            ["pAB-qAB", "qaa"].as_slice(),
            "+paa",
            ["U11paa", "aqaa", "s1", "b2", "O"].as_slice(),
            "55",
        ),
        // a branch whose clause doesn't unify
        (
            ["pAB-qAB", "qaa"].as_slice(),
            "+paa",
            ["U11paa", "aqaa", "s1", "b1", "O"].as_slice(),
            "42",
        ),
        // a negation with a variable
        (
            ["pAB-qAB", "qaa"].as_slice(),
            "+pAa",
            ["U11pAa", "aqAa", "s0"].as_slice(),
            "24",
        ),
    ] {
        let program = program(alloc, 1, clauses, query, 0)?;
        assert!(rt; says(alloc, &program, rows, text)?);
    }
    Ok(())
}

#[test]
fn gathers_are_checked(rt: HostRuntime) -> Result<(), Fail> {
    let alloc = rt.alloc();
    for (clauses, query, rows, text) in [
        // a gather, with another result, and with another branch first
        (
            ["qab", "qac"].as_slice(),
            "#qaC",
            ["g2BqaB", "s2", "b1", "O", "b2", "O"].as_slice(),
            "!",
        ),
        (
            ["qab", "qac"].as_slice(),
            "#qaC",
            ["g3BqaB", "s2", "b1", "O", "b2", "O"].as_slice(),
            "18",
        ),
        (
            ["qab", "qac"].as_slice(),
            "#qaC",
            ["g2BqaB", "s2", "b2", "O", "b1", "O"].as_slice(),
            "36",
        ),
        // a variable that the value hasn't
        (
            ["qab", "qac"].as_slice(),
            "#qAC",
            ["g2BqCB", "s0"].as_slice(),
            "14",
        ),
    ] {
        let program = program(alloc, 1, clauses, query, 0)?;
        assert!(rt; says(alloc, &program, rows, text)?);
    }
    Ok(())
}

#[test]
fn negations_in_trees_are_checked(rt: HostRuntime) -> Result<(), Fail> {
    let alloc = rt.alloc();
    for (clauses, query, rows, text) in [
        // a negation that fails by a proof, and one that holds, in a tree that may have a success leaf and in one that may not
        (
            ["pAB-qAB", "qAB-rAB", "raa"].as_slice(),
            "+paa",
            ["U11paa", "aqaa", "s1", "b2", "P", "U30raa"].as_slice(),
            "!",
        ),
        (
            ["pAB-qAB", "qAB-rAB", "raa"].as_slice(),
            "#qbb",
            ["g1Bqbb", "s1", "b2", "L", "s0", "O"].as_slice(),
            "!",
        ),
        (
            ["pAB-qAB", "qAB-rAB", "raa"].as_slice(),
            "+pbb",
            ["U11pbb", "aqbb", "s1", "b2", "L", "s0", "O"].as_slice(),
            "75",
        ),
    ] {
        let program = program(alloc, 1, clauses, query, 0)?;
        assert!(rt; says(alloc, &program, rows, text)?);
    }
    Ok(())
}

#[test]
fn computed_literals_in_trees_are_checked(rt: HostRuntime) -> Result<(), Fail> {
    let alloc = rt.alloc();
    for (clauses, query, rows, text) in [
        // a computed literal that holds, one that doesn't, and one said to hold that doesn't
        (
            ["qAB=0AB"].as_slice(),
            "#qaC",
            ["g1BqaB", "s1", "b1", "C", "O"].as_slice(),
            "!",
        ),
        (
            ["pAB-qAB", "qAB=1AB"].as_slice(),
            "+paa",
            ["U11paa", "aqaa", "s1", "b2", "D"].as_slice(),
            "!",
        ),
        (
            ["pAB-qAB", "qAB=1AB"].as_slice(),
            "+paa",
            ["U11paa", "aqaa", "s1", "b2", "C", "O"].as_slice(),
            "57",
        ),
    ] {
        let program = program(alloc, 1, clauses, query, 0)?;
        assert!(rt; says(alloc, &program, rows, text)?);
    }
    Ok(())
}

#[test]
fn gathers_in_trees_are_checked(rt: HostRuntime) -> Result<(), Fail> {
    let alloc = rt.alloc();
    for (clauses, query, rows, text) in [
        // a gather in a tree whose result fits, and one whose result doesn't
        (
            ["qAB#rAC"].as_slice(),
            "#qab",
            ["g1Bqab", "s1", "b1", "G", "s0", "O"].as_slice(),
            "!",
        ),
        (
            ["qAB=0D5#rAC"].as_slice(),
            "#qab",
            ["g0Bqab", "s1", "b1", "C", "N", "s0"].as_slice(),
            "!",
        ),
    ] {
        let program = program(alloc, 1, clauses, query, 0)?;
        assert!(rt; says(alloc, &program, rows, text)?);
    }
    Ok(())
}

#[test]
fn the_cut_goes_first_in_version_2(rt: HostRuntime) -> Result<(), Fail> {
    let alloc = rt.alloc();
    let program = program(alloc, 2, &["pAB-qAB", "qaa"], "+pbb", 0)?;
    for (rows, text) in [
        (["U11pbb", "aqbb", "s0"].as_slice(), "!"),
        // a branch in the place of a proof, and a clause that doesn't unify
        (["U21pbb", "b1"].as_slice(), "23"),
        (["U11pbb", "aqbb"].as_slice(), "39"),
        (["U11pbb", "aqbb", "s0", "s0"].as_slice(), "4:"),
    ] {
        assert!(rt; says(alloc, &program, rows, text)?);
    }
    Ok(())
}
