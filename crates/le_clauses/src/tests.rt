use crate::{Pieces, program, select};
use le_base::Stop;
use le_docs::sections;
use le_layout::scan;
use le_terms::{Atom, Form, GroupKind, Literal, Program, Sym};
use std::alloc::{AllocError, Global};
use std::test::Fail;

const START: &str =
    "the templates are:\n*a person* is happy. *a person* likes *a thing*.\nthe knowledge base includes:\n";

// An atom as its predicate and the symbols of its arguments.
fn add_atom(out: &mut String, atom: &Atom) -> Result<(), AllocError> {
    let pred = atom.pred;
    write!(out, " {pred}(")?;
    for term in atom.args.as_slice() {
        match term.root() {
            Sym::Name(n) => write!(out, "c{n}")?,
            Sym::Var(n) => write!(out, "v{n}")?,
            _ => out.push_str("other")?,
        }
    }
    out.push_str(")")?;
    Ok(())
}

fn add_form(out: &mut String, form: &Form) -> Result<(), AllocError> {
    match form {
        Form::Pos(atom) => add_atom(out, atom),
        Form::Neg(atom) => add_named(out, " not", atom),
        Form::Calc(atom) => add_named(out, " calc", atom),
        Form::Gather {
            fold: _,
            result: _,
            value: _,
            atom,
        } => add_named(out, " gather", atom),
    }
}

fn add_named(out: &mut String, name: &str, atom: &Atom) -> Result<(), AllocError> {
    out.push_str(name)?;
    add_atom(out, atom)
}

fn add_literals(out: &mut String, literals: &[Literal]) -> Result<(), AllocError> {
    for literal in literals {
        add_form(out, &literal.form)?;
    }
    Ok(())
}

// A program as a text: the line, head, body and variables of each clause, the query with what it asks for, and the kinds
// of the groups.
fn told(alloc: Global, program: &Program) -> Result<String, AllocError> {
    let mut out = String::new(alloc);
    for clause in program.clauses.as_slice() {
        let line = clause.line;
        if line == 0 {
            continue;
        }
        write!(out, "{line}:")?;
        add_atom(&mut out, &clause.head)?;
        out.push_str(" if")?;
        add_literals(&mut out, clause.body.as_slice())?;
        let vars = clause.vars;
        writeln!(out, " /{vars}")?;
    }
    out.push_str("?")?;
    add_literals(&mut out, program.query.as_slice())?;
    add_asked(&mut out, program)?;
    Ok(out)
}

fn add_asked(out: &mut String, program: &Program) -> Result<(), AllocError> {
    for asked in program.asked.as_slice() {
        let name = asked.name.as_str();
        let var = asked.var;
        write!(out, " {name}={var}")?;
    }
    let vars = program.vars;
    let users = program.users;
    write!(out, " /{vars} {users}")?;
    for kind in program.groups.as_slice() {
        out.push_str(kind_word(*kind))?;
    }
    Ok(())
}

fn kind_word(kind: GroupKind) -> &'static str {
    match kind {
        GroupKind::Or => " or",
        GroupKind::Not => " not",
        GroupKind::Case => " case",
        GroupKind::Value => " value",
    }
}

// The program of the query `q` of a document whose text begins so and goes on so.
fn selected(alloc: Global, rest: &str, scenario: &str) -> Result<Program, Stop> {
    let mut text = String::from_str(alloc, START)?;
    text.push_str(rest)?;
    if text.len() > 1000 {
        return Err(Stop::Memory);
    }
    let layout = scan(alloc, text.as_bytes())?;
    let doc = sections(alloc, &layout)?;
    let whole = program(alloc, &layout, &doc)?;
    let scenario = if scenario.is_empty() {
        None
    } else {
        Some(scenario)
    };
    select(alloc, &whole, scenario, "q")
}

fn outcome(alloc: Global, rest: &str, scenario: &str) -> Result<String, AllocError> {
    match selected(alloc, rest, scenario) {
        Ok(program) => told(alloc, &program),
        Err(Stop::Refused(refusal)) => {
            let name = refusal.code.name();
            let line = refusal.line;
            let column = refusal.column;
            format!(in alloc; "{name} {line}:{column}")
        }
        Err(Stop::Memory) => String::from_str(alloc, "no memory"),
    }
}

const RULES: &str =
    "Bob is happy.\na person is happy if\n the person likes tea\n and the person likes Bob.\nscenario s is:\nAnn likes tea.\nquery q is:\n *which person* is happy\n and Bob likes the person.\n";

const CASES: [(&str, &str, &str); 22] = [
    (
        RULES,
        "s",
        "4: 20(c0) if /0\n5: 20(v0) if 21(v0c1) 21(v0c0) /1\n9: 21(c2c1) if /0\n? 20(v0) 21(c0v0) person=0 /1 2",
    ),
    (
        RULES,
        "",
        "4: 20(c0) if /0\n5: 20(v0) if 21(v0c1) 21(v0c0) /1\n? 20(v0) 21(c0v0) person=0 /1 2",
    ),
    (RULES, "q", "NoScenario 0:0"),
    ("Bob is happy.\nscenario s is:\n", "s", "NoQuery 0:0"),
    (
        "query q is:\n which person likes which thing.\n",
        "",
        "? 21(v0v1) person=0 thing=1 /2 2",
    ),
    ("Bob is equal to Ann.\n", "", "PredefinedHead 4:1"),
    ("the person is equal to Ann.\n", "", "Dangling 4:1"),
    ("Bob is equal to the person.\n", "", "PredefinedHead 4:1"),
    ("which person is happy.\n", "", "WhichHere 4:1"),
    (
        "Bob is happy if\n the person is happy.\n",
        "",
        "Dangling 5:2",
    ),
    (
        "a person is happy.\nthe person is happy.\n",
        "",
        "Dangling 5:1",
    ),
    ("a person likes a person.\n", "", "Again 4:16"),
    (
        "Bob is happy if\n Bob is equal to Bob.\nquery q is:\n Bob is happy.\n",
        "",
        "4: 20(c0) if calc 0(c0c0) /0\n? 20(c0) /0 2",
    ),
    (
        "a person is happy if\n it is not the case that\n  the person likes a thing.\nquery q is:\n which person is happy.\n",
        "",
        "4: 20(v0) if not 22(v0) /1\n6: 22(v0) if 21(v0v1) /2\n? 20(v0) person=0 /1 2 not",
    ),
    (
        "a person is happy if\n the person likes tea\n or the person likes Bob.\nquery q is:\n which person is happy\n or the person likes tea.\n",
        "",
        "4: 20(v0) if 22(v0) /1\n5: 22(v0) if 21(v0c0) /1\n6: 22(v0) if 21(v0c1) /1\n8: 23(v0) if 20(v0) /1\n9: 23(v0) if 21(v0c0) /1\n? 23(v0) person=0 /1 2 or or",
    ),
    (
        "a person is happy if\n for all cases in which\n  the person likes a thing\n it is the case that\n  the thing is happy.\nquery q is:\n Bob is happy.\n",
        "",
        "4: 20(v0) if not 22(v0) /1\n6: 22(v0) if 21(v0v1) not 20(v1) /2\n? 20(c0) /0 2 case",
    ),
    (
        "a person likes a thing if\n the thing is the number of each book such that\n  the person likes the book.\nquery q is:\n Bob is happy.\n",
        "",
        "4: 21(v0v1) if gather 21(v0v2) /3\n? 20(c0) /0 2",
    ),
    (
        "a person likes a thing if\n the thing is the number of each a such that\n  the person likes tea.\n",
        "",
        "NoReading 5:2",
    ),
    (
        "a person likes a thing if\n the thing is the number of each person such that\n  the person likes tea.\n",
        "",
        "Again 5:29",
    ),
    ("Bob runs.\n", "", "NoReading 4:1"),
    ("Bob is happy if\n.\n", "", "BadIndent 4:14"),
    (
        "Bob runs.\nthe templates are:\n*a* is happy.\n",
        "",
        "SameTemplate 6:1",
    ),
];

// Which refusal comes first, and how gathers, lines, names and groups are read: the text, the scenario, and what is made of it.
const ORDERS: [(&str, &str, &str); 19] = [
    // the shape of a sentence goes before its reading, and the reading of a sentence before the shape of the next
    (
        "Bob runs if\n Bob is happy\n or Bob is happy\n and Bob is happy.\n",
        "",
        "MixedConnectives 7:2",
    ),
    (
        "Bob runs.\nBob is happy if\n Bob is happy\n or Bob is happy\n and Bob is happy.\n",
        "",
        "NoReading 4:1",
    ),
    // a gather without a result and a name, and one whose name isn't one, whatever its result is
    (
        "Bob is happy if\n Bob is happy\n and is the sum of each such that\n  Bob is happy.\n",
        "",
        "NoReading 6:6",
    ),
    (
        "Bob is happy if\n [the old person] is the number of each a such that\n  Bob is happy.\n",
        "",
        "NoReading 5:2",
    ),
    (
        "Bob is happy if\n [the old person] is the number of each b such that\n  Bob is happy.\n",
        "",
        "Dangling 5:3",
    ),
    // conclusions that begin with the words of a gather and of a marker
    (
        "the thing is the number of each book such that Bob.\n",
        "",
        "NoReading 4:1",
    ),
    ("it is the case that Bob is happy.\n", "", "NoReading 4:1"),
    // an item on the line of a header or of another sentence stands where that line begins
    (
        "query q is: which person is happy\nand Bob likes the person.\n",
        "",
        "? 20(v0) 21(c0v0) person=0 /1 2",
    ),
    (
        " Bob is happy. Ann is happy if Bob is happy\n and Bob likes Ann.\nquery q is:\n Bob is happy.\n",
        "",
        "4: 20(c0) if /0\n4: 20(c1) if 20(c0) 21(c0c1) /0\n? 20(c0) /0 2",
    ),
    // constants are numbered in all sections, and the groups are those of the whole document
    (
        "scenario s is:\n Ann likes tea.\nscenario t is:\n Bob likes Ann.\nquery q is:\n Carl likes tea.\n",
        "t",
        "7: 21(c2c0) if /0\n? 21(c3c1) /0 2",
    ),
    (
        "scenario s is:\n Ann is happy if it is not the case that Ann likes a thing.\nquery q is:\n Bob is happy.\nquery r is:\n Bob is happy\n or Bob likes Ann.\n",
        "",
        "? 20(c1) /0 2 not or",
    ),
    // a query's variables are numbered in its literals, where those of a group alone don't stand; that group has no arguments
    (
        "query q is:\n it is not the case that a friend likes tea\n and which person likes a thing\n and the thing likes which other.\n",
        "",
        "5: 22() if 21(v0c0) /1\n? not 22() 21(v0v1) 21(v1v2) person=0 other=2 /3 2 not",
    ),
    // one that is asked for occurs outside each group
    (
        "query q is:\n it is not the case that Bob likes which thing.\n",
        "",
        "? not 21(c0v0) thing=0 /1 2",
    ),
    // the result and the value of a gather occur in the groups around it, and not in the one inside it
    (
        "a person is happy if\n it is not the case that\n  a count is the number of each book such that\n   the person likes the book\n   and the book is happy\n  and the count is greater than 3.\nquery q is:\n Bob is happy.\n",
        "",
        "4: 20(v0) if not 22(v0) /1\n6: 22(v0) if gather 23(v0v2) calc 2(v1other) /3\n7: 23(v0v1) if 21(v0v1) 20(v1) /2\n? 20(c0) /0 2 not value",
    ),
    // a disjunction that is the whole of a negation is that one group
    (
        "a person is happy if\n it is not the case that\n  the person likes tea\n  or the person likes Bob.\nquery q is:\n Bob is happy.\n",
        "",
        "4: 20(v0) if not 22(v0) /1\n6: 22(v0) if 21(v0c0) /1\n7: 22(v0) if 21(v0c1) /1\n? 20(c1) /0 2 not",
    ),
    // a `for all` in a negation is a group within that group, and goes before the disjunction that is its first block
    (
        "a person is happy if\n it is not the case that\n  for all cases in which\n   the person likes a thing\n   or the thing is happy\n  it is the case that\n   the thing likes the person.\nquery q is:\n Bob is happy.\n",
        "",
        "4: 20(v0) if not 22(v0) /1\n6: 22(v0) if not 23(v0) /1\n7: 23(v0) if 24(v0v1) not 21(v1v0) /2\n7: 24(v0v1) if 21(v0v1) /2\n8: 24(v0v1) if 20(v1) /2\n? 20(c0) /0 2 not case or",
    ),
    // and one that is a second block is a group within that group
    (
        "Bob is happy if for all cases in which\n  Ann is happy\n it is the case that\n  for all cases in which Bob likes tea\n  it is the case that Bob likes Ann.\nquery q is:\n Bob is happy.\n",
        "",
        "4: 20(c0) if not 22() /0\n5: 22() if 20(c1) not 23() /0\n7: 23() if not 24() /0\n7: 24() if 21(c0c2) not 21(c0c1) /0\n? 20(c0) /0 2 case not case",
    ),
    // a disjunction within a branch, and the disjunction of a second block
    (
        "a person is happy if\n the person likes tea\n or the person likes Bob\n  and the person likes Ann\n   or Ann is happy.\nquery q is:\n Bob is happy.\n",
        "",
        "4: 20(v0) if 22(v0) /1\n5: 22(v0) if 21(v0c0) /1\n6: 22(v0) if 21(v0c1) 23(v0) /1\n7: 23(v0) if 21(v0c2) /1\n8: 23(v0) if 20(c2) /1\n? 20(c1) /0 2 or or",
    ),
    (
        "a person is happy if\n for all cases in which the person likes a thing\n it is the case that\n  the thing is happy\n  or the thing is equal to the person.\nquery q is:\n Bob is happy.\n",
        "",
        "4: 20(v0) if not 22(v0) /1\n5: 22(v0) if 21(v0v1) not 23(v1v0) /2\n7: 23(v0v1) if 20(v0) /2\n8: 23(v0v1) if calc 0(v0v1) /2\n? 20(c0) /0 2 case not",
    ),
];

#[test]
fn programs_of_texts(rt: HostRuntime) -> Result<(), Fail> {
    for (rest, scenario, expected) in CASES {
        let found = outcome(rt.alloc(), rest, scenario)?;
        assert_eq!(rt; found.as_str(), expected, "{rest:?}");
    }
    Ok(())
}

#[test]
fn orders_of_texts(rt: HostRuntime) -> Result<(), Fail> {
    for (rest, scenario, expected) in ORDERS {
        let found = outcome(rt.alloc(), rest, scenario)?;
        assert_eq!(rt; found.as_str(), expected, "{rest:?}");
    }
    Ok(())
}

#[test]
fn pieces_of_vectors(rt: HostRuntime) -> Result<(), Fail> {
    let pieces = Pieces::from_vec(Vec::new(rt.alloc()));
    let pieces = Pieces::from_vec(pieces.into_vec());
    assert_eq!(rt; pieces.as_slice().len(), 0);
    Ok(())
}
