ghost use Rattle.std.specs.Prelude.{IfSome};
ghost use Rattle.le_layout.specs.Layout.{IsLayout};
ghost use Rattle.le_layout.specs.Words.{IsSomeSpan};

use crate::explain;
use le_base::FoldKind;
use le_layout::{Layout, Span, scan};
use le_proofs::{Derivation, Node, Nodes};
use le_templates::Templates;
use le_terms::{
    AskedList, Atom, Clause, ClauseKind, Clauses, Form, GroupKind, Groups, Literal, Literals,
    Names, Program, Sym, Term, Terms,
};
use std::alloc::{AllocError, Global};
use std::test::Fail;

// A derivation by a program, in numbers, and its explanation. A template is a line; a clause is its kind
// (0 for a written one, 1 for one of a group, 2 for a predefined one), its line, and the lines of its
// body; a group is 0 to 3 in the order of the kinds. A node is its kind and what it holds, a term a name
// below 100, a number from 100 on, a variable from 200 on, or 300 for a date.
struct Row {
    templates: &'static [&'static str],
    names: &'static [&'static str],
    clauses: &'static [&'static [u32]],
    query: &'static [u32],
    groups: &'static [u32],
    nodes: &'static [&'static [u32]],
    text: &'static str,
}

const USE: u32 = 0;

const COMPUTE: u32 = 1;

const ABSENT: u32 = 2;

const GATHER: u32 = 3;

const SPLIT: u32 = 4;

const BRANCH: u32 = 5;

const COMPUTED: u32 = 6;

const LACKING: u32 = 7;

const PRESENT: u32 = 8;

const GATHERED: u32 = 9;

const UNGATHERED: u32 = 10;

const SUCCESS: u32 = 11;

const DEAD: u32 = 12;

// The number at a place, or 0.
fn at(row: &[u32], place: usize) -> u32 {
    if place < row.len() { row[place] } else { 0 }
}

fn term(alloc: Global, code: u32) -> Result<Term, AllocError> {
    match code {
        0..=99 => Term::leaf(alloc, Sym::Name(code)),
        100..=199 => Term::leaf(alloc, Sym::Num(i64::from(code) - 100)),
        200..=299 => Term::leaf(alloc, Sym::Var(code - 200)),
        _ => Term::leaf(alloc, Sym::Day(18_909)),
    }
}

// The atom whose predicate stands at this place, with the terms after it.
fn atom(alloc: Global, row: &[u32], place: usize) -> Result<Atom, AllocError> {
    let mut args = Vec::new(alloc);
    for (at, code) in row.iter().enumerate() {
        if place < at {
            args.push(term(alloc, *code)?)?;
        }
    }
    Ok(Atom {
        pred: at(row, place),
        args: Terms::from_vec(args),
    })
}

fn gather(alloc: Global, row: &[u32]) -> Result<Node, AllocError> {
    Ok(Node::Gather {
        fold: match at(row, 1) {
            0 => FoldKind::Sum,
            1 => FoldKind::Number,
            _ => FoldKind::Greatest,
        },
        result: term(alloc, at(row, 2))?,
        value: term(alloc, at(row, 3))?,
        atom: atom(alloc, row, 4)?,
    })
}

fn node(alloc: Global, row: &[u32]) -> Result<Node, AllocError> {
    Ok(match at(row, 0) {
        USE => Node::Use {
            clause: at(row, 1),
            count: at(row, 2),
            atom: atom(alloc, row, 3)?,
        },
        COMPUTE => Node::Compute {
            atom: atom(alloc, row, 1)?,
        },
        ABSENT => Node::Absent {
            atom: atom(alloc, row, 1)?,
        },
        GATHER => gather(alloc, row)?,
        SPLIT => Node::Split { count: at(row, 1) },
        BRANCH => Node::Branch { clause: at(row, 1) },
        COMPUTED => Node::Computed,
        LACKING => Node::Lacking,
        PRESENT => Node::Present,
        GATHERED => Node::Gathered,
        UNGATHERED => Node::Ungathered,
        SUCCESS => Node::Success,
        _ => Node::Dead,
    })
}

fn nodes(alloc: Global, rows: &[&[u32]]) -> Result<Nodes, AllocError> {
    let mut nodes = Vec::new(alloc);
    for row in rows {
        nodes.push(node(alloc, row)?)?;
    }
    Ok(Nodes::from_vec(nodes))
}

// Literals of the lines from this place on.
fn literals(alloc: Global, row: &[u32], from: usize) -> Result<Literals, AllocError> {
    let mut literals = Vec::new(alloc);
    for (at, line) in row.iter().enumerate() {
        if from <= at {
            literals.push(Literal {
                line: *line,
                form: Form::Pos(atom(alloc, &[20], 0)?),
            })?;
        }
    }
    Ok(Literals::from_vec(literals))
}

fn clause(alloc: Global, row: &[u32]) -> Result<Clause, AllocError> {
    Ok(Clause {
        head: atom(alloc, &[20], 0)?,
        body: literals(alloc, row, 2)?,
        vars: 0,
        line: at(row, 1),
        kind: match at(row, 0) {
            0 => ClauseKind::Written,
            1 => ClauseKind::Branch,
            _ => ClauseKind::Prelude,
        },
    })
}

fn clauses(alloc: Global, rows: &[&[u32]]) -> Result<Clauses, AllocError> {
    let mut clauses = Vec::new(alloc);
    for row in rows {
        clauses.push(clause(alloc, row)?)?;
    }
    Ok(Clauses::from_vec(clauses))
}

fn groups(alloc: Global, row: &[u32]) -> Result<Groups, AllocError> {
    let mut groups = Vec::new(alloc);
    for kind in row {
        groups.push(match *kind {
            0 => GroupKind::Or,
            1 => GroupKind::Not,
            2 => GroupKind::Case,
            _ => GroupKind::Value,
        })?;
    }
    Ok(Groups::from_vec(groups))
}

fn program(alloc: Global, row: &Row) -> Result<Program, AllocError> {
    Ok(Program {
        clauses: clauses(alloc, row.clauses)?,
        query: literals(alloc, row.query, 0)?,
        asked: AskedList::from_vec(Vec::new(alloc)),
        vars: 0,
        users: 0,
        groups: groups(alloc, row.groups)?,
        version: 1,
    })
}

// The layout of a short text.
fn laid_out(alloc: Global, text: &str) -> Option<Layout>
    ensures { IfSome result IsLayout }
{
    if text.len() > 1000 {
        return None;
    }
    scan(alloc, text.as_bytes()).ok()
}

// All tokens of a text that has some.
fn whole(layout: &Layout) -> Option<Span>
    ensures { IfSome result (λ span. IsSomeSpan layout.now span) }
{
    let to = layout.tokens.as_slice().len();
    if to == 0 || to > 1000 {
        return None;
    }
    Some(Span {
        from: 0,
        to: to as u32,
    })
}

// Declares a template, which has to be one.
fn declare_in(templates: &mut Templates, layout: &Layout, span: Span) -> Result<(), AllocError>
    requires layout { IsLayout layout.now }
    requires span { IsSomeSpan layout.now span }
{
    match templates.declare(layout, span) {
        Ok(_) => Ok(()),
        Err(_) => Err(AllocError),
    }
}

fn declare(alloc: Global, templates: &mut Templates, text: &str) -> Result<(), AllocError> {
    let Some(layout) = laid_out(alloc, text) else {
        return Ok(());
    };
    match whole(&layout) {
        Some(span) => declare_in(templates, &layout, span),
        None => Ok(()),
    }
}

fn declare_all(alloc: Global, templates: &mut Templates, texts: &[&str]) -> Result<(), AllocError> {
    for text in texts {
        declare(alloc, templates, text)?;
    }
    Ok(())
}

fn enter_all(names: &mut Names, texts: &[&str]) -> Result<(), AllocError> {
    for text in texts {
        if names.count() < 1000 {
            names.number_of(text)?;
        }
    }
    Ok(())
}

// Whether the explanation of a row's derivation is the row's text.
fn is_explained(alloc: Global, row: &Row) -> Result<bool, AllocError> {
    let mut templates = Templates::new(alloc)?;
    declare_all(alloc, &mut templates, row.templates)?;
    is_explained_by(alloc, &templates, row)
}

// Whether it is with these templates.
fn is_explained_by(alloc: Global, templates: &Templates, row: &Row) -> Result<bool, AllocError> {
    let mut names = Names::new(alloc);
    enter_all(&mut names, row.names)?;
    is_explained_with(alloc, templates, &names, row)
}

// Whether it is with these names.
fn is_explained_with(
    alloc: Global,
    templates: &Templates,
    names: &Names,
    row: &Row,
) -> Result<bool, AllocError> {
    let program = program(alloc, row)?;
    is_explained_under(alloc, templates, names, &program, row)
}

// Whether it is under this program.
fn is_explained_under(
    alloc: Global,
    templates: &Templates,
    names: &Names,
    program: &Program,
    row: &Row,
) -> Result<bool, AllocError> {
    let nodes = nodes(alloc, row.nodes)?;
    let derivation = Derivation { nodes };
    let text = explain(alloc, templates, names, program, &derivation)?;
    Ok(text.as_str() == row.text)
}

// The number of the first row that isn't explained so, counted from 1, or 0.
fn first_other(alloc: Global, rows: &[Row]) -> Result<usize, AllocError> {
    for (place, row) in rows.iter().enumerate() {
        if !is_explained(alloc, row)? {
            return Ok(place + 1);
        }
    }
    Ok(0)
}

// A rule above a disjunction, one above a `for all`, one above a sum, and a fact that another template
// would read.
const RULES: [Row; 4] = [
    Row {
        templates: &[
            "*a person* is born in *a place* on *a date*",
            "*a date* is after commencement",
            "*a person* is the mother of *a person*",
            "*a person* is a British citizen on *a date*",
            "*a person* is settled in the UK on *a date*",
            "*a person* acquires British citizenship on *a date*",
        ],
        names: &["John", "the UK", "Alice"],
        clauses: &[
            &[0, 12, 13, 14, 15, 16],
            &[1, 16, 16],
            &[1, 17, 17],
            &[0, 20],
            &[0, 21],
            &[0, 22],
            &[0, 23],
        ],
        query: &[26],
        groups: &[0],
        nodes: &[
            &[USE, 1, 4, 25, 0, 300],
            &[USE, 4, 0, 20, 0, 1, 300],
            &[USE, 5, 0, 21, 300],
            &[USE, 6, 0, 22, 2, 0],
            &[USE, 2, 1, 26, 2, 300],
            &[USE, 7, 0, 23, 2, 300],
        ],
        text: "    John acquires British citizenship on 2021-10-09. % rule, line 12
        John is born in the UK on 2021-10-09. % fact, line 20
        2021-10-09 is after commencement. % fact, line 21
        Alice is the mother of John. % fact, line 22
        Alice is a British citizen on 2021-10-09. % fact, line 23
",
    },
    Row {
        templates: &[
            "*a person* is careful",
            "*a person* owns *a thing*",
            "*a thing* is insured",
        ],
        names: &["Ann", "Bob", "car one"],
        clauses: &[&[0, 6, 7], &[1, 8, 8, 10], &[0, 12], &[0, 13]],
        query: &[15],
        groups: &[2],
        nodes: &[
            &[USE, 1, 1, 20, 0],
            &[ABSENT, 23, 0],
            &[SPLIT, 1],
            &[BRANCH, 2],
            &[SPLIT, 0],
        ],
        text: "    Ann is careful. % rule, line 6
        the condition at line 7 is met in every case. % all cases
",
    },
    Row {
        templates: &[
            "*a person* pays *an amount* for *a thing*",
            "*a person* owes *an amount*",
        ],
        names: &["Bob", "the car", "the boat"],
        clauses: &[&[0, 5, 6], &[1, 7, 7], &[0, 9], &[0, 10]],
        query: &[12],
        groups: &[3],
        nodes: &[
            &[USE, 1, 1, 21, 0, 110],
            &[GATHER, 0, 110, 201, 22, 0, 201],
            &[SPLIT, 1],
            &[BRANCH, 2],
            &[SPLIT, 2],
            &[BRANCH, 3],
            &[SUCCESS],
            &[BRANCH, 4],
            &[SUCCESS],
        ],
        text: "    Bob owes 10. % rule, line 5
        10 is the sum over 2 cases at line 6. % all cases
",
    },
    Row {
        templates: &["*a person* is happy", "*a person* says *a thing*"],
        names: &["Ann", "Bob is happy"],
        clauses: &[&[0, 5]],
        query: &[7],
        groups: &[],
        nodes: &[&[USE, 1, 0, 21, 0, 1]],
        text: "    *Ann* says *Bob is happy*. % fact, line 5
",
    },
];

// Leaves below a negation and below a gather within a gather aren't cases; what stands after a tree is
// shown; a group within a group has its children at the depth of the rule's; negations of a template and of
// a group; predefined and computed sentences; variables by their numbers; and nodes that are no derivation.
const TREES: [Row; 4] = [
    Row {
        templates: &["*a person* is happy"],
        names: &["Ann"],
        clauses: &[&[0, 4], &[0, 5], &[0, 6]],
        query: &[8, 9],
        groups: &[3],
        nodes: &[
            &[GATHER, 1, 102, 201, 21, 201],
            &[SPLIT, 3],
            &[BRANCH, 1],
            &[GATHERED],
            &[SPLIT, 3],
            &[BRANCH, 1],
            &[SUCCESS],
            &[BRANCH, 2],
            &[SUCCESS],
            &[BRANCH, 3],
            &[SUCCESS],
            &[COMPUTED],
            &[SUCCESS],
            &[BRANCH, 2],
            &[LACKING],
            &[SPLIT, 1],
            &[BRANCH, 2],
            &[UNGATHERED],
            &[SPLIT, 1],
            &[BRANCH, 3],
            &[SUCCESS],
            &[SUCCESS],
            &[BRANCH, 3],
            &[PRESENT],
            &[USE, 1, 0, 20, 0],
            &[USE, 1, 0, 20, 0],
        ],
        text: "    2 is the number over 2 cases at line 8. % all cases
    Ann is happy. % fact, line 4
",
    },
    Row {
        templates: &["*a person* is happy"],
        names: &["Ann"],
        clauses: &[&[0, 4, 5, 6], &[1, 5, 5], &[1, 5, 5], &[0, 6]],
        query: &[9],
        groups: &[0, 0],
        nodes: &[
            &[USE, 1, 2, 20, 201],
            &[USE, 2, 1, 21, 0],
            &[USE, 3, 1, 22, 0],
            &[USE, 4, 0, 20, 0],
            &[USE, 4, 0, 20, 0],
        ],
        text: "    a thing 1 is happy. % rule, line 4
        Ann is happy. % fact, line 6
        Ann is happy. % fact, line 6
",
    },
    Row {
        templates: &["*a person* is happy"],
        names: &["Ann"],
        clauses: &[&[2, 0, 0], &[2, 0]],
        query: &[3, 4, 5, 6],
        groups: &[1],
        nodes: &[
            &[ABSENT, 20, 0],
            &[DEAD],
            &[ABSENT, 21],
            &[SPLIT, 0],
            &[COMPUTE, 2, 103, 102],
            &[USE, 1, 1, 18, 0, 201],
            &[USE, 2, 0, 18, 0, 201],
        ],
        text: "    it is not the case that Ann is happy. % no way
    the condition at line 4 is never met. % no way
    3 is greater than 2. % computed
    Ann is in a thing 1. % predefined
        Ann is in a thing 1. % predefined
",
    },
    Row {
        templates: &[],
        names: &[],
        clauses: &[&[0, 4]],
        query: &[3, 4, 5],
        groups: &[],
        nodes: &[
            &[SPLIT, 2],
            &[DEAD],
            &[DEAD],
            &[USE, 9, 0, 18],
            &[GATHER, 2, 100, 201, 20],
            &[SPLIT, 7],
            &[SUCCESS],
        ],
        text: "    0 is the greatest over 1 cases at line 5. % all cases
",
    },
];

#[test]
fn rules_are_explained(rt: HostRuntime) -> Result<(), Fail> {
    assert_eq!(rt; first_other(rt.alloc(), &RULES)?, 0);
    Ok(())
}

#[test]
fn trees_are_explained(rt: HostRuntime) -> Result<(), Fail> {
    assert_eq!(rt; first_other(rt.alloc(), &TREES)?, 0);
    Ok(())
}
