ghost use Rattle.std.specs.Prelude.{◌≡◌, ℕ, ◌<◌, ◌≤◌, get_or, length, IfOk};
ghost use Rattle.std.specs.List.{AllByRecursion};
ghost use Rattle.le_terms.specs.Variables.{occurrences};
ghost use Rattle.le_terms.specs.Program.{HasVariablesBelow, HasArity, IsLiteral, IsProgramClause, IsProgram, form_terms, literals_terms, predefined_arities};

use le_base::{FoldKind, Text};
use le_terms::{
    Asked, AskedList, Atom, Clause, ClauseKind, Clauses, Form, Groups, Literal, Literals, Program,
    Sym, Term, Terms,
};
use std::alloc::Global;
use std::test::Fail;

// The term of a letter: `A` to `D` are variables, `L` and `M` the lists of `A` and of `B`, a digit that
// number, `Z` the greatest number that there is, and another letter a constant.
fn term(alloc: Global, letter: u8) -> Result<Term, Fail>
    ensures { IfOk result (λ t. AllByRecursion (λ v. v < 4) (occurrences t)) }
{
    match letter {
        b'A'..=b'D' => Ok(Term::leaf(alloc, Sym::Var(u32::from(letter - b'A')))?),
        b'L' => list(alloc, 0),
        b'M' => list(alloc, 1),
        b'0'..=b'9' => Ok(Term::leaf(alloc, Sym::Num(i64::from(letter - b'0')))?),
        b'Z' => Ok(Term::leaf(alloc, Sym::Num(1_000_000_000_000_000_000))?),
        _ => Ok(Term::leaf(alloc, Sym::Name(u32::from(letter)))?),
    }
}

// The list of a variable.
fn list(alloc: Global, var: u32) -> Result<Term, Fail>
    requires { var < 4 }
    ensures { IfOk result (λ t. AllByRecursion (λ v. v < 4) (occurrences t)) }
{
    let head = Term::leaf(alloc, Sym::Var(var))?;
    let tail = Term::leaf(alloc, Sym::Nil)?;
    Ok(Term::cons(alloc, &head, &tail)?)
}

// The atom of a predicate with two arguments.
fn pair(alloc: Global, pred: u32, first: u8, second: u8) -> Result<Atom, Fail>
    ensures pred { IfOk result (λ atom. atom.pred ≡ pred) }
    ensures two { IfOk result (λ atom. length atom.args ≡ 2) }
    ensures variables { IfOk result (λ atom. HasVariablesBelow 4 atom.args) }
{
    let mut args = Vec::new(alloc);
    args.push(term(alloc, first)?)?;
    args.push(term(alloc, second)?)?;
    Ok(Atom {
        pred,
        args: Terms::from_vec(args),
    })
}

// The atom of a predicate, `p` to `w`, and its two arguments.
fn atom(alloc: Global, pred: u8, first: u8, second: u8) -> Result<Atom, Fail>
    ensures pred { IfOk result (λ atom. 20 ≤ atom.pred) }
    ensures arity { IfOk result (HasArity (λ pred. get_or predefined_arities pred 2) 28) }
    ensures variables { IfOk result (λ atom. HasVariablesBelow 4 atom.args) }
{
    pair(alloc, 20 + u32::from(pred % 8), first, second)
}

// The atom of a computed predicate with two arguments: `=` for equal to, and `<` for less than.
fn comparison(alloc: Global, kind: u8, first: u8, second: u8) -> Result<Atom, Fail>
    ensures pred { IfOk result (λ atom. atom.pred < 18) }
    ensures arity { IfOk result (HasArity (λ pred. get_or predefined_arities pred 2) 28) }
    ensures variables { IfOk result (λ atom. HasVariablesBelow 4 atom.args) }
{
    if kind == b'=' {
        pair(alloc, 0, first, second)
    } else {
        pair(alloc, 3, first, second)
    }
}

// The atom that says that the first term is the sum of the two others.
fn sum(alloc: Global, first: u8, second: u8, third: u8) -> Result<Atom, Fail>
    ensures pred { IfOk result (λ atom. atom.pred < 18) }
    ensures arity { IfOk result (HasArity (λ pred. get_or predefined_arities pred 2) 28) }
    ensures variables { IfOk result (λ atom. HasVariablesBelow 4 atom.args) }
{
    let mut args = Vec::new(alloc);
    args.push(term(alloc, first)?)?;
    args.push(term(alloc, second)?)?;
    args.push(term(alloc, third)?)?;
    Ok(Atom {
        pred: 10,
        args: Terms::from_vec(args),
    })
}

// What a gather makes of its values.
fn fold_of(kind: u8) -> FoldKind {
    match kind {
        b'S' => FoldKind::Sum,
        b'N' => FoldKind::Number,
        _ => FoldKind::Greatest,
    }
}

// How many letters a literal has that begins with this one.
fn size_of(kind: u8) -> usize
    ensures least { 3 ≤ result }
    ensures most { result ≤ 6 }
{
    match kind {
        b'-' | b'+' => 4,
        b'S' | b'N' | b'G' => 6,
        _ => 3,
    }
}

// The letter at a place, and a `.` where there is none.
fn letter_at(letters: &[u8], place: usize) -> u8 {
    match letters.get(place) {
        Some(letter) => *letter,
        None => b'.',
    }
}

// The form of some letters. An atom is a predicate and two terms; `-` and an atom is its negation; `=` and `<`
// stand before two terms, and `+` before three; and `S`, `N` and `G` (a sum, a number and a greatest value)
// stand before the result, the value and the atom of a gather.
fn form(alloc: Global, letters: &[u8]) -> Result<Form, Fail>
    ensures literal { IfOk result (λ form. (line : ℕ) → IsLiteral (λ pred. get_or predefined_arities pred 2) 28 (record { line = line; form = form })) }
    ensures variables { IfOk result (λ form. HasVariablesBelow 4 (form_terms form)) }
{
    let kind = letter_at(letters, 0);
    let first = letter_at(letters, 1);
    let second = letter_at(letters, 2);
    let third = letter_at(letters, 3);
    match kind {
        b'-' => Ok(Form::Neg(atom(alloc, first, second, third)?)),
        b'+' => Ok(Form::Calc(sum(alloc, first, second, third)?)),
        b'=' | b'<' => Ok(Form::Calc(comparison(alloc, kind, first, second)?)),
        b'S' | b'N' | b'G' => Ok(Form::Gather {
            fold: fold_of(kind),
            result: term(alloc, first)?,
            value: term(alloc, second)?,
            atom: atom(alloc, third, letter_at(letters, 4), letter_at(letters, 5))?,
        }),
        _ => Ok(Form::Pos(atom(alloc, kind, first, second)?)),
    }
}

// The literals of some letters, one after another. Their lines are numbered from this one on.
fn literals(alloc: Global, line: u32, letters: &[u8]) -> Result<Vec<Literal>, Fail>
    requires { line ≤ 1000 }
    ensures literals { IfOk result (λ literals. AllByRecursion (IsLiteral (λ pred. get_or predefined_arities pred 2) 28) literals.items) }
    ensures variables { IfOk result (λ literals. HasVariablesBelow 4 (literals_terms literals.items)) }
    ensures few { IfOk result (λ literals. length literals.items ≤ 60) }
{
    if letters.len() > 60 {
        return Err(Fail::from("too many letters"));
    }
    let mut literals = Vec::new(alloc);
    let mut line = line;
    let mut at = 0;
    while at < letters.len() {
        let size = size_of(letters[at]);
        if letters.len() - at < size {
            return Err(Fail::from("no literal"));
        }
        literals.push(Literal {
            line,
            form: form(alloc, &letters[at..at + size])?,
        })?;
        line += 1;
        at += size;
    }
    Ok(literals)
}

// The clause of some letters: its head, and then its body.
fn clause(alloc: Global, line: u32, letters: &[u8]) -> Result<Clause, Fail>
    requires { line ≤ 1000 }
    ensures clause { IfOk result (IsProgramClause (λ pred. get_or predefined_arities pred 2) 28) }
{
    if letters.len() < 3 {
        return Err(Fail::from("no clause"));
    }
    Ok(Clause {
        head: atom(alloc, letters[0], letters[1], letters[2])?,
        body: Literals::from_vec(literals(alloc, line, &letters[3..])?),
        vars: 4,
        line,
        kind: ClauseKind::Written,
    })
}

// The clauses of some letters. The lines of the first one's body are numbered from 11, of the second one's
// from 21, and so on.
fn clauses(alloc: Global, rows: &[&str]) -> Result<Vec<Clause>, Fail>
    requires { length rows.now ≤ 30 }
    ensures clauses { IfOk result (λ clauses. AllByRecursion (IsProgramClause (λ pred. get_or predefined_arities pred 2) 28) clauses.items) }
    ensures few { IfOk result (λ clauses. length clauses.items ≤ length rows.now) }
{
    let mut clauses = Vec::new(alloc);
    let mut line = 11;
    for row in rows {
        clauses.push(clause(alloc, line, row.as_bytes())?)?;
        line += 10;
    }
    Ok(clauses)
}

// The first variables, so many of them, as those that are asked for.
fn asked(alloc: Global, count: u32) -> Result<Vec<Asked>, Fail>
    requires { count ≤ 4 }
    ensures { IfOk result (λ asked. AllByRecursion (λ one. one.var < 4) asked.items) }
{
    let mut asked = Vec::new(alloc);
    for var in 0..count {
        asked.push(Asked {
            name: Text::of(alloc, "thing")?,
            var,
        })?;
    }
    Ok(asked)
}

// The program of some clauses and a query, which asks for its first variables. The lines of the query are
// numbered from 1.
pub(crate) fn program(
    alloc: Global,
    rows: &[&str],
    query: &str,
    count: u32,
) -> Result<Program, Fail>
    ensures { IfOk result IsProgram }
{
    if rows.len() > 30 || count > 4 {
        return Err(Fail::from("too many"));
    }
    Ok(Program {
        clauses: Clauses::from_vec(clauses(alloc, rows)?),
        query: Literals::from_vec(literals(alloc, 1, query.as_bytes())?),
        asked: AskedList::from_vec(asked(alloc, count)?),
        vars: 4,
        users: 8,
        groups: Groups::from_vec(Vec::new(alloc)),
        version: 1,
    })
}
