ghost use Rattle.std.specs.Prelude.{◌≡◌, ◌<◌, ◌+◌};

use crate::{Steps, Subst, solve, solve_counted};
use le_terms::{Sym, Term};
use std::alloc::Global;
use std::marker::Brand;
use std::sync::ledger::{Blank, Ledger};
use std::test::Fail;

// The term of some letters in preorder: `:` is a cell, `.` the empty list, a capital letter a variable,
// from `A`, which is 0, a small letter a constant, `!` a date, and another character a number.
fn term(alloc: Global, letters: &str) -> Result<Term, Fail> {
    let mut stack = Vec::new(alloc);
    for letter in letters.bytes().rev() {
        let term = match letter {
            b':' => cell(alloc, &mut stack)?,
            b'.' => Term::leaf(alloc, Sym::Nil)?,
            b'!' => Term::leaf(alloc, Sym::Day(1))?,
            b'A'..=b'Z' => Term::leaf(alloc, Sym::Var(u32::from(letter - b'A')))?,
            b'a'..=b'z' => Term::leaf(alloc, Sym::Name(u32::from(letter)))?,
            _ => Term::leaf(alloc, Sym::Num(i64::from(letter)))?,
        };
        stack.push(term)?;
    }
    top(alloc, &mut stack)
}

// The last term, taken away, or the empty list.
fn top(alloc: Global, stack: &mut Vec<Term>) -> Result<Term, Fail> {
    match stack.pop() {
        Some(term) => Ok(term),
        None => Ok(Term::leaf(alloc, Sym::Nil)?),
    }
}

// The cell of the last two terms, taken away.
fn cell(alloc: Global, stack: &mut Vec<Term>) -> Result<Term, Fail> {
    let head = top(alloc, stack)?;
    let tail = top(alloc, stack)?;
    Ok(Term::cons(alloc, &head, &tail)?)
}

// Whether the substitution makes the one term the other.
fn gives(alloc: Global, subst: &Option<Subst>, from: &str, to: &str) -> Result<bool, Fail> {
    match subst {
        Some(subst) => {
            let applied = subst.apply(alloc, &term(alloc, from)?)?;
            Ok(applied.equals(&term(alloc, to)?))
        }
        None => Ok(false),
    }
}

// Whether two counted steps, the second one on what has no unifier, answer as `solve` does.
fn counted<L: Ledger>(alloc: Global, blank: Blank) -> Result<bool, Fail>
    requires name { blank.name ≡ L.name }
    requires parts { blank.parts ≡ L.parts }
    requires some { 0 < blank.parts }
{
    let mut steps = Steps::<L>::begin(blank);
    let found = solve_counted(alloc, &[(term(alloc, "A")?, term(alloc, "7")?)], &mut steps)?;
    let none = solve_counted(alloc, &[(term(alloc, "a")?, term(alloc, "7")?)], &mut steps)?;
    Ok(none.is_none() && gives(alloc, &found, ":A:B.", ":7:B.")?)
}

// Whether a substitution after another one has what both have one after the other.
fn composed(alloc: Global) -> Result<bool, Fail> {
    let Some(first) = solve(alloc, &[(term(alloc, "A")?, term(alloc, ":B:C.")?)])? else {
        return Ok(false);
    };
    let Some(mut second) = solve(alloc, &[(term(alloc, "B")?, term(alloc, "7")?)])? else {
        return Ok(false);
    };
    second.put_after(alloc, &first)?;
    let right = gives(alloc, &Some(second), ":A:B:C.", "::7:C.:7:C.")?;
    let none = Subst::empty(alloc).into_pairs(alloc)?;
    Ok(right && first.into_pairs(alloc)?.len() == 1 && none.is_empty())
}

#[test]
fn equations_are_solved(rt: HostRuntime) -> Result<(), Fail> {
    let alloc = rt.alloc();
    for (left, right, from, to) in [
        ("a", "a", ":A:aB", ":A:aB"),
        ("A", "7", ":A:BA", ":7:B7"),
        ("!", "A", "A", "!"),
        ("B", "F", ":B:F.", ":B:B."),
        ("F", "B", ":B:F.", ":B:B."),
        (":A:B.", ":B:7.", ":A:B.", ":7:7."),
        (":A:B:A.", "::C.:7:D.", ":A:B:C:D.", "::C.:7:C::C.."),
        (":1:2A", ":1:2:3:4.", "A", ":3:4."),
        ("::A.:A.", ":B:c.", ":A:B.", ":c::c.."),
        (":A:B:C.", ":B:C:A.", ":A:B:C.", ":A:A:A."),
    ] {
        let equations = [(term(alloc, left)?, term(alloc, right)?)];
        let subst = solve(alloc, &equations)?;
        assert!(rt; gives(alloc, &subst, from, to)?, "{left} and {right}");
    }
    let none = solve(alloc, &[])?;
    assert!(rt; gives(alloc, &none, ":A:B.", ":A:B.")?);
    assert!(rt; counted::<Brand>(alloc, Blank::new(1))?);
    assert!(rt; composed(alloc)?);
    Ok(())
}

#[test]
fn equations_without_unifier_have_no_solution(rt: HostRuntime) -> Result<(), Fail> {
    let alloc = rt.alloc();
    for (left, right) in [
        ("a", "b"),
        ("a", "1"),
        ("!", "1"),
        (".", ":1."),
        ("A", ":1A"),
        (":1A", "A"),
        (":A:A.", ":1:2."),
        (":A:B.", ":B::1A."),
        (":1:2.", ":1:2:3."),
    ] {
        let equations = [(term(alloc, left)?, term(alloc, right)?)];
        let subst = solve(alloc, &equations)?;
        assert!(rt; subst.is_none(), "{left} and {right}");
    }
    let first = (term(alloc, "A")?, term(alloc, ":B.")?);
    let second = (term(alloc, "B")?, term(alloc, "A")?);
    assert!(rt; solve(alloc, &[first, second])?.is_none());
    Ok(())
}
