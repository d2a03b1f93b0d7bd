ghost use Rattle.std.specs.Prelude.{◌≡◌, length, IfOk, IfSome};
ghost use Rattle.le_terms.specs.Tree.{IsLeaf};

use crate::{Index, key_of, key_of_symbol};
use le_terms::{Atom, Clause, ClauseKind, Literals, Sym, Term, Terms};
use std::alloc::{AllocError, Global};
use std::test::Fail;

// A clause's head of this predicate, with this argument if there is one.
fn head(alloc: Global, pred: u32, first: Option<Sym>) -> Result<Atom, AllocError>
    requires { IfSome first IsLeaf }
{
    let mut args = Vec::new(alloc);
    if let Some(sym) = first {
        args.push(Term::leaf(alloc, sym)?)?;
    }
    Ok(Atom {
        pred,
        args: Terms::from_vec(args),
    })
}

fn fact(alloc: Global, pred: u32, first: Option<Sym>) -> Result<Clause, AllocError>
    requires { IfSome first IsLeaf }
{
    Ok(Clause {
        head: head(alloc, pred, first)?,
        body: Literals::from_vec(Vec::new(alloc)),
        vars: 8,
        line: 1,
        kind: ClauseKind::Written,
    })
}

// Six clauses of the predicates 20 and 21.
fn clauses(alloc: Global) -> Result<Vec<Clause>, AllocError>
    ensures { IfOk result (λ clauses. length clauses.items ≡ 6) }
{
    let mut clauses = Vec::new(alloc);
    clauses.push(fact(alloc, 20, Some(Sym::Name(5)))?)?;
    clauses.push(fact(alloc, 21, None)?)?;
    clauses.push(fact(alloc, 20, Some(Sym::Var(7)))?)?;
    clauses.push(fact(alloc, 20, Some(Sym::Num(-1)))?)?;
    clauses.push(fact(alloc, 20, Some(Sym::Nil))?)?;
    clauses.push(fact(alloc, 21, Some(Sym::Day(0)))?)?;
    Ok(clauses)
}

// Whether the index finds what it should.
fn finds(alloc: Global) -> Result<bool, AllocError> {
    let clauses = clauses(alloc)?;
    let index = Index::make(alloc, clauses.as_slice())?;
    let minus_one = key_of_symbol(Sym::Num(-1));
    Ok(
        index.candidate(20, key_of_symbol(Sym::Name(5)), 1) == Some(1)
            && index.candidate(20, minus_one, 1) == Some(3)
            && index.candidate(20, minus_one, 4) == Some(4)
            && index.candidate(20, key_of_symbol(Sym::Nil), 4) == Some(5)
            && index.candidate(20, key_of_symbol(Sym::Var(0)), 4) == Some(4)
            && index.candidate(20, key_of_symbol(Sym::Cons), 4).is_none()
            && index.candidate(21, key_of_symbol(Sym::Day(0)), 0) == Some(2)
            && index.candidate(22, 0, 1).is_none(),
    )
}

// Whether keys are as the rule says.
fn has_keys(alloc: Global) -> Result<bool, AllocError> {
    let none = head(alloc, 20, None)?;
    let day = head(alloc, 20, Some(Sym::Day(-2)))?;
    Ok(
        key_of(&none) == 0
            && key_of(&day) == 2_999_999_999
            && key_of_symbol(Sym::Var(4)) == 0
            && key_of_symbol(Sym::Nil) == 1
            && key_of_symbol(Sym::Cons) == 2
            && key_of_symbol(Sym::Name(1_000_000_002)) == 9
            && key_of_symbol(Sym::Num(-1)) == 3_000_000_001,
    )
}

#[test]
fn candidates_are_found_by_key(rt: HostRuntime) -> Result<(), Fail> {
    let alloc = rt.alloc();
    let holds = finds(alloc)? && has_keys(alloc)?;
    assert!(rt; holds);
    Ok(())
}
