ghost use Rattle.std.specs.Prelude.{◌≡◌, ◌≤◌, length, vec_len, IfOk};
ghost use Rattle.le_terms.specs.Tree.{IsLeaf};

use crate::{FoldAnswer, fold};
use le_base::FoldKind;
use le_terms::{Sym, Term};
use std::alloc::{AllocError, Global};
use std::test::Fail;

const GREATEST: i64 = 1_000_000_000_000_000_000;

// A value of the table.
#[derive(Clone, Copy, Debug)]
enum Given {
    // A number.
    Small(i8),
    // 10^18.
    Most,
    // -10^18.
    Least,
    // An unbound variable.
    Open,
    // A constant.
    Bob,
}

fn sym(given: Given) -> Sym
    ensures { IsLeaf result }
{
    match given {
        Given::Small(n) => Sym::Num(i64::from(n)),
        Given::Most => Sym::Num(GREATEST),
        Given::Least => Sym::Num(-GREATEST),
        Given::Open => Sym::Var(3),
        Given::Bob => Sym::Name(7),
    }
}

fn terms(alloc: Global, given: &[Given]) -> Result<Vec<Term>, AllocError>
    ensures { IfOk result (λ terms. vec_len terms ≡ length given.now) }
{
    let mut terms = Vec::new(alloc);
    for one in given {
        terms.push(Term::leaf(alloc, sym(*one))?)?;
    }
    Ok(terms)
}

// Whether this is what is made of these values.
fn makes(
    alloc: Global,
    kind: FoldKind,
    given: &[Given],
    answer: FoldAnswer,
) -> Result<bool, AllocError>
    requires { length given.now ≤ 4 }
{
    let terms = terms(alloc, given)?;
    Ok(fold(kind, terms.as_slice()) == answer)
}

fn sums(alloc: Global) -> Result<bool, AllocError> {
    let equal = [Given::Small(2), Given::Small(2), Given::Small(3)];
    let high = [Given::Most, Given::Small(1)];
    let back = [Given::Most, Given::Small(1), Given::Small(-1)];
    let low = [Given::Least, Given::Small(-1)];
    let late = [Given::Most, Given::Most, Given::Bob, Given::Open];
    Ok(
        makes(alloc, FoldKind::Sum, &[], FoldAnswer::Value(0))?
            && makes(alloc, FoldKind::Sum, &equal, FoldAnswer::Value(7))?
            && makes(alloc, FoldKind::Sum, &high, FoldAnswer::Range)?
            && makes(alloc, FoldKind::Sum, &back, FoldAnswer::Value(GREATEST))?
            && makes(alloc, FoldKind::Sum, &low, FoldAnswer::Range)?
            && makes(alloc, FoldKind::Sum, &late, FoldAnswer::No)?,
    )
}

fn others(alloc: Global) -> Result<bool, AllocError> {
    let below = [Given::Small(-5), Given::Small(-3), Given::Least];
    let open = [Given::Small(1), Given::Open, Given::Bob];
    Ok(
        makes(alloc, FoldKind::Greatest, &[], FoldAnswer::No)?
            && makes(alloc, FoldKind::Greatest, &below, FoldAnswer::Value(-3))?
            && makes(alloc, FoldKind::Greatest, &open, FoldAnswer::Unbound)?
            && makes(alloc, FoldKind::Number, &[], FoldAnswer::Value(0))?
            && makes(alloc, FoldKind::Number, &open, FoldAnswer::Value(3))?,
    )
}

#[test]
fn values_are_folded(rt: HostRuntime) -> Result<(), Fail> {
    let alloc = rt.alloc();
    let holds = sums(alloc)? && others(alloc)?;
    assert!(rt; holds);
    Ok(())
}
