ghost use Rattle.std.specs.Prelude.{◌≡◌, IfOk};
ghost use Rattle.le_terms.specs.Tree.{cell};

use crate::{
    Asked, AskedList, Atom, Clause, ClauseKind, Clauses, Form, GroupKind, Groups, Literal,
    Literals, Names, Sym, Term, Terms, canonical, first_term_len, is_ground, vars_of,
};
use le_base::{Copied, Text};
use std::alloc::{AllocError, Global};
use std::process::Abort;
use std::test::Fail;

// The list of two terms with a third as its tail.
fn list(alloc: Global, first: &Term, second: &Term, tail: &Term) -> Result<Term, AllocError>
    ensures { IfOk result (λ term. term ≡ cell first.now (cell second.now tail.now)) }
{
    let rest = Term::cons(alloc, second, tail)?;
    Term::cons(alloc, first, &rest)
}

// One row of a table of terms: the symbols and the variables.
fn assert_row(
    rt: &impl Abort,
    alloc: Global,
    term: &Term,
    syms: &[Sym],
    vars: &[u32],
) -> Result<(), Fail> {
    assert_eq!(rt; term.as_syms(), syms);
    assert_eq!(rt; vars_of(alloc, term)?.as_slice(), vars);
    assert_eq!(rt; is_ground(term), vars.is_empty());
    assert_eq!(rt; first_term_len(syms), Some(syms.len()));
    let other = term.copy(alloc)?;
    assert!(rt; other.equals(term));
    let back = Term::from_syms(other.into_syms());
    assert!(rt; back.equals(term));
    Ok(())
}

#[test]
fn terms_have_their_symbols_and_variables(rt: HostRuntime) -> Result<(), Fail> {
    let alloc = rt.alloc();
    let name = Term::leaf(alloc, Sym::Name(4))?;
    let day = Term::leaf(alloc, Sym::Day(-719162))?;
    let nil = Term::leaf(alloc, Sym::Nil)?;
    let nine = Term::leaf(alloc, Sym::Var(9))?;
    let zero = Term::leaf(alloc, Sym::Var(0))?;
    let ground = list(alloc, &name, &day, &nil)?;
    let open = list(alloc, &nine, &zero, &nine)?;
    let symbols = [
        Sym::Cons,
        Sym::Name(4),
        Sym::Cons,
        Sym::Day(-719162),
        Sym::Nil,
    ];
    assert_row(&rt, alloc, &ground, &symbols, &[])?;
    let symbols = [Sym::Cons, Sym::Var(9), Sym::Cons, Sym::Var(0), Sym::Var(9)];
    assert_row(&rt, alloc, &open, &symbols, &[9, 0])?;
    assert!(rt; !open.equals(&ground));
    assert_eq!(rt; open.root(), Sym::Cons);
    assert_eq!(rt; first_term_len(&[Sym::Cons, Sym::Nil]), None);
    assert_eq!(rt; first_term_len(&[Sym::Nil, Sym::Cons]), Some(1));
    Ok(())
}

#[test]
fn terms_are_renumbered_together(rt: HostRuntime) -> Result<(), Fail> {
    let alloc = rt.alloc();
    let nine = Term::leaf(alloc, Sym::Var(9))?;
    let zero = Term::leaf(alloc, Sym::Var(0))?;
    let pair = Term::cons(alloc, &nine, &zero)?;
    let renumbered = canonical(alloc, &[pair, zero, nine])?;
    assert_eq!(rt; renumbered.len(), 3);
    let symbols = [Sym::Cons, Sym::Var(1), Sym::Var(2)];
    assert_eq!(rt; renumbered[0].as_syms(), symbols.as_slice());
    assert_eq!(rt; renumbered[1].root(), Sym::Var(2));
    assert_eq!(rt; renumbered[2].root(), Sym::Var(1));
    Ok(())
}

#[test]
fn names_are_numbered_in_order(rt: HostRuntime) -> Result<(), Fail> {
    let mut names = Names::new(rt.alloc());
    assert_eq!(rt; names.number_of("Ann")?, 0);
    assert_eq!(rt; names.number_of("Bob Smith")?, 1);
    assert_eq!(rt; names.number_of("Ann")?, 0);
    assert_eq!(rt; names.number_of("")?, 2);
    assert_eq!(rt; names.count(), 3);
    assert_eq!(rt; names.name(1), "Bob Smith");
    names.truncate(1);
    assert_eq!(rt; names.count(), 1);
    assert_eq!(rt; names.number_of("")?, 1);
    assert_eq!(rt; names.name(0), "Ann");
    Ok(())
}

#[test]
fn clauses_are_copied(rt: HostRuntime) -> Result<(), Fail> {
    let alloc = rt.alloc();
    let args = Terms::from_vec(vec![in alloc; Term::leaf(alloc, Sym::Var(0))?]?);
    let head = Atom { pred: 20, args };
    let literal = Literal {
        line: 3,
        form: Form::Neg(head.copy(alloc)?),
    };
    let body = Literals::from_vec(vec![in alloc; literal.copy(alloc)?, literal]?);
    let clause = Clause {
        head,
        body,
        vars: 1,
        line: 2,
        kind: ClauseKind::Written,
    };
    let clauses = Clauses::from_vec(vec![in alloc; clause.copy(alloc)?]?);
    assert_eq!(rt; clauses.as_slice().len(), 1);
    let copy = &clauses.as_slice()[0];
    assert_eq!(rt; copy.head.pred, 20);
    assert!(rt; copy.head.equals(&clause.head));
    assert_eq!(rt; copy.head.args.as_slice().len(), 1);
    assert_eq!(rt; copy.body.as_slice().len(), 2);
    assert!(rt; matches!(copy.body.as_slice()[1].form, Form::Neg(_)));
    assert_eq!(rt; clauses.into_vec().len(), 1);
    Ok(())
}

#[test]
fn lists_are_copied(rt: HostRuntime) -> Result<(), Fail> {
    let alloc = rt.alloc();
    let asked = Asked {
        name: Text::of(alloc, "person")?,
        var: 0,
    };
    let asked = AskedList::from_vec(vec![in alloc; asked]?).copy(alloc)?;
    assert_eq!(rt; asked.as_slice().len(), 1);
    assert_eq!(rt; asked.as_slice()[0].name.as_str(), "person");
    assert_eq!(rt; asked.into_vec().len(), 1);
    let groups = Groups::from_vec(vec![in alloc; GroupKind::Or, GroupKind::Value]?).copy(alloc)?;
    assert_eq!(rt;
        groups.as_slice(),
        [GroupKind::Or, GroupKind::Value].as_slice()
    );
    assert_eq!(rt; groups.into_vec().len(), 2);
    Ok(())
}
