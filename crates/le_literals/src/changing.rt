ghost use Rattle.std.specs.Prelude.{◌≡◌, ◌++◌, ◌∷◌, [], length, map, IfOk, OnOk};
ghost use Rattle.le_terms.specs.Tree.{flat};
ghost use Rattle.le_terms.specs.Variables.{occurrences, all_occurrences, replaced};
ghost use Rattle.le_terms.specs.Walks.{symbol_variables};
ghost use Rattle.le_terms.specs.Program.{form_terms, literals_terms};
ghost use Rattle.le_proofs.specs.Goals.{terms_under, atom_under, form_under, literal_under, literals_under, raised};
ghost use Rattle.le_literals.specs.Changing.{by_of, Allows, CanRaise, raised_symbol};

use le_subst::Subst;
use le_terms::{Atom, Form, Literal, Sym, Term, Terms};
use std::alloc::{AllocError, Global};

/// What becomes of the variables of terms.
#[derive(Drop)]
pub enum Change<'a> {
    /// Their numbers are raised by this one.
    Raise(u32),
    /// They are replaced by the map's terms.
    Apply(&'a Subst),
}

/// Appends literals, changed so. A raised number has 32 bits.
pub fn push_changed(
    alloc: Global,
    changed: &mut Vec<Literal>,
    change: &Change<'_>,
    literals: &[Literal],
) -> Result<(), AllocError>
    requires { Allows change.now (all_occurrences (literals_terms literals.now)) }
    ensures { OnOk result (changed.new.items ≡ changed.old.items ++ literals_under (by_of change.now) literals.now) }
{
    for literal in literals {
        changed.push(changed_literal(alloc, change, literal)?)?;
    }
    Ok(())
}

// The literal, changed so.
fn changed_literal(
    alloc: Global,
    change: &Change<'_>,
    literal: &Literal,
) -> Result<Literal, AllocError>
    requires { Allows change.now (all_occurrences (form_terms literal.now.form)) }
    ensures { IfOk result (λ new. new ≡ literal_under (by_of change.now) literal.now) }
{
    Ok(Literal {
        line: literal.line,
        form: changed_form(alloc, change, &literal.form)?,
    })
}

// The form, changed so.
fn changed_form(alloc: Global, change: &Change<'_>, form: &Form) -> Result<Form, AllocError>
    requires { Allows change.now (all_occurrences (form_terms form.now)) }
    ensures { IfOk result (λ new. new ≡ form_under (by_of change.now) form.now) }
{
    match form {
        Form::Pos(atom) => Ok(Form::Pos(changed_atom(alloc, change, atom)?)),
        Form::Neg(atom) => Ok(Form::Neg(changed_atom(alloc, change, atom)?)),
        Form::Calc(atom) => Ok(Form::Calc(changed_atom(alloc, change, atom)?)),
        Form::Gather {
            fold,
            result,
            value,
            atom,
        } => Ok(Form::Gather {
            fold: *fold,
            result: changed_term(alloc, change, result)?,
            value: changed_term(alloc, change, value)?,
            atom: changed_atom(alloc, change, atom)?,
        }),
    }
}

// The atom, changed so.
fn changed_atom(alloc: Global, change: &Change<'_>, atom: &Atom) -> Result<Atom, AllocError>
    requires { Allows change.now (all_occurrences atom.now.args) }
    ensures { IfOk result (λ new. new ≡ atom_under (by_of change.now) atom.now) }
{
    let args = changed_terms(alloc, change, atom.args.as_slice())?;
    Ok(Atom {
        pred: atom.pred,
        args: Terms::from_vec(args),
    })
}

/// The terms, changed so.
pub fn changed_terms(
    alloc: Global,
    change: &Change<'_>,
    terms: &[Term],
) -> Result<Vec<Term>, AllocError>
    requires { Allows change.now (all_occurrences terms.now) }
    ensures { IfOk result (λ new. new.items ≡ terms_under (by_of change.now) terms.now) }
{
    let mut new = Vec::with_capacity(alloc, terms.len())?;
    for term in terms {
        new.push(changed_term(alloc, change, term)?)?;
    }
    Ok(new)
}

// The term, changed so.
fn changed_term(alloc: Global, change: &Change<'_>, term: &Term) -> Result<Term, AllocError>
    requires { Allows change.now (occurrences term.now) }
    ensures { IfOk result (λ new. new ≡ replaced (by_of change.now) term.now) }
{
    match change {
        Change::Raise(next) => raised_term(alloc, *next, term),
        Change::Apply(subst) => subst.apply(alloc, term),
    }
}

/// The term with the numbers of its variables raised.
pub fn raised_term(alloc: Global, next: u32, term: &Term) -> Result<Term, AllocError>
    requires { CanRaise next (occurrences term.now) }
    ensures { IfOk result (λ new. new ≡ replaced (raised next) term.now) }
{
    let syms = raised_syms(alloc, next, term.as_syms())?;
    Ok(Term::from_syms(syms))
}

// The symbols with the numbers of variables raised.
fn raised_syms(alloc: Global, next: u32, syms: &[Sym]) -> Result<Vec<Sym>, AllocError>
    requires { CanRaise next (symbol_variables syms.now) }
    ensures { IfOk result (λ new. new.items ≡ map (raised_symbol next) syms.now) }
{
    let mut new = Vec::with_capacity(alloc, syms.len())?;
    for sym in syms {
        new.push(raised_sym(next, *sym))?;
    }
    Ok(new)
}

// The symbol with a variable's number raised.
fn raised_sym(next: u32, sym: Sym) -> Sym
    requires { CanRaise next (symbol_variables (sym ∷ [])) }
    ensures { result ≡ raised_symbol next sym }
{
    match sym {
        Sym::Var(var) => Sym::Var(next + var),
        other => other,
    }
}
