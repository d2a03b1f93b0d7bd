ghost use Rattle.std.specs.Prelude.{◌≡◌, ◌+◌, ◌++◌, ◌∷◌, [], IfOk, OnOk};
ghost use Rattle.std.specs.List.{AllByRecursion};
ghost use Rattle.le_terms.specs.Variables.{occurrences, replaced};
ghost use Rattle.le_terms.specs.Walks.{symbol_variables};
ghost use Rattle.le_terms.specs.Program.{form_terms};
ghost use Rattle.le_subst.specs.Symbols.{AreSymbols, IsSymbol, images, symbol_image};
ghost use Rattle.le_store.specs.Shown.{IsThere};
ghost use Rattle.le_proofs.specs.Goals.{terms_under, atom_under, form_under};
ghost use Rattle.le_goals.specs.Frames.{cell_term};
ghost use Rattle.le_goals.specs.Unifying.{HasVariables};
ghost use Rattle.le_goals.specs.Copies.{cell_symbols};

use le_store::Store;
use le_terms::{Atom, Form, Sym, Term, Terms};
use std::alloc::{AllocError, Global};

// The form of a literal as the cells show it: each variable v is the term of the cell `base` + v.
pub(crate) fn shown_form(
    alloc: Global,
    store: &Store,
    form: &Form,
    base: usize,
) -> Result<Form, AllocError>
    requires { HasVariables store.now base (form_terms form.now) }
    ensures { IfOk result (λ new. new ≡ form_under (cell_term store.now.now base) form.now) }
{
    match form {
        Form::Pos(atom) => Ok(Form::Pos(shown_atom(alloc, store, atom, base)?)),
        Form::Neg(atom) => Ok(Form::Neg(shown_atom(alloc, store, atom, base)?)),
        Form::Calc(atom) => Ok(Form::Calc(shown_atom(alloc, store, atom, base)?)),
        Form::Gather {
            fold,
            result,
            value,
            atom,
        } => Ok(Form::Gather {
            fold: *fold,
            result: shown_term(alloc, store, result, base)?,
            value: shown_term(alloc, store, value, base)?,
            atom: shown_atom(alloc, store, atom, base)?,
        }),
    }
}

// An atom as the cells show it.
pub(crate) fn shown_atom(
    alloc: Global,
    store: &Store,
    atom: &Atom,
    base: usize,
) -> Result<Atom, AllocError>
    requires { HasVariables store.now base atom.now.args }
    ensures { IfOk result (λ new. new ≡ atom_under (cell_term store.now.now base) atom.now) }
{
    let args = shown_terms(alloc, store, atom.args.as_slice(), base)?;
    Ok(Atom {
        pred: atom.pred,
        args: Terms::from_vec(args),
    })
}

// Terms as the cells show them.
fn shown_terms(
    alloc: Global,
    store: &Store,
    terms: &[Term],
    base: usize,
) -> Result<Vec<Term>, AllocError>
    requires { HasVariables store.now base terms.now }
    ensures { IfOk result (λ new. new.items ≡ terms_under (cell_term store.now.now base) terms.now) }
{
    let mut new = Vec::with_capacity(alloc, terms.len())?;
    for term in terms {
        new.push(shown_term(alloc, store, term, base)?)?;
    }
    Ok(new)
}

// A term as the cells show it.
pub(crate) fn shown_term(
    alloc: Global,
    store: &Store,
    term: &Term,
    base: usize,
) -> Result<Term, AllocError>
    requires { AllByRecursion (λ v. IsThere store.now (base + v)) (occurrences term.now) }
    ensures { IfOk result (λ new. new ≡ replaced (cell_term store.now.now base) term.now) }
{
    let syms = shown_syms(alloc, store, term.as_syms(), base)?;
    Ok(Term::from_syms(syms))
}

// The symbols of a term as the cells show it.
fn shown_syms(
    alloc: Global,
    store: &Store,
    syms: &[Sym],
    base: usize,
) -> Result<Vec<Sym>, AllocError>
    requires in_range { AreSymbols syms.now }
    requires variables { AllByRecursion (λ v. IsThere store.now (base + v)) (symbol_variables syms.now) }
    ensures items { IfOk result (λ new. new.items ≡ images (cell_symbols store.now.now base) syms.now) }
    ensures in_range { IfOk result (λ new. AreSymbols new.items) }
{
    let mut new = Vec::with_capacity(alloc, syms.len())?;
    for sym in syms {
        push_shown(alloc, store, &mut new, *sym, base)?;
    }
    Ok(new)
}

// Appends a symbol, or the symbols of the term that a variable's cell has.
fn push_shown(
    alloc: Global,
    store: &Store,
    new: &mut Vec<Sym>,
    sym: Sym,
    base: usize,
) -> Result<(), AllocError>
    requires so_far { AreSymbols new.old.items }
    requires in_range { IsSymbol sym }
    requires variables { AllByRecursion (λ v. IsThere store.now (base + v)) (symbol_variables (sym ∷ [])) }
    ensures items { OnOk result (new.new.items ≡ new.old.items ++ symbol_image (cell_symbols store.now.now base) sym) }
    ensures in_range { OnOk result (AreSymbols new.new.items) }
{
    match sym {
        Sym::Var(var) => {
            let term = store.term_at(alloc, store.cell_after(base, var))?;
            new.extend_from_slice(term.as_syms())?;
        }
        _ => new.push(sym)?,
    }
    Ok(())
}
