ghost use Rattle.std.specs.Prelude.{◌≡◌, ◌^◌, ◌<◌, ◌↔◌, ◌++◌, [], length, map, IsTrue, IfOk, OnOk};
ghost use Rattle.le_terms.specs.Tree.{variable};
ghost use Rattle.le_terms.specs.Variables.{variables, all_variables, all_occurrences, IsGround, replaced, place_in, canonical_of};
ghost use Rattle.le_terms.specs.Walks.{symbol_variables, all_noted, renumbered};

use crate::{Sym, Term};
use indexmap::IndexSet;
use std::alloc::{AllocError, Global};

/// The variables of a term, each once, in order of first occurrence.
pub fn vars_of(alloc: Global, term: &Term) -> Result<Vec<u32>, AllocError>
    ensures { IfOk result (λ vars. vars.items ≡ variables term.now) }
{
    let mut seen = IndexSet::new(alloc);
    note_variables(&mut seen, term.as_syms())?;
    Vec::from_slice(alloc, seen.as_slice())
}

/// Whether a term has no variable.
pub fn is_ground(term: &Term) -> bool
    ensures { IsTrue result ↔ IsGround term.now }
{
    has_no_variable(term.as_syms())
}

/// The terms with their variables renumbered from 1, in order of first occurrence over all of them.
/// They have fewer than 2^32 different variables.
pub fn canonical(alloc: Global, terms: &[Term]) -> Result<Vec<Term>, AllocError>
    requires { length (all_variables terms.now) < 2 ^ 32 }
    ensures { IfOk result (λ renumbered. renumbered.items ≡ canonical_of terms.now) }
{
    let vars = noted_variables(alloc, terms)?;
    renumber_terms(alloc, &vars, terms)
}

// The variables of the terms, in order of first occurrence.
fn noted_variables(alloc: Global, terms: &[Term]) -> Result<IndexSet<u32>, AllocError>
    ensures { IfOk result (λ seen. seen.keys ≡ all_variables terms.now) }
{
    let mut seen = IndexSet::new(alloc);
    for term in terms {
        note_variables(&mut seen, term.as_syms())?;
    }
    Ok(seen)
}

// Notes the variables among the symbols that weren't seen before.
fn note_variables(seen: &mut IndexSet<u32>, syms: &[Sym]) -> Result<(), AllocError>
    ensures { OnOk result (seen.new.keys ≡ all_noted seen.old.keys (symbol_variables syms.now)) }
{
    for sym in syms {
        if let Sym::Var(var) = *sym {
            seen.insert(var)?;
        }
    }
    Ok(())
}

// Whether no symbol is a variable.
fn has_no_variable(syms: &[Sym]) -> bool
    ensures { IsTrue result ↔ (symbol_variables syms.now ≡ []) }
{
    for sym in syms {
        if let Sym::Var(_) = *sym {
            return false;
        }
    }
    true
}

// The terms, renumbered so that each variable's number is its place among `vars`, from 1.
fn renumber_terms(
    alloc: Global,
    vars: &IndexSet<u32>,
    terms: &[Term],
) -> Result<Vec<Term>, AllocError>
    requires { length vars.now.keys < 2 ^ 32 }
    ensures { IfOk result (λ new. new.items ≡ map (replaced (λ v. variable (place_in vars.now.keys v))) terms.now) }
{
    let mut new = Vec::with_capacity(alloc, terms.len())?;
    for term in terms {
        new.push(renumber(alloc, vars, term)?)?;
    }
    Ok(new)
}

// The term, renumbered so.
fn renumber(alloc: Global, vars: &IndexSet<u32>, term: &Term) -> Result<Term, AllocError>
    requires { length vars.now.keys < 2 ^ 32 }
    ensures { IfOk result (λ t. t ≡ replaced (λ v. variable (place_in vars.now.keys v)) term.now) }
{
    let syms = renumber_syms(alloc, vars, term.as_syms())?;
    Ok(Term::from_syms(syms))
}

// The symbols, renumbered so.
fn renumber_syms(alloc: Global, vars: &IndexSet<u32>, syms: &[Sym]) -> Result<Vec<Sym>, AllocError>
    requires { length vars.now.keys < 2 ^ 32 }
    ensures { IfOk result (λ new. new.items ≡ map (renumbered vars.now.keys) syms.now) }
{
    let mut new = Vec::with_capacity(alloc, syms.len())?;
    for sym in syms {
        new.push(renumber_sym(vars, *sym))?;
    }
    Ok(new)
}

// The symbol, renumbered so.
fn renumber_sym(vars: &IndexSet<u32>, sym: Sym) -> Sym
    requires { length vars.now.keys < 2 ^ 32 }
    ensures { result ≡ renumbered vars.now.keys sym }
{
    match sym {
        Sym::Var(var) => Sym::Var(match vars.get_index_of(&var) {
            Some(place) => place as u32 + 1,
            None => 0,
        }),
        other => other,
    }
}
