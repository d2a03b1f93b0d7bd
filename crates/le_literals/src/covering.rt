ghost use Rattle.std.specs.Prelude.{◌≡◌, ◌==◌};
ghost use Rattle.std.specs.List.{list_all, list_any};
ghost use Rattle.le_terms.specs.Walks.{symbol_variables};
ghost use Rattle.le_terms.specs.Tree.{flat};
ghost use Rattle.le_terms.specs.Variables.{occurrences};
ghost use Rattle.le_proofs.specs.Search.{is_covered};

use le_terms::{Atom, Sym, Term};

/// Whether each variable of an atom is one of a term's.
pub fn is_covered(value: &Term, atom: &Atom) -> bool
    ensures { result ≡ is_covered value.now atom.now }
{
    for term in atom.args.as_slice() {
        if !covers(value.as_syms(), term.as_syms()) {
            return false;
        }
    }
    true
}

// Whether each variable of some symbols is among others.
fn covers(among: &[Sym], syms: &[Sym]) -> bool
    ensures { result ≡ list_all (λ v. list_any (λ w. v == w) (symbol_variables among.now)) (symbol_variables syms.now) }
{
    for sym in syms {
        if let Sym::Var(var) = sym {
            if !has_variable(among, *var) {
                return false;
            }
        }
    }
    true
}

// Whether a variable is among some symbols.
fn has_variable(among: &[Sym], var: u32) -> bool
    ensures { result ≡ list_any (λ w. var == w) (symbol_variables among.now) }
{
    for sym in among {
        if let Sym::Var(other) = sym {
            if var == *other {
                return true;
            }
        }
    }
    false
}
