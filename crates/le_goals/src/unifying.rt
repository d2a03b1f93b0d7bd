ghost use Rattle.std.specs.Prelude.{◌≡◌, ℕ, ◌+◌, ◌^◌, ◌<◌, ◌≤◌, [], length, IfOk, OnOk};
ghost use Rattle.le_terms.specs.Program.{HasVariablesBelow};
ghost use Rattle.le_store.specs.Shown.{IsThere};
ghost use Rattle.le_unify.specs.Unifying.{AreThere, equations_in};
ghost use Rattle.le_goals.specs.Unifying.{Extends, HasTerm, HasVariables, sides, UnifiesTerms};
ghost use Rattle.std.specs.List.{AllByRecursion};
ghost use Rattle.le_terms.specs.Variables.{occurrences};

use le_store::Store;
use le_terms::Term;
use le_unify::unify_pairs;
use std::alloc::{AllocError, Global};

// The cell of a term, whose variable v is the cell `base` + v.
pub(crate) fn build(store: &mut Store, term: &Term, base: usize) -> Result<usize, AllocError>
    requires { AllByRecursion (λ v. IsThere store.old (base + v)) (occurrences term.now) }
    ensures extends { Extends store.old store.new }
    ensures cell { IfOk result (HasTerm store.old store.new base term.now) }
{
    store.reserve(term.as_syms().len(), 0, 0)?;
    Ok(store.build(term, base))
}

// The cells of terms in pairs, the last pair first.
pub(crate) fn build_pairs(
    store: &mut Store,
    pairs: &mut Vec<(usize, usize)>,
    lefts: &[Term],
    left: usize,
    rights: &[Term],
    right: usize,
) -> Result<(), AllocError>
    requires none { pairs.old.items ≡ [] }
    requires lefts { HasVariables store.old left lefts.now }
    requires rights { HasVariables store.old right rights.now }
    ensures extends { Extends store.old store.new }
    ensures there { OnOk result (AreThere store.new pairs.new.items) }
    ensures equations { OnOk result (equations_in store.new.now pairs.new.items [] ≡ sides store.old left lefts.now right rights.now) }
{
    let mut at = lefts.len().min(rights.len());
    'pairs: while at > 0 {
        at -= 1;
        let first = build(store, &lefts[at], left)?;
        let second = build(store, &rights[at], right)?;
        pairs.push((first, second))?;
    }
    Ok(())
}

// The first of so many new variables, under which terms of them were unified with other terms; none where there is no
// unifier. After that some variables may be bound.
pub(crate) fn unify_fresh(
    alloc: Global,
    store: &mut Store,
    vars: usize,
    lefts: &[Term],
    base: usize,
    rights: &[Term],
) -> Result<Option<usize>, AllocError>
    requires few { length store.old.now.variables + vars < 2 ^ 32 }
    requires lefts { HasVariablesBelow vars lefts.now }
    requires rights { HasVariables store.old base rights.now }
    ensures unified { IfOk result (UnifiesTerms store.old store.new vars lefts.now base rights.now) }
    ensures marks { store.new.marks ≡ store.old.marks }
    ensures more { length store.old.now.terms ≤ length store.new.now.terms }
{
    store.reserve(vars, 0, 0)?;
    let fresh = store.fresh(vars);
    let mut pairs = Vec::new(alloc);
    build_pairs(store, &mut pairs, lefts, fresh, rights, base)?;
    if unify_pairs(alloc, store, &mut pairs)? {
        Ok(Some(fresh))
    } else {
        Ok(None)
    }
}
