ghost use Rattle.std.specs.Prelude.{◌≡◌, ◌++◌, ℕ, [], Some, IfOk, OnOk};
ghost use Rattle.le_subst.specs.Unifiers.{apply, value_at, images_by, overridden};
ghost use Rattle.le_subst.specs.Symbols.{AreSymbols, IsSymbol, images, symbol_image, map_image};
ghost use Rattle.le_subst.specs.Steps.{bound_after};

use indexmap::IndexMap;
use le_terms::{Sym, Term};
use std::alloc::{AllocError, Global};
use std::marker::Model;

/// A substitution: a finite map from the numbers of variables to terms, which contracts see as the list
/// of its pairs.
#[derive(Drop)]
pub struct Subst {
    map: IndexMap<u32, Term>,
}

impl Model for Subst {
    ghost use Rattle.std.specs.Coded.{coded_list, coded×, coded_ℕ};
    ghost use Rattle.le_terms.specs.Tree.{tree_code};
    ghost use Rattle.le_subst.specs.Unifiers.{Bindings};

    ghost Value = { Bindings };

    ghost coded = { coded_list (coded× coded_ℕ tree_code) };

    ghost view = { λ s. s.map.entries };
}

impl Subst {
    /// The substitution that replaces nothing.
    pub fn empty(alloc: Global) -> Self
        ensures { result ≡ [] }
    {
        Subst {
            map: IndexMap::new(alloc),
        }
    }

    /// Makes it the composition with another substitution that goes before it: afterwards a variable has
    /// what this one made of the term that the other one has for it. It takes time in proportion to the
    /// other one. Where memory runs out it may be a part of that.
    pub fn put_after(&mut self, alloc: Global, first: &Subst) -> Result<(), AllocError>
        ensures { OnOk result ((v : ℕ) → value_at self.new v ≡ apply self.old (value_at first.now v)) }
    {
        let images = images_by(alloc, &self.map, &first.map)?;
        override_by(&mut self.map, images)?;
        Ok(())
    }

    /// The term with each variable of the map replaced by its term, all at once. The error is want of
    /// memory.
    pub fn apply(&self, alloc: Global, term: &Term) -> Result<Term, AllocError>
        ensures { IfOk result (λ new. new ≡ apply self.now term.now) }
    {
        applied(alloc, &self.map, term)
    }

    /// The pairs of the map, in their order.
    pub fn into_pairs(self, alloc: Global) -> Result<Vec<(u32, Term)>, AllocError>
        ensures { IfOk result (λ pairs. pairs.items ≡ self) }
    {
        pairs_of(alloc, self.map)
    }
}

// The pairs of a map, in their order.
fn pairs_of(alloc: Global, map: IndexMap<u32, Term>) -> Result<Vec<(u32, Term)>, AllocError>
    ensures { IfOk result (λ pairs. pairs.items ≡ map.entries) }
{
    let mut left = map;
    let mut pairs = Vec::new(alloc);
    while let Some(pair) = left.pop() {
        pairs.push(pair)?;
    }
    pairs.reverse();
    Ok(pairs)
}

// The substitution that some bindings make, the first of which was made first: each variable's term is
// under the bindings after it.
pub(crate) fn closed(alloc: Global, mut bindings: Vec<(u32, Term)>) -> Result<Subst, AllocError>
    ensures { IfOk result (λ subst. Some subst ≡ bound_after bindings.items (Some [])) }
{
    let mut map = IndexMap::new(alloc);
    while let Some((var, term)) = bindings.pop() {
        let image = applied(alloc, &map, &term)?;
        map.insert(var, image)?;
    }
    Ok(Subst { map })
}

// The pairs of a map with their terms under another one.
fn images_by(
    alloc: Global,
    map: &IndexMap<u32, Term>,
    first: &IndexMap<u32, Term>,
) -> Result<Vec<(u32, Term)>, AllocError>
    ensures { IfOk result (λ images. images.items ≡ images_by map.now.entries first.now.entries) }
{
    let mut images = Vec::new(alloc);
    for (var, term) in first.iter() {
        images.push((*var, applied(alloc, map, term)?))?;
    }
    Ok(images)
}

// Puts pairs into a map, the first of which counts where a variable has several.
fn override_by(
    map: &mut IndexMap<u32, Term>,
    mut images: Vec<(u32, Term)>,
) -> Result<(), AllocError>
    ensures { OnOk result ((v : ℕ) → value_at map.new.entries v ≡ overridden map.old.entries images.items v) }
{
    while let Some((var, image)) = images.pop() {
        map.insert(var, image)?;
    }
    Ok(())
}

// The term with each variable of the map replaced by its term.
fn applied(alloc: Global, map: &IndexMap<u32, Term>, term: &Term) -> Result<Term, AllocError>
    ensures { IfOk result (λ new. new ≡ apply map.now.entries term.now) }
{
    let syms = applied_syms(alloc, map, term.as_syms())?;
    Ok(Term::from_syms(syms))
}

// The symbols, replaced so.
fn applied_syms(
    alloc: Global,
    map: &IndexMap<u32, Term>,
    syms: &[Sym],
) -> Result<Vec<Sym>, AllocError>
    requires { AreSymbols syms.now }
    ensures items { IfOk result (λ new. new.items ≡ images (map_image map.now.entries) syms.now) }
    ensures symbols { IfOk result (λ new. AreSymbols new.items) }
{
    let mut new = Vec::with_capacity(alloc, syms.len())?;
    for sym in syms {
        put(&mut new, map, *sym)?;
    }
    Ok(new)
}

// Appends a symbol, replaced so.
fn put(new: &mut Vec<Sym>, map: &IndexMap<u32, Term>, sym: Sym) -> Result<(), AllocError>
    requires new { AreSymbols new.old.items }
    requires sym { IsSymbol sym }
    ensures items { OnOk result (new.new.items ≡ new.old.items ++ symbol_image (map_image map.now.entries) sym) }
    ensures symbols { OnOk result (AreSymbols new.new.items) }
{
    match sym {
        Sym::Var(var) => match map.get(&var) {
            Some(term) => new.extend_from_slice(term.as_syms())?,
            None => new.push(sym)?,
        },
        _ => new.push(sym)?,
    }
    Ok(())
}
