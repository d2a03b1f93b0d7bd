ghost use Rattle.std.specs.Prelude.{◌≡◌, ◌≢◌, ◌<◌, ◌≤◌, ◌++◌, length, take, slice_get, IfOk, OnOk};
ghost use Rattle.le_terms.specs.Tree.{Tree, flat};
ghost use Rattle.le_subst.specs.Solution.{occurs};
ghost use Rattle.le_subst.specs.Symbols.{AreSymbols, images, symbol_image, one_image};

use le_terms::Sym;
use std::alloc::{AllocError, Global};

// How many symbols two lists begin with in common.
pub(crate) fn same_len(left: &[Sym], right: &[Sym]) -> usize
    ensures front { take result left.now ≡ take result right.now }
    ensures left { result ≤ length left.now }
    ensures right { result ≤ length right.now }
    ensures differ { result < length left.now → result < length right.now → slice_get left.now result ≢ slice_get right.now result }
{
    let shorter = left.len().min(right.len());
    for at in 0..shorter {
        if left[at] != right[at] {
            return at;
        }
    }
    shorter
}

// Whether a variable is among the symbols of a term.
pub(crate) fn is_among(var: u32, term: &[Sym]) -> bool
    ensures { (tree : Tree) → term.now ≡ flat tree → result ≡ occurs var tree }
{
    term.contains(&Sym::Var(var))
}

// The symbols with each place of a variable replaced by the symbols of a term.
pub(crate) fn replace(
    alloc: Global,
    syms: &[Sym],
    var: u32,
    term: &[Sym],
) -> Result<Vec<Sym>, AllocError>
    ensures { IfOk result (λ new. new.items ≡ images (one_image var term.now) syms.now) }
{
    let mut new = Vec::with_capacity(alloc, syms.len())?;
    for sym in syms {
        put(&mut new, *sym, var, term)?;
    }
    Ok(new)
}

// Appends a symbol, replaced so.
fn put(new: &mut Vec<Sym>, sym: Sym, var: u32, term: &[Sym]) -> Result<(), AllocError>
    ensures { OnOk result (new.new.items ≡ new.old.items ++ symbol_image (one_image var term.now) sym) }
{
    match sym {
        Sym::Var(other) => {
            if other == var {
                new.extend_from_slice(term)?;
            } else {
                new.push(sym)?;
            }
        }
        _ => new.push(sym)?,
    }
    Ok(())
}
