ghost use Rattle.std.specs.Prelude.{vec_capacity, ◌≡◌, ◌+◌, ◌-◌, ◌<◌, ◌≤◌, length, map};
ghost use Rattle.std.specs.List.{AllByRecursion};
ghost use Rattle.le_terms.specs.Tree.{trees_of};
ghost use Rattle.le_terms.specs.Variables.{replaced, occurrences};
ghost use Rattle.le_subst.specs.Solution.{size};
ghost use Rattle.le_store.specs.Shown.{term_of, IsThere, Uses, Builds};
ghost use Rattle.le_store.specs.Building.{end_at, Holds, Grown, FitsCells, IsWhole, by_cells, cell_of, IsReady};

use super::Store;
use crate::cells::Cell;
use le_terms::{Sym, Term};

impl Store {
    /// Builds a term, whose variable v is the cell `base` + v: the cell of the term. There is room for as
    /// many cells as the term has symbols, and the cells of its variables are there.
    pub fn build(&mut self, term: &Term, base: usize) -> usize
        requires room { size term.now ≤ self.old.room.cells }
        requires variables { AllByRecursion (λ v. IsThere self.old (base + v)) (occurrences term.now) }
        ensures term { Builds self.old self.new (replaced (λ v. term_of self.old (base + v)) term.now) (size term.now) result }
        ensures marks { self.new.marks ≡ self.old.marks }
        ensures room { Uses self.old.room self.new.room (size term.now) 0 0 }
    {
        push_symbols(&mut self.cells, term.as_syms(), base);
        self.cells.len() - 1
    }
}

// The cells of a term's symbols, from the last symbol to the first.
fn push_symbols(cells: &mut Vec<Cell>, syms: &[Sym], base: usize)
    requires room { length syms.now ≤ vec_capacity cells.old - length cells.old.items }
    requires whole { IsWhole syms.now }
    requires fits { AllByRecursion (FitsCells base (length cells.old.items)) syms.now }
    ensures grown { Grown cells.old.items cells.new.items (length syms.now) }
    ensures trees { Holds cells.new.items (length cells.old.items) (length cells.new.items) (map (replaced (by_cells cells.old.items base)) (trees_of syms.now)) }
    ensures room { vec_capacity cells.old ≤ vec_capacity cells.new }
{
    let mut at = syms.len();
    'symbols: while at > 0 {
        at -= 1;
        let cell = cell_for(cells.as_slice(), syms[at], base);
        cells.push(cell).unwrap();
    }
}

// The cell of a symbol, after the cells of the symbols that follow it.
fn cell_for(cells: &[Cell], sym: Sym, base: usize) -> Cell
    requires { IsReady cells.now base sym }
    ensures { result ≡ cell_of cells.now base sym }
{
    match sym {
        Sym::Name(n) => Cell::Name(n),
        Sym::Num(z) => Cell::Num(z),
        Sym::Day(d) => Cell::Day(d),
        Sym::Nil => Cell::Nil,
        Sym::Var(v) => Cell::Link(base + v as usize),
        Sym::Cons => {
            let tail = end_of(cells, cells.len() - 1) - 1;
            Cell::Cons {
                tail,
                end: end_of(cells, tail),
            }
        }
    }
}

// The lowest cell of the cells of a term, whose own cell this is.
fn end_of(cells: &[Cell], at: usize) -> usize
    requires { at < length cells.now }
    ensures { result ≡ end_at cells.now at }
{
    match cells[at] {
        Cell::Cons { end, .. } => end,
        _ => at,
    }
}
