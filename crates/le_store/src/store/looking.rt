ghost use Rattle.std.specs.Prelude.{◌≡◌, ℕ, ◌+◌};
ghost use Rattle.le_terms.specs.Tree.{variable};
ghost use Rattle.le_store.specs.Shown.{term_of, IsThere, IsUnbound, Shows, AreRising};

use super::{Look, Store};
use crate::cells::Cell;

impl Store {
    /// The cell that stands so many cells after another one.
    pub fn cell_after(&self, base: usize, count: u32) -> usize
        requires { IsThere self.now (base + count) }
        ensures { result ≡ base + count }
    {
        let _ = &self.cells;
        base + count as usize
    }

    /// The end of the chain of bindings: a cell of the same term, which is a variable's own cell where
    /// the term is a variable.
    pub fn follow(&self, cell: usize) -> usize
        requires { IsThere self.now cell }
        ensures there { IsThere self.now result }
        ensures term { term_of self.now result ≡ term_of self.now cell }
        ensures own { (v : ℕ) → term_of self.now cell ≡ variable v → IsUnbound self.now result v }
    {
        let mut at = cell;
        'chain: loop {
            match self.cells[at] {
                Cell::Link(to) => at = to,
                Cell::Bound { to, .. } => at = to,
                _ => return at,
            }
        }
    }

    /// The first symbol of a cell's term: of a list with the cells of its head and of its tail, and of a
    /// variable with its own cell.
    pub fn look(&self, cell: usize) -> Look
        requires { IsThere self.now cell }
        ensures first { Shows self.now (term_of self.now cell) result }
        ensures order { AreRising 0 self.now.now.variables }
    {
        let mut at = cell;
        'chain: loop {
            match self.cells[at] {
                Cell::Name(n) => return Look::Name(n),
                Cell::Num(z) => return Look::Num(z),
                Cell::Day(d) => return Look::Day(d),
                Cell::Nil => return Look::Nil,
                Cell::Cons { tail, .. } => return Look::Cons(at - 1, tail),
                Cell::Link(to) => at = to,
                Cell::Var(_) => return Look::Unbound(at),
                Cell::Bound { to, .. } => at = to,
            }
        }
    }
}
