ghost use Rattle.std.specs.Prelude.{◌≡◌, ℕ, ◌+◌, ◌^◌, ◌<◌, ◌≤◌, false, [], ◌∷◌, ◌++◌, length, map};
ghost use Rattle.le_terms.specs.Tree.{variable};
ghost use Rattle.le_terms.specs.Variables.{replaced};
ghost use Rattle.le_subst.specs.Solution.{occurs, one};
ghost use Rattle.le_store.specs.Shown.{term_of, IsThere, IsUnbound, new_variables, places_from, Uses};

use super::Store;
use crate::cells::{Cell, Entry};

impl Store {
    /// New variables, so many, in cells one after another: the first of these cells, or the number of
    /// cells where there are none. There is room for them, and there are fewer than 2^32 variables
    /// afterwards. A variable's number is how many variables were there before it.
    pub fn fresh(&mut self, n: usize) -> usize
        requires room { n ≤ self.old.room.cells }
        requires few { length self.old.now.variables + n < 2 ^ 32 }
        ensures first { result ≡ length self.old.now.terms }
        ensures terms { self.new.now.terms ≡ self.old.now.terms ++ new_variables (length self.old.now.variables) n }
        ensures variables { self.new.now.variables ≡ self.old.now.variables ++ places_from (length self.old.now.terms) n }
        ensures marks { self.new.marks ≡ self.old.marks }
        ensures room { Uses self.old.room self.new.room n 0 0 }
    {
        let first = self.cells.len();
        for made in 0..n {
            self.push_variable();
        }
        first
    }

    // One new variable.
    fn push_variable(&mut self)
        requires room { 1 ≤ self.old.room.cells }
        requires few { length self.old.now.variables + 1 < 2 ^ 32 }
        ensures terms { self.new.now.terms ≡ self.old.now.terms ++ variable (length self.old.now.variables) ∷ [] }
        ensures variables { self.new.now.variables ≡ self.old.now.variables ++ length self.old.now.terms ∷ [] }
        ensures marks { self.new.marks ≡ self.old.marks }
        ensures room { Uses self.old.room self.new.room 1 0 0 }
    {
        self.cells.push(Cell::Var(self.vars)).unwrap();
        self.vars += 1;
    }

    /// Binds a variable to a cell. The variable isn't bound and doesn't occur in the cell's term, and
    /// there is room for a binding.
    pub fn bind(&mut self, var: usize, cell: usize)
        requires room { 1 ≤ self.old.room.trail }
        requires var { (v : ℕ) × IsUnbound self.old var v × (occurs v (term_of self.old cell) ≡ false) }
        requires there { IsThere self.old cell }
        ensures terms { (v : ℕ) → term_of self.old var ≡ variable v → self.new.now.terms ≡ map (replaced (one v (term_of self.old cell))) self.old.now.terms }
        ensures variables { self.new.now.variables ≡ self.old.now.variables }
        ensures marks { self.new.marks ≡ self.old.marks }
        ensures room { Uses self.old.room self.new.room 0 1 0 }
    {
        if let Cell::Var(number) = self.cells[var] {
            self.cells[var] = Cell::Bound { number, to: cell };
            let entry = Entry {
                var,
                number,
                to: cell,
            };
            self.trail.push(entry).unwrap();
        }
    }
}
