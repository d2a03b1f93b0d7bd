ghost use Rattle.std.specs.Prelude.{◌≡◌, ℕ, [], ◌∷◌, IfOk};
ghost use Rattle.le_terms.specs.Tree.{Tree, variable, flat, IsInRange};
ghost use Rattle.le_store.specs.Shown.{term_of, IsThere, IsUnbound, Shows, IsNoList};

use super::{Look, Store};
use crate::cells::Cell;
use le_terms::{Sym, Term};
use std::alloc::{AllocError, Global};

impl Store {
    /// The whole term of a cell.
    pub fn term_at(&self, alloc: Global, cell: usize) -> Result<Term, AllocError>
        requires { IsThere self.now cell }
        ensures { IfOk result (λ term. term ≡ term_of self.now cell) }
    {
        self.in_range(cell);
        let mut syms = Vec::new(alloc);
        let mut rest = Vec::new(alloc);
        rest.push(cell)?;
        while let Some(at) = rest.pop() {
            match self.look(at) {
                Look::Cons(head, tail) => {
                    syms.push(Sym::Cons)?;
                    rest.push(tail)?;
                    rest.push(head)?;
                }
                leaf => syms.push(self.leaf(leaf))?,
            }
        }
        Ok(Term::from_syms(syms))
    }

    // The symbol of a term of one symbol.
    fn leaf(&self, look: Look) -> Sym
        requires no_list { IsNoList look }
        requires shows { (tree : Tree) × Shows self.now tree look }
        ensures { (tree : Tree) → Shows self.now tree look → flat tree ≡ result ∷ [] }
    {
        match look {
            Look::Name(n) => Sym::Name(n),
            Look::Num(z) => Sym::Num(z),
            Look::Day(d) => Sym::Day(d),
            Look::Unbound(var) => Sym::Var(self.number(var)),
            _ => Sym::Nil,
        }
    }

    // The numbers and days of a cell's term are in range.
    fn in_range(&self, cell: usize)
        requires { IsThere self.now cell }
        ensures { IsInRange (term_of self.now cell) }
    {
        let _ = &self.cells;
    }

    // The number of a variable that isn't bound.
    fn number(&self, var: usize) -> u32
        requires { (v : ℕ) × IsUnbound self.now var v }
        ensures { term_of self.now var ≡ variable result }
    {
        match self.cells[var] {
            Cell::Var(number) => number,
            _ => 0,
        }
    }
}
