ghost use Rattle.std.specs.Prelude.{◌≡◌, [], OnOk};
ghost use Rattle.le_store.specs.Shown.{Uses, HasRoom};

mod binding;
mod building;
mod looking;
mod marking;
mod spelling;

use crate::cells::{Cell, Entry, Lengths};
use std::alloc::{AllocError, Global};
use std::marker::Model;

/// The first symbol of a cell's term.
#[derive(Clone, Copy, Debug)]
pub enum Look {
    /// A constant, by the number of its name.
    Name(u32),
    /// A whole number.
    Num(i64),
    /// A date, as the number of days from 1970-01-01.
    Day(i32),
    /// The empty list.
    Nil,
    /// A cell of a list, with the cells of its head and of its tail.
    Cons(usize, usize),
    /// A variable that isn't bound, with its own cell.
    Unbound(usize),
}

/// A mark, which contracts see as its place on the stack of marks, counted from 0.
#[derive(Clone, Copy, Debug)]
pub struct Mark {
    place: usize,
}

impl Model for Mark {
    ghost use Rattle.std.specs.Prelude.{ℕ};

    ghost Value = { ℕ };

    ghost view = { λ m. m.place };

    ghost inverse = { λ n. record { place = n } };
}

/// Cells of terms with their bindings, and a stack of marks.
#[derive(Drop)]
pub struct Store {
    cells: Vec<Cell>,
    trail: Vec<Entry>,
    marks: Vec<Lengths>,
    vars: u32,
}

impl Model for Store {
    ghost use Rattle.std.specs.Prelude.{ℕ, ◌-◌, map, vec_len, vec_capacity};
    ghost use Rattle.std.specs.Coded.{codes};
    ghost use Rattle.le_terms.specs.Tree.{tree_code};
    ghost use Rattle.le_store.specs.Shown.{Shown};

    ghost Value = { Shown };

    ghost coded = { Prim.hlevel (codes, tree_code) };

    ghost use Rattle.le_store.specs.Cells.{written, shown_cells, shown_at};
    ghost use Rattle.le_store.specs.State.{IsStore};

    ghost view = { λ s. record { now = shown_cells (map written s.cells.items) s.trail.items; marks = map (shown_at (map written s.cells.items) s.trail.items) s.marks.items; room = record { cells = vec_capacity s.cells - vec_len s.cells; trail = vec_capacity s.trail - vec_len s.trail; marks = vec_capacity s.marks - vec_len s.marks } } };

    ghost invariant = { λ s. IsStore s.cells.items s.trail.items s.marks.items s.vars };
}

impl Store {
    /// A store without cells.
    pub fn new(alloc: Global) -> Self
        ensures cells { result.now ≡ record { terms = []; variables = [] } }
        ensures marks { result.marks ≡ [] }
    {
        Store {
            cells: Vec::new(alloc),
            trail: Vec::new(alloc),
            marks: Vec::new(alloc),
            vars: 0,
        }
    }

    /// Makes room for so many more cells, bindings and marks. Whatever the answer, the cells, the bindings
    /// and the marks are as before.
    pub fn reserve(&mut self, cells: usize, trail: usize, marks: usize) -> Result<(), AllocError>
        ensures now { self.new.now ≡ self.old.now }
        ensures marks { self.new.marks ≡ self.old.marks }
        ensures no_less { Uses self.old.room self.new.room 0 0 0 }
        ensures room { OnOk result (HasRoom self.new.room cells trail marks) }
    {
        self.cells.reserve(cells)?;
        self.trail.reserve(trail)?;
        self.marks.reserve(marks)
    }
}
