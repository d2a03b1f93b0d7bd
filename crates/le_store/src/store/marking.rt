ghost use Rattle.std.specs.Prelude.{vec_capacity, ◌≡◌, ◌+◌, ◌<◌, ◌≤◌, [], ◌∷◌, ◌++◌, length, map, take, slice_get, Some};
ghost use Rattle.le_store.specs.Shown.{Uses};
ghost use Rattle.le_store.specs.Cells.{written};
ghost use Rattle.le_store.specs.State.{AreBindings, Agrees};

use super::{Mark, Store};
use crate::cells::{Cell, Entry, Lengths};

impl Store {
    /// A new mark on the stack of marks, which has room for one.
    pub fn mark(&mut self) -> Mark
        requires { 1 ≤ self.old.room.marks }
        ensures place { result ≡ length self.old.marks }
        ensures now { self.new.now ≡ self.old.now }
        ensures marks { self.new.marks ≡ self.old.marks ++ self.old.now ∷ [] }
        ensures room { Uses self.old.room self.new.room 0 0 1 }
    {
        let place = self.marks.len();
        let lengths = Lengths {
            cells: self.cells.len(),
            trail: self.trail.len(),
            vars: self.vars,
        };
        self.marks.push(lengths).unwrap();
        Mark { place }
    }

    /// Puts the cells, the bindings and the terms back as they were at a mark that stands. Later marks
    /// are dropped, and this one stays.
    pub fn undo_to(&mut self, mark: Mark)
        requires { mark < length self.old.marks }
        ensures now { slice_get self.old.marks mark ≡ Some self.new.now }
        ensures marks { self.new.marks ≡ take (mark + 1) self.old.marks }
        ensures room { Uses self.old.room self.new.room 0 0 0 }
    {
        let lengths = self.marks[mark.place];
        unbind(&mut self.cells, &mut self.trail, lengths.trail);
        self.cells.truncate(lengths.cells);
        self.vars = lengths.vars;
        self.marks.truncate(mark.place + 1);
    }
}

// Takes bindings away until so many are left.
fn unbind(cells: &mut Vec<Cell>, trail: &mut Vec<Entry>, left: usize)
    requires within { left ≤ length trail.old.items }
    requires bindings { AreBindings (map written cells.old.items) trail.old.items }
    requires agrees { Agrees cells.old.items trail.old.items }
    ensures trail { trail.new.items ≡ take left trail.old.items }
    ensures written { map written cells.new.items ≡ map written cells.old.items }
    ensures agrees { Agrees cells.new.items trail.new.items }
    ensures room { (vec_capacity cells.new ≡ vec_capacity cells.old) × (vec_capacity trail.new ≡ vec_capacity trail.old) }
{
    while trail.len() > left {
        if let Some(entry) = trail.pop() {
            cells[entry.var] = Cell::Var(entry.number);
        }
    }
}
