ghost use Rattle.std.specs.Prelude.{◌≡◌, ◌+◌, ◌^◌, ◌<◌, [], ◌∷◌, ◌++◌, length, slice_get, take, option_map, Some, IfOk, OnOk, OnErr};
ghost use Rattle.le_terms.specs.Program.{IsProgram};
ghost use Rattle.le_proofs.specs.Goals.{root_of, rest_goal};
ghost use Rattle.le_goals.specs.Shown.{goal_at, picked_at, sub_goal_at, shape_of, HasLiteral, Keeps, Resolves};
ghost use Rattle.le_terms.specs.declared.program.Clause.{Clause as AnyClause};
ghost use Rattle.le_goals.specs.State.{query_frames};

mod answers;
mod equating;
mod grounding;
mod keys;
mod reading;

use crate::frames::{Answers, Frame, Kept, Part, Source};
use crate::parting::put;
use crate::reading::{Shape, shape_at};
use crate::resolving::{body_part, unify_clause};
use crate::subgoals::put_sub;
use le_store::Store;
use le_terms::Program;
use std::alloc::{AllocError, Global};
use std::marker::Model;

/// The number of the query's goal.
pub const QUERY: usize = 1;

/// The goals of a program's search.
#[derive(Drop)]
pub struct Goals<'p> {
    program: &'p Program,
    store: Store,
    frames: Vec<Frame>,
    kept: Vec<Kept>,
}

impl<'p> Model for Goals<'p> {
    ghost use Rattle.std.specs.Coded.{codes};
    ghost use Rattle.le_terms.specs.Tree.{tree_code};
    ghost use Rattle.le_goals.specs.Shown.{Shown};
    ghost use Rattle.le_goals.specs.State.{shown, IsGoals};

    ghost Value = { Shown };

    ghost coded = { Prim.hlevel (codes, tree_code) };

    ghost view = { λ g. shown g.program.now g.store g.frames.items g.kept.items };

    ghost invariant = { λ g. IsGoals g.program.now g.store g.frames.items g.kept.items };
}

impl<'p> Goals<'p> {
    /// The goal of a program's query, whose number is `QUERY`.
    pub fn start(alloc: Global, program: &'p Program) -> Result<Goals<'p>, AllocError>
        requires program { IsProgram program.now }
        ensures program { IfOk result (λ goals. goals.program ≡ program.now) }
        ensures query { IfOk result (λ goals. slice_get goals.now.goals 1 ≡ Some (root_of program.now)) }
        ensures next { IfOk result (λ goals. goals.now.next ≡ program.now.vars) }
        ensures marks { IfOk result (λ goals. goals.marks ≡ []) }
    {
        let vars = program.vars as usize;
        let mut store = Store::new(alloc);
        store.reserve(vars, 0, 0)?;
        store.fresh(vars);
        let frames = first_frames(alloc, program.query.as_slice().len())?;
        Ok(Goals {
            program,
            store,
            frames,
            kept: Vec::new(alloc),
        })
    }

    /// A new mark, the last one, by its number.
    pub fn mark(&mut self) -> Result<usize, AllocError>
        ensures number { IfOk result (λ number. number ≡ length self.old.marks) }
        ensures program { self.new.program ≡ self.old.program }
        ensures now { self.new.now ≡ self.old.now }
        ensures marks { OnOk result (self.new.marks ≡ self.old.marks ++ self.old.now ∷ []) }
        ensures err { OnErr result (self.new.marks ≡ self.old.marks) }
    {
        let number = self.kept.len();
        self.store.reserve(0, 0, 1)?;
        self.kept.reserve(1)?;
        let mark = self.store.mark();
        let kept = Kept {
            mark,
            frames: self.frames.len(),
        };
        self.kept.push(kept).unwrap();
        Ok(number)
    }

    /// The goals as they were at a mark that stands. Later marks are dropped, and this one stays.
    pub fn undo_to(&mut self, mark: usize)
        requires { mark < length self.old.marks }
        ensures program { self.new.program ≡ self.old.program }
        ensures now { slice_get self.old.marks mark ≡ Some self.new.now }
        ensures marks { self.new.marks ≡ take (mark + 1) self.old.marks }
    {
        let kept = self.kept[mark];
        self.store.undo_to(kept.mark);
        self.frames.truncate(kept.frames);
        self.kept.truncate(mark + 1);
    }

    /// What is left of a goal without the literal at a place.
    pub fn rest(&mut self, alloc: Global, goal: usize, place: usize) -> Result<usize, AllocError>
        requires { HasLiteral self.old.now goal place }
        ensures rest { IfOk result (λ number. slice_get self.new.now.goals number ≡ Some (rest_goal (goal_at self.old.now goal) (picked_at (goal_at self.old.now goal) place))) }
        ensures program { self.new.program ≡ self.old.program }
        ensures marks { self.new.marks ≡ self.old.marks }
        ensures others { Keeps self.old.now self.new.now }
    {
        put(alloc, &mut self.frames, goal, place, None)
    }

    /// The goal of the atom of a literal alone: with the value for its answer where it is a gather's, and else with no terms.
    pub fn sub_goal(&mut self, goal: usize, place: usize) -> Result<usize, AllocError>
        requires { HasLiteral self.old.now goal place }
        ensures sub { IfOk result (λ number. slice_get self.new.now.goals number ≡ Some (sub_goal_at (goal_at self.old.now goal) place)) }
        ensures program { self.new.program ≡ self.old.program }
        ensures marks { self.new.marks ≡ self.old.marks }
        ensures others { Keeps self.old.now self.new.now }
    {
        put_sub(self.program, &mut self.frames, goal, place)
    }

    /// The literal at a place of a goal, without its terms; none exactly where the goal has no literal there.
    pub fn shape_at(&self, goal: usize, place: usize) -> Option<Shape>
        requires { goal < length self.now.now.goals }
        ensures { result ≡ option_map shape_of (slice_get (goal_at self.now.now goal).literals place) }
    {
        shape_at(self.program, self.frames.as_slice(), goal, place)
    }

    /// The resolvent of a goal and the clause at a place of the program, by the atom of a literal; none exactly where the
    /// clause's head, renamed apart, and the atom have no unifier. All goals are then under the unifier, and after any other
    /// answer some may be; undoing to a mark takes that back. There are fewer than 2^32 - 64 variables.
    pub fn resolve(
        &mut self,
        alloc: Global,
        goal: usize,
        place: usize,
        clause: usize,
    ) -> Result<Option<usize>, AllocError>
        requires literal { HasLiteral self.old.now goal place }
        requires clause { clause < length self.old.program.clauses }
        requires few { self.old.now.next + 64 < 2 ^ 32 }
        ensures resolves { IfOk result (λ child. (one : AnyClause) → slice_get self.old.program.clauses clause ≡ Some one → Resolves self.old.now self.new.now goal place one child) }
        ensures program { self.new.program ≡ self.old.program }
        ensures marks { self.new.marks ≡ self.old.marks }
    {
        let program = self.program;
        let frames = self.frames.as_slice();
        let store = &mut self.store;
        match unify_clause(alloc, program, store, frames, goal, place, clause)? {
            None => Ok(None),
            Some(fresh) => {
                let body = body_part(program, clause, fresh);
                let child = put(alloc, &mut self.frames, goal, place, Some(body))?;
                Ok(Some(child))
            }
        }
    }
}

// The frames of a query of so many literals.
fn first_frames(alloc: Global, count: usize) -> Result<Vec<Frame>, AllocError>
    ensures { IfOk result (λ frames. frames.items ≡ query_frames count) }
{
    let mut frames = Vec::with_capacity(alloc, 2)?;
    frames.push(Frame::Empty(Answers::Asked))?;
    let part = Part {
        source: Source::Query,
        base: 0,
        from: 0,
        to: count,
        alone: false,
    };
    frames.push(Frame::Before { part, rest: 0 })?;
    Ok(frames)
}
