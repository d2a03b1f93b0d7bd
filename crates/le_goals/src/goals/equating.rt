ghost use Rattle.std.specs.Prelude.{◌≡◌, ◌<◌, ◌≤◌, ◌∷◌, [], length, IfOk};
ghost use Rattle.le_terms.specs.Tree.{Tree, flat};
ghost use Rattle.le_terms.specs.Program.{IsProgram, form_atom, form_terms};
ghost use Rattle.le_builtins.specs.Compute.{argument};
ghost use Rattle.le_proofs.specs.Goals.{terms_under, literal_under};
ghost use Rattle.le_goals.specs.Frames.{cell_term, shaped, goal_of};
ghost use Rattle.le_goals.specs.Shown.{goal_at, literal_of, argument_at, result_of, HasLiteral, Equates, IsWholeSymbol};
ghost use Rattle.le_goals.specs.State.{AreFrames};
ghost use Rattle.le_goals.specs.Parting.{laid_at};
ghost use Rattle.le_goals.specs.Unifying.{Extends, HasVariables};
ghost use Rattle.le_goals.specs.Equations.{IsCellOf, UnifiesPair};

use super::Goals;
use crate::finding::{atom_of, find, literals_in};
use crate::frames::Frame;
use crate::unifying::build;
use le_store::Store;
use le_terms::{Form, Literal, Program, Sym, Term};
use le_unify::unify;
use std::alloc::{AllocError, Global};

impl<'p> Goals<'p> {
    /// Makes the two arguments of a computed literal equal: whether they have a unifier. All goals are then under it, and
    /// after any other answer some may be; undoing to a mark takes that back.
    pub fn equate_arguments(
        &mut self,
        alloc: Global,
        goal: usize,
        place: usize,
    ) -> Result<bool, AllocError>
        requires literal { HasLiteral self.old.now goal place }
        ensures equates { IfOk result (λ equal. Equates self.old.now self.new.now (argument_at self.old.now goal place 0) (argument_at self.old.now goal place 1) equal) }
        ensures program { self.new.program ≡ self.old.program }
        ensures marks { self.new.marks ≡ self.old.marks }
    {
        let frames = self.frames.as_slice();
        unify_arguments(alloc, self.program, &mut self.store, frames, goal, place)
    }

    /// Makes the result of a literal, which is the first argument of a computed one and the result of a gather, equal to a
    /// symbol that is a whole term: whether they have a unifier. All goals are then under it, and after any other answer
    /// some may be; undoing to a mark takes that back.
    pub fn equate_result(
        &mut self,
        alloc: Global,
        goal: usize,
        place: usize,
        sym: Sym,
    ) -> Result<bool, AllocError>
        requires literal { HasLiteral self.old.now goal place }
        requires whole { IsWholeSymbol sym }
        ensures equates { IfOk result (λ equal. (tree : Tree) → flat tree ≡ sym ∷ [] → Equates self.old.now self.new.now (result_of (literal_of (goal_at self.old.now goal) place).form) tree equal) }
        ensures program { self.new.program ≡ self.old.program }
        ensures marks { self.new.marks ≡ self.old.marks }
    {
        let frames = self.frames.as_slice();
        unify_result(
            alloc,
            self.program,
            &mut self.store,
            frames,
            goal,
            place,
            sym,
        )
    }
}

// Makes the first two arguments of the atom of a goal's literal equal: whether they have a unifier.
fn unify_arguments(
    alloc: Global,
    program: &Program,
    store: &mut Store,
    frames: &[Frame],
    goal: usize,
    place: usize,
) -> Result<bool, AllocError>
    requires program { IsProgram program.now }
    requires frames { AreFrames program.now (length store.old.now.terms) 0 frames.now }
    requires there { goal < length frames.now }
    requires literal { place < length (laid_at program.now frames.now goal).literals }
    ensures unified { IfOk result (λ equal. let atom = form_atom (literal_of (goal_of program.now store.old.now (laid_at program.now frames.now goal)) place).form in UnifiesPair store.old store.new (argument atom.args 0) (argument atom.args 1) equal) }
    ensures marks { store.new.marks ≡ store.old.marks }
    ensures more { length store.old.now.terms ≤ length store.new.now.terms }
{
    let Some(spot) = find(frames, goal, place) else {
        return Ok(false);
    };
    let literal = &literals_in(program, spot.part.source)[spot.part.from + spot.left];
    let args = atom_of(&literal.form).args.as_slice();
    unify_first_two(alloc, store, args, spot.part.base)
}

// Makes the first two of some arguments equal.
fn unify_first_two(
    alloc: Global,
    store: &mut Store,
    args: &[Term],
    base: usize,
) -> Result<bool, AllocError>
    requires { HasVariables store.old base args.now }
    ensures unified { IfOk result (λ equal. UnifiesPair store.old store.new (argument (terms_under (cell_term store.old.now base) args.now) 0) (argument (terms_under (cell_term store.old.now base) args.now) 1) equal) }
    ensures marks { store.new.marks ≡ store.old.marks }
    ensures more { length store.old.now.terms ≤ length store.new.now.terms }
{
    let first = build_argument(alloc, store, args, 0, base)?;
    let second = build_argument(alloc, store, args, 1, base)?;
    unify(alloc, store, first, second)
}

// Makes the result of a goal's literal equal to a symbol that is a whole term: whether they have a unifier.
fn unify_result(
    alloc: Global,
    program: &Program,
    store: &mut Store,
    frames: &[Frame],
    goal: usize,
    place: usize,
    sym: Sym,
) -> Result<bool, AllocError>
    requires program { IsProgram program.now }
    requires frames { AreFrames program.now (length store.old.now.terms) 0 frames.now }
    requires there { goal < length frames.now }
    requires literal { place < length (laid_at program.now frames.now goal).literals }
    requires whole { IsWholeSymbol sym }
    ensures unified { IfOk result (λ equal. (tree : Tree) → flat tree ≡ sym ∷ [] → UnifiesPair store.old store.new (result_of (literal_of (goal_of program.now store.old.now (laid_at program.now frames.now goal)) place).form) tree equal) }
    ensures marks { store.new.marks ≡ store.old.marks }
    ensures more { length store.old.now.terms ≤ length store.new.now.terms }
{
    let Some(spot) = find(frames, goal, place) else {
        return Ok(false);
    };
    let literal = &literals_in(program, spot.part.source)[spot.part.from + spot.left];
    let first = build_result(alloc, store, literal, spot.part.alone, spot.part.base)?;
    let second = build_symbol(alloc, store, sym)?;
    unify(alloc, store, first, second)
}

// The cell of the result of a literal, or of its atom alone.
fn build_result(
    alloc: Global,
    store: &mut Store,
    literal: &Literal,
    alone: bool,
    base: usize,
) -> Result<usize, AllocError>
    requires { HasVariables store.old base (form_terms literal.now.form) }
    ensures extends { Extends store.old store.new }
    ensures cell { IfOk result (IsCellOf store.new (result_of (literal_under (cell_term store.old.now base) (shaped alone literal.now)).form)) }
{
    if alone {
        let args = atom_of(&literal.form).args.as_slice();
        return build_argument(alloc, store, args, 0, base);
    }
    match &literal.form {
        Form::Pos(atom) => build_argument(alloc, store, atom.args.as_slice(), 0, base),
        Form::Neg(atom) => build_argument(alloc, store, atom.args.as_slice(), 0, base),
        Form::Calc(atom) => build_argument(alloc, store, atom.args.as_slice(), 0, base),
        Form::Gather { result, .. } => build(store, result, base),
    }
}

// The cell of the argument at a place, which is the empty list where there is none.
fn build_argument(
    alloc: Global,
    store: &mut Store,
    args: &[Term],
    place: usize,
    base: usize,
) -> Result<usize, AllocError>
    requires { HasVariables store.old base args.now }
    ensures extends { Extends store.old store.new }
    ensures cell { IfOk result (IsCellOf store.new (argument (terms_under (cell_term store.old.now base) args.now) place)) }
{
    match args.get(place) {
        Some(term) => build(store, term, base),
        None => build_symbol(alloc, store, Sym::Nil),
    }
}

// The cell of a symbol that is a whole term.
fn build_symbol(alloc: Global, store: &mut Store, sym: Sym) -> Result<usize, AllocError>
    requires { IsWholeSymbol sym }
    ensures extends { Extends store.old store.new }
    ensures cell { IfOk result (λ cell. (tree : Tree) → flat tree ≡ sym ∷ [] → IsCellOf store.new tree cell) }
{
    let term = Term::leaf(alloc, sym)?;
    build(store, &term, 0)
}
