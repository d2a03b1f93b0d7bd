ghost use Rattle.std.specs.Prelude.{◌≡◌, ℕ, ◌<◌, length, slice_get, option_map};
ghost use Rattle.le_store.specs.Shown.{Snapshot as AnyCells};
ghost use Rattle.le_goals.specs.Frames.{shaped, goal_of};
ghost use Rattle.le_goals.specs.Shown.{kind_of, shape_of};
ghost use Rattle.le_goals.specs.State.{AreFrames};
ghost use Rattle.le_goals.specs.Parting.{laid_at};

use crate::finding::{atom_of, find, literals_in};
use crate::frames::Frame;
use le_base::FoldKind;
use le_terms::{Form, Literal, Program};

/// What a literal says of its atom.
#[derive(Clone, Copy, Debug)]
pub enum Kind {
    /// The atom holds, by the program's clauses.
    Atom,
    /// The atom has no refutation.
    Negation,
    /// The atom of a predefined predicate holds, by computation.
    Computed,
    /// The result is made of the values at all cases of the atom.
    Gather(FoldKind),
}

/// A literal without its terms.
#[derive(Clone, Copy, Debug)]
pub struct Shape {
    /// What it says of its atom.
    pub kind: Kind,
    /// The line of the document that it comes from, from 1.
    pub line: u32,
    /// The atom's predicate.
    pub pred: u32,
}

// The literal at a place of a goal, without its terms; none where there is no such literal.
pub(crate) fn shape_at(
    program: &Program,
    frames: &[Frame],
    goal: usize,
    place: usize,
) -> Option<Shape>
    requires there { goal < length frames.now }
    requires frames { (cells : ℕ) × AreFrames program.now cells 0 frames.now }
    ensures { (cells : AnyCells) → result ≡ option_map shape_of (slice_get (goal_of program.now cells (laid_at program.now frames.now goal)).literals place) }
{
    let spot = find(frames, goal, place)?;
    let literal = &literals_in(program, spot.part.source)[spot.part.from + spot.left];
    Some(seen_as(literal, spot.part.alone))
}

// A literal without its terms, or its atom alone.
fn seen_as(literal: &Literal, alone: bool) -> Shape
    ensures { result ≡ shape_of (shaped alone literal.now) }
{
    let kind = if alone {
        Kind::Atom
    } else {
        kind_of(&literal.form)
    };
    Shape {
        kind,
        line: literal.line,
        pred: atom_of(&literal.form).pred,
    }
}

// What kind of literal it is.
fn kind_of(form: &Form) -> Kind
    ensures { result ≡ kind_of form.now }
{
    match form {
        Form::Pos(_) => Kind::Atom,
        Form::Neg(_) => Kind::Negation,
        Form::Calc(_) => Kind::Computed,
        Form::Gather { fold, .. } => Kind::Gather(*fold),
    }
}
