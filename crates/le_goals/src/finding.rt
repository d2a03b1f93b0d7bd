ghost use Rattle.std.specs.Prelude.{◌≡◌, ℕ, ◌+◌, ◌<◌, length, get_or};
ghost use Rattle.le_terms.specs.declared.program.Program.{Program as AnyProgram};
ghost use Rattle.le_terms.specs.Program.{form_atom};
ghost use Rattle.le_goals.specs.Frames.{literals_in};
ghost use Rattle.le_goals.specs.State.{AreFrames};
ghost use Rattle.le_goals.specs.Parting.{AreAnyFrames, FindsSpot};

use crate::frames::{Frame, Source, Spot};
use le_terms::{Atom, Form, Literal, Program};

// The literals of the query or of a clause's body.
pub(crate) fn literals_in<'a>(program: &'a Program, source: Source) -> &'a [Literal]
    ensures { result.now ≡ literals_in program.now source }
{
    match source {
        Source::Query => program.query.as_slice(),
        Source::Body(place) => match program.clauses.as_slice().get(place) {
            Some(clause) => clause.body.as_slice(),
            None => &[],
        },
    }
}

// The atom of a literal.
pub(crate) fn atom_of(form: &Form) -> &Atom
    ensures { result.now ≡ form_atom form.now }
{
    match form {
        Form::Pos(atom) => atom,
        Form::Neg(atom) => atom,
        Form::Calc(atom) => atom,
        Form::Gather { atom, .. } => atom,
    }
}

// Where the literal at a place of a goal stands; none where there is no such literal.
pub(crate) fn find(frames: &[Frame], goal: usize, place: usize) -> Option<Spot>
    requires there { goal < length frames.now }
    requires frames { AreAnyFrames frames.now }
    ensures { (program : AnyProgram) (cells : ℕ) → AreFrames program cells 0 frames.now → FindsSpot program cells frames.now goal place result }
{
    let mut at = goal;
    let mut left = place;
    'frames: loop {
        let (part, rest) = match frames[at] {
            Frame::Empty(_) => return None,
            Frame::Before { part, rest } => (part, rest),
        };
        let count = part.to - part.from;
        if left < count {
            return Some(Spot { part, left, rest });
        }
        left -= count;
        at = rest;
    }
}
