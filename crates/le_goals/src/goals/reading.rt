ghost use Rattle.std.specs.Prelude.{◌≡◌, ◌<◌, length, slice_get, IfOk};
ghost use Rattle.le_terms.specs.Program.{IsProgram, form_terms};
ghost use Rattle.le_proofs.specs.Goals.{literal_under};
ghost use Rattle.le_goals.specs.Frames.{cell_term, shaped, goal_of};
ghost use Rattle.le_goals.specs.Shown.{goal_at};
ghost use Rattle.le_goals.specs.State.{AreFrames};
ghost use Rattle.le_goals.specs.Parting.{laid_at};
ghost use Rattle.le_goals.specs.Unifying.{HasVariables};

use super::Goals;
use crate::finding::{atom_of, find, literals_in};
use crate::frames::Frame;
use crate::terms::{shown_atom, shown_form};
use le_store::Store;
use le_terms::{Form, Literal, Program};
use std::alloc::{AllocError, Global};

impl<'p> Goals<'p> {
    /// The literal at a place of a goal, with its terms as they are now; none exactly where there is no such literal. It costs
    /// in proportion to the literal's terms.
    pub fn literal_at(
        &self,
        alloc: Global,
        goal: usize,
        place: usize,
    ) -> Result<Option<Literal>, AllocError>
        ensures { IfOk result (λ answer. answer ≡ slice_get (goal_at self.now.now goal).literals place) }
    {
        if goal >= self.frames.len() {
            return Ok(None);
        }
        let frames = self.frames.as_slice();
        literal_in(alloc, self.program, &self.store, frames, goal, place)
    }
}

// The literal at a place of a goal, with its terms; none where there is no such literal.
fn literal_in(
    alloc: Global,
    program: &Program,
    store: &Store,
    frames: &[Frame],
    goal: usize,
    place: usize,
) -> Result<Option<Literal>, AllocError>
    requires program { IsProgram program.now }
    requires frames { AreFrames program.now (length store.now.now.terms) 0 frames.now }
    requires there { goal < length frames.now }
    ensures { IfOk result (λ answer. answer ≡ slice_get (goal_of program.now store.now.now (laid_at program.now frames.now goal)).literals place) }
{
    let Some(spot) = find(frames, goal, place) else {
        return Ok(None);
    };
    let part = spot.part;
    let literal = &literals_in(program, part.source)[part.from + spot.left];
    let shown = shown_literal(alloc, store, literal, part.alone, part.base)?;
    Ok(Some(shown))
}

// A literal as the cells show it, or its atom alone.
fn shown_literal(
    alloc: Global,
    store: &Store,
    literal: &Literal,
    alone: bool,
    base: usize,
) -> Result<Literal, AllocError>
    requires { HasVariables store.now base (form_terms literal.now.form) }
    ensures { IfOk result (λ new. new ≡ literal_under (cell_term store.now.now base) (shaped alone literal.now)) }
{
    let line = literal.line;
    if alone {
        let atom = shown_atom(alloc, store, atom_of(&literal.form), base)?;
        let form = Form::Pos(atom);
        return Ok(Literal { line, form });
    }
    let form = shown_form(alloc, store, &literal.form, base)?;
    Ok(Literal { line, form })
}
