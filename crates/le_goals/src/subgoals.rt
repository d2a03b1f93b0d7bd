ghost use Rattle.std.specs.Prelude.{◌≡◌, ℕ, ◌<◌, length, IfOk};
ghost use Rattle.le_goals.specs.State.{AreFrames};
ghost use Rattle.le_goals.specs.Parting.{laid_at, Grows, PutsSub, sub_answers};

use crate::finding::{find, literals_in};
use crate::frames::{Answers, Frame, Part};
use crate::parting::put_before;
use le_terms::{Form, Literal, Program};
use std::alloc::AllocError;

// The goal of the atom of a goal's literal alone.
pub(crate) fn put_sub(
    program: &Program,
    frames: &mut Vec<Frame>,
    goal: usize,
    place: usize,
) -> Result<usize, AllocError>
    requires there { goal < length frames.old.items }
    requires frames { (cells : ℕ) × AreFrames program.now cells 0 frames.old.items }
    requires literal { place < length (laid_at program.now frames.old.items goal).literals }
    ensures grows { (cells : ℕ) → AreFrames program.now cells 0 frames.old.items → Grows program.now cells frames.old.items frames.new.items }
    ensures put { IfOk result (λ number. (cells : ℕ) → AreFrames program.now cells 0 frames.old.items → PutsSub program.now cells frames.old.items frames.new.items goal place number) }
{
    let Some(spot) = find(frames.as_slice(), goal, place) else {
        return Ok(goal);
    };
    let at = spot.part.from + spot.left;
    let literal = &literals_in(program, spot.part.source)[at];
    let part = Part {
        from: at,
        to: at + 1,
        alone: true,
        ..spot.part
    };
    let end = frames.len();
    frames.push(Frame::Empty(sub_answers(literal, spot.part, at)))?;
    put_before(frames, part, end)
}

// The terms that the answers to the atom of a literal are asked for.
fn sub_answers(literal: &Literal, part: Part, at: usize) -> Answers
    ensures { result ≡ sub_answers literal.now part at }
{
    if part.alone {
        return Answers::Nothing;
    }
    match &literal.form {
        Form::Gather { .. } => Answers::Value {
            source: part.source,
            base: part.base,
            at,
        },
        _ => Answers::Nothing,
    }
}
