ghost use Rattle.std.specs.Prelude.{◌≡◌, ℕ, ◌+◌, ◌<◌, ◌≤◌, length, IfOk, OnOk, OnErr};
ghost use Rattle.std.specs.List.{AllByRecursion};
ghost use Rattle.le_terms.specs.declared.program.Program.{Program as AnyProgram};
ghost use Rattle.le_goals.specs.Frames.{part_of, before};
ghost use Rattle.le_goals.specs.State.{IsPart, AreFrames};
ghost use Rattle.le_goals.specs.Parting.{AreAnyFrames, laid_at, before_all, Finds, StandsIn, Grows, Puts, put_at, part_literals, part_up_to, part_behind, IsPartIfAny};

use crate::frames::{Frame, Part, Spot, Walk};
use std::alloc::{AllocError, Global};

// The literal at a place of a goal, and the parts before it; none where there is no such literal.
pub(crate) fn walk(
    alloc: Global,
    frames: &[Frame],
    goal: usize,
    place: usize,
) -> Result<Option<Walk>, AllocError>
    requires there { goal < length frames.now }
    requires frames { AreAnyFrames frames.now }
    ensures { IfOk result (λ found. (program : AnyProgram) (cells : ℕ) → AreFrames program cells 0 frames.now → Finds program cells frames.now goal place found) }
{
    let mut passed = Vec::new(alloc);
    let mut at = goal;
    let mut left = place;
    'frames: loop {
        let (part, rest) = match frames[at] {
            Frame::Empty(_) => return Ok(None),
            Frame::Before { part, rest } => (part, rest),
        };
        let count = part.to - part.from;
        if left < count {
            let spot = Spot { part, left, rest };
            return Ok(Some(Walk { passed, spot }));
        }
        passed.push(part)?;
        left -= count;
        at = rest;
    }
}

// A part before a goal: the goal itself where the part is empty.
pub(crate) fn put_before(
    frames: &mut Vec<Frame>,
    part: Part,
    rest: usize,
) -> Result<usize, AllocError>
    ensures grows { (program : AnyProgram) (cells : ℕ) → AreFrames program cells 0 frames.old.items → IsPart program cells part → rest < length frames.old.items → Grows program cells frames.old.items frames.new.items }
    ensures put { IfOk result (λ number. (program : AnyProgram) (cells : ℕ) → AreFrames program cells 0 frames.old.items → IsPart program cells part → rest < length frames.old.items → Puts program cells frames.old.items frames.new.items number (before (part_of program part) (laid_at program frames.old.items rest))) }
{
    if part.from == part.to {
        return Ok(rest);
    }
    let number = frames.len();
    frames.push(Frame::Before { part, rest })?;
    Ok(number)
}

// Parts before a goal, the last of them directly before it.
fn put_all(frames: &mut Vec<Frame>, parts: Vec<Part>, rest: usize) -> Result<usize, AllocError>
    ensures grows { (program : AnyProgram) (cells : ℕ) → AreFrames program cells 0 frames.old.items → AllByRecursion (IsPart program cells) parts.items → rest < length frames.old.items → Grows program cells frames.old.items frames.new.items }
    ensures put { IfOk result (λ number. (program : AnyProgram) (cells : ℕ) → AreFrames program cells 0 frames.old.items → AllByRecursion (IsPart program cells) parts.items → rest < length frames.old.items → Puts program cells frames.old.items frames.new.items number (before_all program parts.items (laid_at program frames.old.items rest))) }
{
    let mut parts = parts;
    let mut last = rest;
    'parts: while let Some(part) = parts.pop() {
        last = put_before(frames, part, last)?;
    }
    Ok(last)
}

// The literals of a part, if there is one, with what stands around a literal: those before it in its own part, and those
// after it.
fn put_around(frames: &mut Vec<Frame>, spot: Spot, new: Option<Part>) -> Result<usize, AllocError>
    requires { spot.part.from + spot.left < spot.part.to }
    ensures grows { (program : AnyProgram) (cells : ℕ) → AreFrames program cells 0 frames.old.items → IsPart program cells spot.part → IsPartIfAny program cells new → spot.rest < length frames.old.items → Grows program cells frames.old.items frames.new.items }
    ensures put { IfOk result (λ number. (program : AnyProgram) (cells : ℕ) → AreFrames program cells 0 frames.old.items → IsPart program cells spot.part → IsPartIfAny program cells new → spot.rest < length frames.old.items → Puts program cells frames.old.items frames.new.items number (before (part_of program (part_up_to spot.part spot.left)) (before (part_literals program new) (before (part_of program (part_behind spot.part spot.left)) (laid_at program frames.old.items spot.rest))))) }
{
    let part = spot.part;
    let behind = Part {
        from: part.from + spot.left + 1,
        ..part
    };
    let rest = put_before(frames, behind, spot.rest)?;
    let rest = put_new(frames, new, rest)?;
    let before = Part {
        to: part.from + spot.left,
        ..part
    };
    put_before(frames, before, rest)
}

// The literals of a part, if there is one, before a goal.
fn put_new(frames: &mut Vec<Frame>, new: Option<Part>, rest: usize) -> Result<usize, AllocError>
    ensures grows { (program : AnyProgram) (cells : ℕ) → AreFrames program cells 0 frames.old.items → IsPartIfAny program cells new → rest < length frames.old.items → Grows program cells frames.old.items frames.new.items }
    ensures put { IfOk result (λ number. (program : AnyProgram) (cells : ℕ) → AreFrames program cells 0 frames.old.items → IsPartIfAny program cells new → rest < length frames.old.items → Puts program cells frames.old.items frames.new.items number (before (part_literals program new) (laid_at program frames.old.items rest))) }
{
    match new {
        Some(part) => put_before(frames, part, rest),
        None => Ok(rest),
    }
}

// A goal with the literals of a part, if there is one, in the place of a literal.
pub(crate) fn put(
    alloc: Global,
    frames: &mut Vec<Frame>,
    goal: usize,
    place: usize,
    new: Option<Part>,
) -> Result<usize, AllocError>
    requires there { goal < length frames.old.items }
    requires frames { AreAnyFrames frames.old.items }
    ensures grows { (program : AnyProgram) (cells : ℕ) → AreFrames program cells 0 frames.old.items → IsPartIfAny program cells new → Grows program cells frames.old.items frames.new.items }
    ensures put { IfOk result (λ number. (program : AnyProgram) (cells : ℕ) → AreFrames program cells 0 frames.old.items → IsPartIfAny program cells new → place < length (laid_at program frames.old.items goal).literals → Puts program cells frames.old.items frames.new.items number (put_at place (part_literals program new) (laid_at program frames.old.items goal))) }
{
    match walk(alloc, frames, goal, place)? {
        None => Ok(goal),
        Some(walk) => {
            let rest = put_around(frames, walk.spot, new)?;
            put_all(frames, walk.passed, rest)
        }
    }
}
