ghost use Rattle.std.specs.Prelude.{◌≡◌, ◌<◌, length, option_map, IfOk};
ghost use Rattle.le_terms.specs.declared.program.Literal.{Literal as AnyLiteral};
ghost use Rattle.le_proofs.specs.Goals.{is_delayed, selected};
ghost use Rattle.le_goals.specs.Shown.{kind_of, literal_of, HasLiteral};
ghost use Rattle.le_cells.specs.Keeping.{goal_now};

use le_goals::{Goals, Kind};
use std::alloc::{AllocError, Global};

// The place of the selected literal of a goal: in version 1 the first, in version 2 the first that isn't a negation
// whose atom holds a variable.
pub(crate) fn select(
    alloc: Global,
    version: u8,
    goals: &Goals<'_>,
    goal: usize,
) -> Result<Option<usize>, AllocError>
    requires there { goal < length goals.now.now.goals }
    ensures { IfOk result (λ place. place ≡ option_map (λ picked. length picked.before) (selected version (goal_now goals.now goal).literals)) }
{
    let mut place: usize = 0;
    while let Some(shape) = goals.shape_at(goal, place) {
        if !is_delayed(alloc, version, goals, goal, place, shape.kind)? {
            return Ok(Some(place));
        }
        // More literals don't fit in memory.
        let Some(next) = place.checked_add(1) else {
            return Err(AllocError);
        };
        place = next;
    }
    Ok(None)
}

// Whether the literal at a place of a goal, of this kind, is passed over when one is selected.
fn is_delayed(
    alloc: Global,
    version: u8,
    goals: &Goals<'_>,
    goal: usize,
    place: usize,
    kind: Kind,
) -> Result<bool, AllocError>
    requires { HasLiteral goals.now.now goal place }
    ensures { IfOk result (λ delayed. (literal : AnyLiteral) → literal_of (goal_now goals.now goal) place ≡ literal → kind ≡ kind_of literal.form → delayed ≡ is_delayed version literal) }
{
    match kind {
        Kind::Negation => Ok(version == 2 && !goals.is_ground_at(alloc, goal, place)?),
        _ => Ok(false),
    }
}
