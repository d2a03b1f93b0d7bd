ghost use Rattle.std.specs.Prelude.{◌≡◌, ◌≤◌, ℕ, IfOk};
ghost use Rattle.le_terms.specs.Program.{IsProgram};
ghost use Rattle.le_index.specs.Listing.{IsIndexOf};
ghost use Rattle.le_cells.specs.Keeping.{AreReady};
ghost use Rattle.le_cells.specs.State.{Advances};
ghost use Rattle.le_cells.specs.Turns.{Comes, SettledComes, IsReadyTurn, IsReadySettled};

use crate::goals::{Found, Searches, Settled, Turn};
use crate::returning::{back, leaf};
use crate::visiting::visit;
use le_goals::Goals;
use le_index::Index;
use le_terms::Program;
use std::alloc::{AllocError, Global};

// What is found next: a success leaf of the program's search, or its end.
pub(crate) fn find(
    alloc: Global,
    program: &Program,
    index: &Index,
    goals: &mut Goals<'_>,
    searches: &mut Searches,
    left: &mut u32,
    first: Turn,
) -> Result<Found, AllocError>
    requires program { IsProgram program.now }
    requires cells { goals.old.program ≡ program.now }
    requires index { IsIndexOf index.now program.now.clauses }
    requires first { IsReadyTurn left.old goals.old first }
    requires opens { AreReady left.old goals.old.marks searches.old }
    ensures found { IfOk result (λ found. (budget given : ℕ) → Comes program.now budget given goals.old searches.old first left.old → Advances program.now budget given found left.new goals.new searches.new) }
    ensures fewer { left.new ≤ left.old }
    ensures opens { IfOk result (λ found. AreReady left.new goals.new.marks searches.new) }
    ensures same { goals.new.program ≡ goals.old.program }
{
    let mut turn = first;
    loop {
        match settle(alloc, program, index, goals, searches, *left, turn)? {
            Settled::Goal(goal) => {
                match visit(alloc, program.version, goals, searches, left, goal)? {
                    Turn::Found(found) => return Ok(found),
                    next => turn = next,
                }
            }
            Settled::Found(found) => return Ok(found),
        }
    }
}

// The next goal with literals that is visited, or what is found before.
fn settle(
    alloc: Global,
    program: &Program,
    index: &Index,
    goals: &mut Goals<'_>,
    searches: &mut Searches,
    left: u32,
    first: Turn,
) -> Result<Settled, AllocError>
    requires program { IsProgram program.now }
    requires cells { goals.old.program ≡ program.now }
    requires index { IsIndexOf index.now program.now.clauses }
    requires first { IsReadyTurn left goals.old first }
    requires opens { AreReady left goals.old.marks searches.old }
    ensures comes { IfOk result (λ settled. (budget given : ℕ) → Comes program.now budget given goals.old searches.old first left → SettledComes program.now budget given goals.new searches.new settled left) }
    ensures ready { IfOk result (IsReadySettled left goals.new) }
    ensures opens { IfOk result (λ settled. AreReady left goals.new.marks searches.new) }
    ensures same { goals.new.program ≡ goals.old.program }
{
    let mut turn = first;
    loop {
        turn = match turn {
            Turn::Found(found) => return Ok(Settled::Found(found)),
            Turn::Back => back(
                alloc,
                program.clauses.as_slice(),
                index,
                goals,
                searches,
                left,
            )?,
            Turn::Visit(goal) => {
                if goals.shape_at(goal, 0).is_some() {
                    return Ok(Settled::Goal(goal));
                }
                leaf(alloc, goals, searches, goal)?
            }
        };
    }
}
