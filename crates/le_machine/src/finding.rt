ghost use Rattle.std.specs.Prelude.{◌≤◌, ℕ, IfOk};
ghost use Rattle.le_terms.specs.Program.{IsProgram};
ghost use Rattle.le_index.specs.Listing.{IsIndexOf};
ghost use Rattle.le_machine.specs.Keeping.{AreReady};
ghost use Rattle.le_machine.specs.State.{Advances};
ghost use Rattle.le_machine.specs.Turns.{Comes, SettledComes, IsReadyTurn, IsReadySettled};

use crate::goals::{Found, Searches, Settled, Turn};
use crate::returning::{back, leaf};
use crate::visiting::visit;
use le_index::Index;
use le_terms::Program;
use std::alloc::{AllocError, Global};

// What is found next: a success leaf of the program's search, or its end.
pub(crate) fn find(
    alloc: Global,
    program: &Program,
    index: &Index,
    searches: &mut Searches,
    left: &mut u32,
    first: Turn,
) -> Result<Found, AllocError>
    requires program { IsProgram program.now }
    requires index { IsIndexOf index.now program.now.clauses }
    requires first { IsReadyTurn left.old first }
    requires opens { AreReady left.old searches.old }
    ensures found { IfOk result (λ found. (budget given : ℕ) → Comes program.now budget given searches.old first left.old → Advances program.now budget given found left.new searches.new) }
    ensures fewer { left.new ≤ left.old }
    ensures opens { IfOk result (λ found. AreReady left.new searches.new) }
{
    let mut turn = first;
    loop {
        match settle(alloc, program, index, searches, *left, turn)? {
            Settled::Goal(goal) => match visit(alloc, program, searches, left, goal)? {
                Turn::Found(found) => return Ok(found),
                next => turn = next,
            },
            Settled::Found(found) => return Ok(found),
        }
    }
}

// The next goal with literals that is visited, or what is found before.
fn settle(
    alloc: Global,
    program: &Program,
    index: &Index,
    searches: &mut Searches,
    left: u32,
    first: Turn,
) -> Result<Settled, AllocError>
    requires program { IsProgram program.now }
    requires index { IsIndexOf index.now program.now.clauses }
    requires first { IsReadyTurn left first }
    requires opens { AreReady left searches.old }
    ensures comes { IfOk result (λ settled. (budget given : ℕ) → Comes program.now budget given searches.old first left → SettledComes program.now budget given searches.new settled left) }
    ensures ready { IfOk result (IsReadySettled left) }
    ensures opens { IfOk result (λ settled. AreReady left searches.new) }
{
    let mut turn = first;
    loop {
        turn = match turn {
            Turn::Found(found) => return Ok(Settled::Found(found)),
            Turn::Back => back(alloc, program, index, searches, left)?,
            Turn::Visit(goal) => {
                if !goal.literals.is_empty() {
                    return Ok(Settled::Goal(goal));
                }
                leaf(alloc, searches, goal.terms)?
            }
        };
    }
}
