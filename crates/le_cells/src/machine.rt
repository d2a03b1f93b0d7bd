ghost use Rattle.std.specs.Prelude.{◌≡◌, ◌≤◌, ℕ, Some, IfOk, OnOk, OnErr, IsErr};
ghost use Rattle.le_terms.specs.Program.{IsProgram};
ghost use Rattle.le_index.specs.Listing.{IsIndexOf};
ghost use Rattle.le_cells.specs.declared.phase.Phase.TheVariants.{Told, Lost};
ghost use Rattle.le_proofs.specs.declared.next.Next.TheVariants.{Answer};
ghost use Rattle.le_cells.specs.State.{started, next_answer, told, lost, last_values, last_derivation, Selections, Stands, CanAdvance, Advances, AdvancesFor};

use crate::finding::find;
use crate::goals::{Found, Searches, Turn};
use crate::phase::Phase;
use crate::searching::begun;
use le_goals::{Goals, QUERY};
use le_index::Index;
use le_paths::derivation_along;
use le_proofs::{Derivation, Next};
use le_terms::{Program, Term, canonical};
use std::alloc::{AllocError, Global};
use std::marker::Model;

/// The search of a program, which gives one answer after another. It visits the program's search tree
/// depth first and from left to right, tries clauses in their order, and takes one selection from its
/// budget for each literal that it selects.
#[derive(Drop)]
pub struct Machine<'p> {
    program: &'p Program,
    index: Index,
    budget: u32,
    given: u64,
    phase: Phase,
    left: u32,
    goals: Goals<'p>,
    searches: Searches,
    // The number of the last answer's goal.
    leaf: usize,
}

impl<'p> Model for Machine<'p> {
    ghost use Rattle.std.specs.Coded.{codes};
    ghost use Rattle.le_terms.specs.Tree.{tree_code};
    ghost use Rattle.le_cells.specs.State.{Shown, IsMachine};

    ghost Value = { Shown };

    ghost coded = { Prim.hlevel (codes, tree_code) };

    ghost view = { λ m. record { program = m.program.now; budget = m.budget; given = m.given; phase = m.phase } };

    ghost invariant = { λ m. IsMachine m.program.now m.index m.budget m.given m.phase m.left m.goals m.searches m.leaf };
}

impl<'p> Machine<'p> {
    /// The search of a well formed program with a budget of 1 to 1,000,000 selections.
    pub fn start(
        alloc: Global,
        program: &'p Program,
        budget: u32,
    ) -> Result<Machine<'p>, AllocError>
        requires program { IsProgram program.now }
        requires some { 1 ≤ budget }
        requires most { budget ≤ 1000000 }
        ensures { IfOk result (λ machine. machine ≡ started program.now budget) }
    {
        Ok(Machine {
            program,
            index: Index::make(alloc, program.clauses.as_slice())?,
            budget,
            given: 0,
            phase: Phase::Fresh,
            left: budget,
            goals: Goals::start(alloc, program)?,
            searches: Searches {
                inner: begun(alloc, false),
                waiting: Vec::new(alloc),
            },
            leaf: 0,
        })
    }

    /// The next answer: `Answer` while the search has answers that weren't given, in their order, and
    /// then how it ends. After an end it repeats that end. Where memory runs out, each
    /// further call answers that too.
    pub fn next(&mut self, alloc: Global) -> Result<Next, AllocError>
        ensures next { IfOk result (λ next. next ≡ next_answer self.old) }
        ensures machine { OnOk result (self.new ≡ told self.old) }
        ensures memory { OnErr result (self.new ≡ lost self.old) }
        ensures for_good { self.old.phase ≡ Lost → IsErr result }
    {
        let found = advance(
            alloc,
            self.program,
            &self.index,
            self.phase,
            &mut self.goals,
            &mut self.searches,
            &mut self.left,
        );
        match found {
            Ok(Found::Leaf(number)) => {
                self.leaf = number;
                self.given += 1;
                self.phase = Phase::Told(Next::Answer);
                Ok(Next::Answer)
            }
            Ok(Found::End(next)) => {
                self.phase = Phase::Told(next);
                Ok(next)
            }
            Err(error) => {
                self.phase = Phase::Lost;
                Err(error)
            }
        }
    }

    /// The values of the last answer: the terms of the variables that are asked for, with the variables
    /// in them numbered from 1 by first occurrence over all of them. The last call of `next` answered
    /// `Answer`.
    pub fn values(&self, alloc: Global) -> Result<Vec<Term>, AllocError>
        requires { self.now.phase ≡ Told Answer }
        ensures { IfOk result (λ values. last_values self.now ≡ Some values.items) }
    {
        canonical(alloc, &self.goals.terms_at(alloc, self.leaf)?)
    }

    /// The derivation of the last answer, with the variables numbered from 1 by first occurrence, first in its
    /// values and then in its nodes. The last call of `next` answered `Answer`.
    pub fn derivation(&self, alloc: Global) -> Result<Derivation, AllocError>
        requires { self.now.phase ≡ Told Answer }
        ensures { IfOk result (λ derivation. last_derivation self.now ≡ Some derivation.nodes) }
    {
        derivation_along(alloc, &self.goals, &self.searches.inner.path, self.leaf)
    }

    /// How many selections the search made up to the answer or the end that the last call of `next`
    /// gave, and 0 before the first. Where memory ran out it is some number.
    pub fn selections(&self) -> u32
        ensures { Selections self.now self.now.phase result }
    {
        self.budget - self.left
    }
}

// What the search finds next: after an answer or at the start a leaf or the end, after an end that end,
// and after it ran out of memory that again.
fn advance(
    alloc: Global,
    program: &Program,
    index: &Index,
    phase: Phase,
    goals: &mut Goals<'_>,
    searches: &mut Searches,
    left: &mut u32,
) -> Result<Found, AllocError>
    requires program { IsProgram program.now }
    requires index { IsIndexOf index.now program.now.clauses }
    requires cells { goals.old.program ≡ program.now }
    requires ready { CanAdvance phase program.now left.old goals.old searches.old }
    ensures found { IfOk result (λ found. (budget given leaf : ℕ) → budget ≤ 1000000 → Stands phase program.now budget given left.old goals.old searches.old leaf → Advances program.now budget given found left.new goals.new searches.new) }
    ensures fewer { left.new ≤ left.old }
    ensures opens { IfOk result (λ found. AdvancesFor found left.new goals.new searches.new) }
    ensures same { goals.new.program ≡ goals.old.program }
    ensures for_good { phase ≡ Lost → IsErr result }
{
    match phase {
        Phase::Fresh => find(
            alloc,
            program,
            index,
            goals,
            searches,
            left,
            Turn::Visit(QUERY),
        ),
        Phase::Told(Next::Answer) => {
            find(alloc, program, index, goals, searches, left, Turn::Back)
        }
        Phase::Told(next) => Ok(Found::End(next)),
        Phase::Lost => Err(AllocError),
    }
}
