ghost use Rattle.std.specs.Prelude.{◌≡◌, ◌≤◌, ◌<◌, ℕ, suc, length, slice_get, Some, IfOk, IfSome, IsNone};
ghost use Rattle.le_terms.specs.declared.program.Atom.{Atom as AnyAtom};
ghost use Rattle.le_terms.specs.declared.program.Form.TheVariants.{Calc};
ghost use Rattle.le_terms.specs.declared.program.Literal.{Literal as AnyLiteral};
ghost use Rattle.le_terms.specs.declared.program.Program.{Program as AnyProgram};
ghost use Rattle.le_goals.specs.Shown.{literal_of, shape_of, HasLiteral};
ghost use Rattle.le_goals.specs.declared.reading.Kind.TheVariants as kinds;
ghost use Rattle.le_cells.specs.Keeping.{goal_now, Selects, IsSearched, AreComputable, IsReadyAt, IsOpen, AreReady, AreFalling, marks_of};
ghost use Rattle.le_cells.specs.Turns.{LeadsBy, AreUnderWay, Comes, IsReadyTurn, TakesOne, BeginsBy, CannotBegin};

use crate::equating::computed;
use crate::goals::{Found, Outcome, Search, Searches, SubSearch, Turn, Waiting};
use crate::searching::{begun, go_past, note, split};
use crate::selecting::select;
use le_goals::{Goals, Kind, Shape};
use le_literals::{is_covered, is_ground_atom};
use le_proofs::{Next, Node};
use le_terms::{Form, Literal};
use std::alloc::{AllocError, Global};
use std::mem;

// The visit of a goal that has literals: one of them is selected, which takes one selection.
pub(crate) fn visit(
    alloc: Global,
    version: u8,
    goals: &mut Goals<'_>,
    searches: &mut Searches,
    left: &mut u32,
    goal: usize,
) -> Result<Turn, AllocError>
    requires some { 0 < length (goal_now goals.old goal).literals }
    requires ready { IsReadyAt left.old goals.old.now goal }
    requires opens { AreReady left.old goals.old.marks searches.old }
    requires version { version ≡ goals.old.program.version }
    ensures comes { IfOk result (λ turn. (budget given : ℕ) → AreUnderWay goals.old.program budget given goals.old searches.old (Some (goal_now goals.old goal)) left.old → Comes goals.old.program budget given goals.new searches.new turn left.new) }
    ensures ready { IfOk result (IsReadyTurn left.new goals.new) }
    ensures opens { IfOk result (λ turn. AreReady left.new goals.new.marks searches.new) }
    ensures fewer { left.new ≤ left.old }
    ensures taken { IfOk result (λ turn. TakesOne turn left.old left.new) }
    ensures program { goals.new.program ≡ goals.old.program }
{
    if *left == 0 {
        return Ok(Turn::Found(Found::End(Next::Spent)));
    }
    let Some(place) = select(alloc, version, goals, goal)? else {
        return Ok(Turn::Found(Found::End(Next::Floundered(line_of_first(goals, goal)))));
    };
    *left -= 1;
    selected(alloc, goals, searches, goal, place)
}

// The line of the first literal of a goal.
fn line_of_first(goals: &Goals<'_>, goal: usize) -> u32
    requires there { goal < length goals.now.now.goals }
    ensures { (literal : AnyLiteral) → slice_get (goal_now goals.now goal).literals 0 ≡ Some literal → result ≡ literal.line }
{
    match goals.shape_at(goal, 0) {
        Some(shape) => shape.line,
        None => 0,
    }
}

// The visit of a goal whose literal at this place is selected.
fn selected(
    alloc: Global,
    goals: &mut Goals<'_>,
    searches: &mut Searches,
    goal: usize,
    place: usize,
) -> Result<Turn, AllocError>
    requires literal { HasLiteral goals.old.now goal place }
    requires next { (goal_now goals.old goal).next ≡ goals.old.now.next }
    requires computable { AreComputable (goal_now goals.old goal).literals }
    requires marked { AreFalling (length goals.old.marks) (marks_of searches.old) }
    ensures comes { IfOk result (λ turn. (program : AnyProgram) (budget given left : ℕ) (literal : AnyLiteral) → Selects program (goal_now goals.old goal).literals place literal → AreUnderWay program budget given goals.old searches.old (Some (goal_now goals.old goal)) (suc left) → Comes program budget given goals.new searches.new turn left) }
    ensures ready { IfOk result (λ turn. (left : ℕ) → IsReadyAt left goals.old.now goal → IsReadyTurn left goals.new turn) }
    ensures opens { IfOk result (λ turn. (left : ℕ) → IsOpen left goals.old.now goal place → AreReady left goals.old.marks searches.old → AreReady left goals.new.marks searches.new) }
    ensures program { goals.new.program ≡ goals.old.program }
{
    let Some(shape) = goals.shape_at(goal, place) else {
        return Ok(Turn::Back);
    };
    match shape.kind {
        Kind::Atom => {
            split(goals, &mut searches.inner, goal, place)?;
            Ok(Turn::Back)
        }
        Kind::Computed => computed_literal(alloc, goals, &mut searches.inner, goal, place, shape),
        _ => begin(alloc, goals, searches, goal, place, shape.line),
    }
}

// The visit of a goal whose selected literal is a computed one of this shape.
fn computed_literal(
    alloc: Global,
    goals: &mut Goals<'_>,
    search: &mut Search,
    goal: usize,
    place: usize,
    shape: Shape,
) -> Result<Turn, AllocError>
    requires literal { HasLiteral goals.old.now goal place }
    requires next { (goal_now goals.old goal).next ≡ goals.old.now.next }
    requires computable { AreComputable (goal_now goals.old goal).literals }
    requires shape { shape ≡ shape_of (literal_of (goal_now goals.old goal) place) }
    requires kind { shape.kind ≡ kinds.Computed }
    ensures leads { IfOk result (λ turn. (left : ℕ) (program : AnyProgram) (literal : AnyLiteral) (atom : AnyAtom) → Selects program (goal_now goals.old goal).literals place literal → literal.form ≡ Calc atom → LeadsBy program goals.old search.old (goal_now goals.old goal) (suc left) goals.new search.new turn left) }
    ensures keeps { IfOk result (λ turn. search.new.keeps ≡ search.old.keeps) }
    ensures opens { IfOk result (λ turn. search.new.opens.items ≡ search.old.opens.items) }
    ensures ready { IfOk result (λ turn. (left : ℕ) → IsReadyAt left goals.old.now goal → IsReadyTurn left goals.new turn) }
    ensures program { goals.new.program ≡ goals.old.program }
    ensures marks { goals.new.marks ≡ goals.old.marks }
{
    match computed(alloc, goals, goal, place, shape.line, shape.pred)? {
        Outcome::GoesOn => {
            let rest = goals.rest(alloc, goal, place)?;
            go_past(alloc, search, Node::Computed, goal, place, Vec::new(alloc))?;
            Ok(Turn::Visit(rest))
        }
        Outcome::Fails => {
            note(search, Node::Dead)?;
            Ok(Turn::Back)
        }
        Outcome::Ends(next) => Ok(Turn::Found(Found::End(next))),
    }
}

// The visit of a goal whose selected literal is a negation or a gather of this line: the search of its atom begins, where
// it can.
fn begin(
    alloc: Global,
    goals: &mut Goals<'_>,
    searches: &mut Searches,
    goal: usize,
    place: usize,
    line: u32,
) -> Result<Turn, AllocError>
    requires literal { HasLiteral goals.old.now goal place }
    requires marked { AreFalling (length goals.old.marks) (marks_of searches.old) }
    ensures comes { IfOk result (λ turn. (program : AnyProgram) (budget given left : ℕ) (literal : AnyLiteral) → Selects program (goal_now goals.old goal).literals place literal → IsSearched literal.form → literal.line ≡ line → AreUnderWay program budget given goals.old searches.old (Some (goal_now goals.old goal)) (suc left) → Comes program budget given goals.new searches.new turn left) }
    ensures ready { IfOk result (λ turn. (left : ℕ) → IsReadyAt left goals.old.now goal → IsReadyTurn left goals.new turn) }
    ensures opens { IfOk result (λ turn. (left : ℕ) → IsOpen left goals.old.now goal place → AreReady left goals.old.marks searches.old → AreReady left goals.new.marks searches.new) }
    ensures program { goals.new.program ≡ goals.old.program }
{
    let Some(sub) = sub_search(alloc, goals.literal_at(alloc, goal, place)?) else {
        return Ok(Turn::Found(Found::End(Next::Floundered(line))));
    };
    let mark = goals.mark()?;
    let first = goals.sub_goal(goal, place)?;
    let search = mem::replace(&mut searches.inner, begun(alloc, true));
    searches.waiting.push(Waiting {
        search,
        mark,
        goal,
        place,
        sub,
    })?;
    Ok(Turn::Visit(first))
}

// What the search of the atom of a negation or a gather is for, or none where it can't be searched.
fn sub_search(alloc: Global, literal: Option<Literal>) -> Option<SubSearch>
    ensures begins { IfSome result (λ sub. (one : AnyLiteral) → literal ≡ Some one → IsSearched one.form → BeginsBy one.form sub) }
    ensures none { IsNone result → (one : AnyLiteral) → literal ≡ Some one → IsSearched one.form → CannotBegin one.form }
{
    match literal {
        None => None,
        Some(literal) => match &literal.form {
            Form::Neg(atom) if is_ground_atom(atom) => Some(SubSearch::Negation),
            Form::Gather { value, atom, .. } if is_covered(value, atom) => {
                Some(SubSearch::Gather(Vec::new(alloc)))
            }
            _ => None,
        },
    }
}
