ghost use Rattle.std.specs.Prelude.{◌≡◌, ◌≤◌, ◌<◌, ◌∷◌, [], ℕ, suc, List, length, Some, None, IfOk, IfSome, IsNone};
ghost use Rattle.le_terms.specs.Tree.{Tree};
ghost use Rattle.le_terms.specs.declared.program.Atom.{Atom as AnyAtom};
ghost use Rattle.le_terms.specs.declared.program.Form.TheVariants.{Pos, Calc};
ghost use Rattle.le_terms.specs.declared.program.Literal.{Literal as AnyLiteral};
ghost use Rattle.le_terms.specs.declared.program.Program.{Program as AnyProgram};
ghost use Rattle.le_machine.specs.declared.goals.Kind.TheVariants.{Searched as SearchedKind};
ghost use Rattle.le_machine.specs.Keeping.{AreReady, goal_of, kind_of, Selects, IsComputable, AreComputable, IsReady, IsOpen};
ghost use Rattle.le_machine.specs.Turns.{LeadsBy, AreUnderWay, Comes, IsReadyTurn, TakesOne, BeginsBy, CannotBegin};

use crate::equating::computed;
use crate::goals::{Found, Goal, Kind, Outcome, Search, Searches, SubSearch, Turn, Waiting};
use crate::resolving::replaced_literal;
use crate::searching::{begun, go_on, note, split};
use crate::selecting::{kind, select};
use le_base::Copied;
use le_derivations::PathStep;
use le_literals::{is_covered, is_ground_atom};
use le_proofs::{Next, Node, Nodes};
use le_terms::{Atom, Form, Literal, Program, Term};
use std::alloc::{AllocError, Global};
use std::mem;

// The visit of a goal that has literals: one of them is selected, which takes one selection.
pub(crate) fn visit(
    alloc: Global,
    program: &Program,
    searches: &mut Searches,
    left: &mut u32,
    goal: Goal,
) -> Result<Turn, AllocError>
    requires some { 0 < length goal.literals.items }
    requires ready { IsReady left.old goal }
    requires opens { AreReady left.old searches.old }
    ensures comes { IfOk result (λ turn. (budget given : ℕ) → AreUnderWay program.now budget given searches.old (Some (goal_of goal)) left.old → Comes program.now budget given searches.new turn left.new) }
    ensures ready { IfOk result (IsReadyTurn left.new) }
    ensures opens { IfOk result (λ turn. AreReady left.new searches.new) }
    ensures fewer { left.new ≤ left.old }
    ensures taken { IfOk result (λ turn. TakesOne turn left.old left.new) }
{
    if *left == 0 {
        return Ok(Turn::Found(Found::End(Next::Spent)));
    }
    let Some(place) = select(program.version, &goal.literals) else {
        let line = goal.literals[0].line;
        return Ok(Turn::Found(Found::End(Next::Floundered(line))));
    };
    *left -= 1;
    selected(alloc, searches, goal, place)
}

// The visit of a goal whose literal at this place is selected.
fn selected(
    alloc: Global,
    searches: &mut Searches,
    goal: Goal,
    place: usize,
) -> Result<Turn, AllocError>
    requires inside { place < length goal.literals.items }
    requires computable { AreComputable goal.literals.items }
    ensures comes { IfOk result (λ turn. (program : AnyProgram) (budget given left : ℕ) (literal : AnyLiteral) → Selects program goal.literals.items place literal → AreUnderWay program budget given searches.old (Some (goal_of goal)) (suc left) → Comes program budget given searches.new turn left) }
    ensures ready { IfOk result (λ turn. (left : ℕ) → IsReady left goal → IsReadyTurn left turn) }
    ensures opens { IfOk result (λ turn. (left : ℕ) → IsOpen left goal place → AreReady left searches.old → AreReady left searches.new) }
{
    match kind(&goal.literals[place]) {
        Kind::Atom => {
            split(&mut searches.inner, goal, place)?;
            Ok(Turn::Back)
        }
        Kind::Computed => computed_literal(alloc, &mut searches.inner, &goal, place),
        Kind::Searched => begin(alloc, searches, goal, place),
    }
}

// The visit of a goal whose selected literal is a computed one.
fn computed_literal(
    alloc: Global,
    search: &mut Search,
    goal: &Goal,
    place: usize,
) -> Result<Turn, AllocError>
    requires inside { place < length goal.now.literals.items }
    requires computable { AreComputable goal.now.literals.items }
    ensures leads { IfOk result (λ turn. (program : AnyProgram) (left : ℕ) (literal : AnyLiteral) (atom : AnyAtom) → Selects program goal.now.literals.items place literal → literal.form ≡ Calc atom → LeadsBy program search.old (goal_of goal.now) (suc left) search.new turn left) }
    ensures keeps { IfOk result (λ turn. search.new.keeps ≡ search.old.keeps) }
    ensures opens { IfOk result (λ turn. search.new.opens.items ≡ search.old.opens.items) }
    ensures ready { IfOk result (λ turn. (left : ℕ) → IsReady left goal.now → IsReadyTurn left turn) }
{
    let literal = &goal.literals[place];
    match &literal.form {
        Form::Calc(atom) => equation(alloc, search, goal, place, literal.line, atom),
        _ => Ok(Turn::Back),
    }
}

// The visit of a goal whose selected literal is a computed one of this line with this atom.
fn equation(
    alloc: Global,
    search: &mut Search,
    goal: &Goal,
    place: usize,
    line: u32,
    atom: &Atom,
) -> Result<Turn, AllocError>
    requires inside { place < length goal.now.literals.items }
    requires computable { IsComputable (Calc atom.now) }
    ensures leads { IfOk result (λ turn. (program : AnyProgram) (left : ℕ) (literal : AnyLiteral) → Selects program goal.now.literals.items place literal → literal.form ≡ Calc atom.now → literal.line ≡ line → LeadsBy program search.old (goal_of goal.now) (suc left) search.new turn left) }
    ensures keeps { IfOk result (λ turn. search.new.keeps ≡ search.old.keeps) }
    ensures opens { IfOk result (λ turn. search.new.opens.items ≡ search.old.opens.items) }
    ensures ready { IfOk result (λ turn. (left : ℕ) → IsReady left goal.now → IsReadyTurn left turn) }
{
    match computed(alloc, line, atom)? {
        Outcome::GoesOn(unifier) => {
            let rest = replaced_literal(alloc, goal, place, goal.next, &[], &unifier)?;
            let atom = atom.copy(alloc)?;
            let step = PathStep {
                place,
                unifier,
                node: Node::Compute { atom },
                below: Nodes::from_vec(Vec::new(alloc)),
            };
            go_on(alloc, search, Node::Computed, step)?;
            Ok(Turn::Visit(rest))
        }
        Outcome::Fails => {
            note(search, Node::Dead)?;
            Ok(Turn::Back)
        }
        Outcome::Ends(next) => Ok(Turn::Found(Found::End(next))),
    }
}

// The visit of a goal whose selected literal is a negation or a gather: the search of its atom begins, where it can.
fn begin(
    alloc: Global,
    searches: &mut Searches,
    goal: Goal,
    place: usize,
) -> Result<Turn, AllocError>
    requires inside { place < length goal.literals.items }
    ensures comes { IfOk result (λ turn. (program : AnyProgram) (budget given left : ℕ) (literal : AnyLiteral) → Selects program goal.literals.items place literal → kind_of literal.form ≡ SearchedKind → AreUnderWay program budget given searches.old (Some (goal_of goal)) (suc left) → Comes program budget given searches.new turn left) }
    ensures ready { IfOk result (λ turn. (left : ℕ) → IsReady left goal → IsReadyTurn left turn) }
    ensures opens { IfOk result (λ turn. (left : ℕ) → IsOpen left goal place → AreReady left searches.old → AreReady left searches.new) }
{
    let literal = &goal.literals[place];
    let Some((sub, first)) = sub_search(alloc, goal.next, literal)? else {
        return Ok(Turn::Found(Found::End(Next::Floundered(literal.line))));
    };
    let search = mem::replace(&mut searches.inner, begun(alloc, true));
    searches.waiting.push(Waiting {
        search,
        goal,
        place,
        sub,
    })?;
    Ok(Turn::Visit(first))
}

// What the search of the atom of a negation or a gather is for, and the goal that it begins with, or none where it
// can't be searched.
fn sub_search(
    alloc: Global,
    next: u32,
    literal: &Literal,
) -> Result<Option<(SubSearch, Goal)>, AllocError>
    ensures begins { IfOk result (λ answer. IfSome answer (λ pair. kind_of literal.now.form ≡ SearchedKind → BeginsBy next literal.now pair.0 pair.1)) }
    ensures none { IfOk result (λ answer. IsNone answer → kind_of literal.now.form ≡ SearchedKind → CannotBegin literal.now.form) }
    ensures ready { IfOk result (λ answer. IfSome answer (λ pair. (pair.1.next ≡ next) × AreComputable pair.1.literals.items)) }
{
    match &literal.form {
        Form::Neg(atom) if is_ground_atom(atom) => {
            let first = sub_goal(alloc, next, literal.line, atom, Vec::new(alloc))?;
            Ok(Some((SubSearch::Negation, first)))
        }
        Form::Gather { value, atom, .. } if is_covered(value, atom) => {
            let mut terms = Vec::with_capacity(alloc, 1)?;
            terms.push(value.copy(alloc)?)?;
            let first = sub_goal(alloc, next, literal.line, atom, terms)?;
            Ok(Some((SubSearch::Gather(Vec::new(alloc)), first)))
        }
        _ => Ok(None),
    }
}

// The goal of a search of an atom.
fn sub_goal(
    alloc: Global,
    next: u32,
    line: u32,
    atom: &Atom,
    terms: Vec<Term>,
) -> Result<Goal, AllocError>
    ensures { IfOk result (λ goal. goal_of goal ≡ record { next = next; literals = record { line = line; form = Pos atom.now } ∷ []; terms = terms.items }) }
{
    let mut literals = Vec::with_capacity(alloc, 1)?;
    literals.push(Literal {
        line,
        form: Form::Pos(atom.copy(alloc)?),
    })?;
    Ok(Goal {
        next,
        literals,
        terms,
    })
}
