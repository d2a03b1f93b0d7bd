ghost use Rattle.std.specs.Prelude.{◌≡◌, ◌≤◌, ◌<◌, ◌+◌, ◌-◌, ◌*◌, ◌^◌, ◌∷◌, ◌++◌, [], true, ℕ, suc, length, map, take, reverse, get_or, slice_get, List, Some, None, IfOk, IfSome};
ghost use Rattle.std.specs.List.{AllByRecursion};
ghost use Rattle.le_base.specs.declared.stop.FoldKind.{FoldKind};
ghost use Rattle.le_builtins.specs.Compute.{argument};
ghost use Rattle.le_terms.specs.Tree.{Tree};
ghost use Rattle.le_terms.specs.Program.{IsProgram, form_atom};
ghost use Rattle.le_terms.specs.declared.program.Clause.{Clause as AnyClause};
ghost use Rattle.le_terms.specs.declared.program.Atom.{Atom as AnyAtom};
ghost use Rattle.le_terms.specs.declared.program.Form.TheVariants.{Pos, Neg, Gather};
ghost use Rattle.le_terms.specs.declared.program.Literal.{Literal as AnyLiteral};
ghost use Rattle.le_terms.specs.declared.program.Program.{Program as AnyProgram};
ghost use Rattle.le_proofs.specs.declared.next.Next.TheVariants.{Done};
ghost use Rattle.le_proofs.specs.Goals.{Goal as AnyGoal, sub_goal, is_ground_atom};
ghost use Rattle.le_proofs.specs.Proofs.{Leaf};
ghost use Rattle.le_proofs.specs.Search.{tree, value_of, is_covered};
ghost use Rattle.le_derivations.specs.Walks.{walk_of};
ghost use Rattle.le_index.specs.Listing.{IsIndexOf};
ghost use Rattle.le_goals.specs.Shown.{HasLiteral, literal_of};
ghost use Rattle.le_cells.specs.declared.goals.Turn.TheVariants.{Visit};
ghost use Rattle.le_cells.specs.Keeping.{goal_now, goal_of, waiting_goal, snapshot_at, at_mark, children_from, Selects, IsFor, IsWalk, Walks, IsUnderWay, IsReadyAt, IsOpen, AreOpen, CanWait, CanWaitAll, AreReady, AreComputable, AreFalling, open_marks, waiting_marks};
ghost use Rattle.le_cells.specs.Turns.{LeadsBy, WalksBy, AreUnderWay, Comes, IsReadyTurn, OpensBy, GoOn, IsChild, IsChildReady, IsReadyClause, Enters, SplitIs, weight, opens_weight, turn_weight};

use crate::gathering::gathered;
use crate::goals::{Found, OpenGoal, Outcome, Search, Searches, SubSearch, Turn, Waiting};
use crate::searching::{go_past, note, note_all, note_present};
use le_base::Copied;
use le_goals::{Goals, Kind};
use le_index::Index;
use le_paths::CellStep;
use le_proofs::{Next, Node, Nodes};
use le_terms::{Clause, Sym, Term};
use std::alloc::{AllocError, Global};
use std::mem;

// A clause that makes a child of a goal, and the child's number.
#[derive(Clone, Copy)]
struct Child {
    // The clause's number, counted from 1.
    clause: u32,
    // How many literals its body has.
    count: u32,
    // The number of the resolvent.
    goal: usize,
}

// Going back to the newest open goal of the innermost search: to its next child. A search without one is done.
pub(crate) fn back(
    alloc: Global,
    clauses: &[Clause],
    index: &Index,
    goals: &mut Goals<'_>,
    searches: &mut Searches,
    left: u32,
) -> Result<Turn, AllocError>
    requires program { IsProgram goals.old.program }
    requires clauses { clauses.now ≡ goals.old.program.clauses }
    requires index { IsIndexOf index.now clauses.now }
    requires opens { AreReady left goals.old.marks searches.old }
    ensures comes { IfOk result (λ turn. (budget given : ℕ) → AreUnderWay goals.old.program budget given goals.old searches.old None left → Comes goals.old.program budget given goals.new searches.new turn left) }
    ensures ready { IfOk result (IsReadyTurn left goals.new) }
    ensures opens { IfOk result (λ turn. AreReady left goals.new.marks searches.new) }
    ensures lighter { IfOk result (λ turn. turn_weight turn + weight (length clauses.now) searches.new < 1 + weight (length clauses.now) searches.old) }
    ensures program { goals.new.program ≡ goals.old.program }
{
    if let Some(pending) = searches.inner.opens.pop() {
        return next_child(
            alloc,
            clauses,
            index,
            goals,
            &mut searches.inner,
            pending,
            left,
        );
    }
    match searches.waiting.pop() {
        None => Ok(Turn::Found(Found::End(Next::Done))),
        Some(waiting) => search_done(alloc, goals, &mut searches.inner, waiting),
    }
}

// Going back to an open goal: its next child is visited, and it is left open. Where it has none, it goes.
fn next_child(
    alloc: Global,
    clauses: &[Clause],
    index: &Index,
    goals: &mut Goals<'_>,
    search: &mut Search,
    pending: OpenGoal,
    left: u32,
) -> Result<Turn, AllocError>
    requires program { IsProgram goals.old.program }
    requires clauses { clauses.now ≡ goals.old.program.clauses }
    requires index { IsIndexOf index.now clauses.now }
    requires pending { IsOpen left (snapshot_at goals.old.marks pending.mark) pending.goal pending.place }
    requires marked { (others : List ℕ) × AreFalling (length goals.old.marks) (pending.mark ∷ open_marks search.old.opens.items others) }
    ensures comes { IfOk result (λ turn. (root : AnyGoal) (total less : ℕ) (found : List Leaf) → IsWalk goals.old.program goals.old search.old.keeps search.old.path.items search.old.nodes.items (pending ∷ reverse search.old.opens.items) root total None less found → WalksBy goals.old.program goals.new search.new root total turn less found) }
    ensures keeps { IfOk result (λ turn. search.new.keeps ≡ search.old.keeps) }
    ensures ready { IfOk result (IsReadyTurn left goals.new) }
    ensures opens { IfOk result (λ turn. OpensBy pending search.old.opens.items turn search.new.opens.items) }
    ensures marks { goals.new.marks ≡ take (pending.mark + 1) goals.old.marks }
    ensures lighter { IfOk result (λ turn. turn_weight turn + opens_weight (length clauses.now) search.new.opens.items < 1 + ((2 * (length clauses.now - pending.from) + 2) + opens_weight (length clauses.now) search.old.opens.items)) }
    ensures program { goals.new.program ≡ goals.old.program }
{
    let mut tried = pending.from;
    match next_resolvent(alloc, clauses, index, goals, pending, &mut tried)? {
        None => {
            count_children(search, pending.split, pending.children);
            Ok(Turn::Back)
        }
        Some(child) => enter(alloc, search, pending, tried, child),
    }
}

// Puts the number of children into the node of a goal that isn't open any more.
fn count_children(search: &mut Search, split: usize, children: u32)
    ensures same { (search.new.keeps ≡ search.old.keeps) × (search.new.path.items ≡ search.old.path.items) × (search.new.opens.items ≡ search.old.opens.items) }
    ensures nodes { SplitIs search.old.keeps split children search.old.nodes.items search.new.nodes.items }
{
    if search.keeps && split < search.nodes.len() {
        search.nodes[split] = Node::Split { count: children };
    }
}

// The visit of a child of an open goal, after which the clauses were tried before a place.
fn enter(
    alloc: Global,
    search: &mut Search,
    pending: OpenGoal,
    tried: usize,
    child: Child,
) -> Result<Turn, AllocError>
    ensures turn { IfOk result (λ turn. turn ≡ Visit child.goal) }
    ensures entered { IfOk result (λ turn. Enters search.old search.new pending tried child) }
    ensures lighter { IfOk result (λ turn. (clauses : ℕ) → pending.from < tried → tried ≤ clauses → 2 + opens_weight clauses search.new.opens.items < 1 + ((2 * (clauses - pending.from) + 2) + opens_weight clauses search.old.opens.items)) }
{
    // A goal has no more children than there are clauses.
    let Some(children) = pending.children.checked_add(1) else {
        return Err(AllocError);
    };
    search.path.truncate(pending.steps);
    search.path.push(CellStep {
        goal: pending.goal,
        place: pending.place,
        clause: child.clause,
        count: child.count,
        below: Nodes::from_vec(Vec::new(alloc)),
    })?;
    note(
        search,
        Node::Branch {
            clause: child.clause,
        },
    )?;
    search.opens.push(OpenGoal {
        from: tried,
        children,
        ..pending
    })?;
    Ok(Turn::Visit(child.goal))
}

// The resolvent of an open goal by the first clause from a place on whose head unifies with its atom.
fn next_resolvent(
    alloc: Global,
    clauses: &[Clause],
    index: &Index,
    goals: &mut Goals<'_>,
    pending: OpenGoal,
    from: &mut usize,
) -> Result<Option<Child>, AllocError>
    requires program { IsProgram goals.old.program }
    requires clauses { clauses.now ≡ goals.old.program.clauses }
    requires index { IsIndexOf index.now clauses.now }
    requires mark { pending.mark < length goals.old.marks }
    requires pending { HasLiteral (snapshot_at goals.old.marks pending.mark) pending.goal pending.place }
    requires fits { (snapshot_at goals.old.marks pending.mark).next + 64 < 2 ^ 32 }
    requires next { (goal_of goals.old.marks pending).next ≡ (snapshot_at goals.old.marks pending.mark).next }
    requires computable { AreComputable (goal_of goals.old.marks pending).literals }
    ensures goes_on { IfOk result (λ answer. (literal : AnyLiteral) (atom : AnyAtom) → literal ≡ get_or (goal_of goals.old.marks pending).literals pending.place literal → literal.form ≡ Pos atom → GoOn (snapshot_at goals.old.marks pending.mark) goals.new.now (children_from (goal_of goals.old.marks pending) pending.place literal atom clauses.now from.old) answer (children_from (goal_of goals.old.marks pending) pending.place literal atom clauses.now from.new)) }
    ensures next { IfOk result (λ answer. IfSome answer (λ child. IsChildReady (snapshot_at goals.old.marks pending.mark).next goals.new.now child.goal)) }
    ensures tried { IfOk result (λ answer. IfSome answer (λ child. (from.old < from.new) × (from.new ≤ length clauses.now))) }
    ensures marks { goals.new.marks ≡ take (pending.mark + 1) goals.old.marks }
    ensures program { goals.new.program ≡ goals.old.program }
{
    goals.undo_to(pending.mark);
    let Some(shape) = goals.shape_at(pending.goal, pending.place) else {
        return Ok(None);
    };
    let key = goals.key_at(pending.goal, pending.place);
    while *from < clauses.len() {
        let Some(number) = index.candidate(shape.pred, key, *from as u32 + 1) else {
            return Ok(None);
        };
        *from = number as usize;
        if let Some(child) = child_by(alloc, clauses, goals, pending, number)? {
            return Ok(Some(child));
        }
        goals.undo_to(pending.mark);
    }
    Ok(None)
}

// The child of an open goal by the clause of a number, which is counted from 1.
fn child_by(
    alloc: Global,
    clauses: &[Clause],
    goals: &mut Goals<'_>,
    pending: OpenGoal,
    number: u32,
) -> Result<Option<Child>, AllocError>
    requires literal { HasLiteral goals.old.now pending.goal pending.place }
    requires clauses { clauses.now ≡ goals.old.program.clauses }
    requires number { (0 < number) × (number ≤ length clauses.now) }
    requires ready { AllByRecursion IsReadyClause clauses.now }
    requires few { goals.old.now.next + 64 < 2 ^ 32 }
    ensures child { IfOk result (λ child. (clause : AnyClause) → slice_get clauses.now (number - 1) ≡ Some clause → IsChild goals.old.now goals.new.now pending.goal pending.place (form_atom (literal_of (goal_now goals.old pending.goal) pending.place).form) number clause child) }
    ensures marks { goals.new.marks ≡ goals.old.marks }
    ensures program { goals.new.program ≡ goals.old.program }
{
    let place = number as usize - 1;
    let count = clauses[place].body.as_slice().len() as u32;
    match goals.resolve(alloc, pending.goal, pending.place, place)? {
        None => Ok(None),
        Some(goal) => Ok(Some(Child {
            clause: number,
            count,
            goal,
        })),
    }
}

// Going back to a search that waited for one that is done: a negation holds, and a gather's values are folded.
fn search_done(
    alloc: Global,
    goals: &mut Goals<'_>,
    inner: &mut Search,
    waiting: Waiting,
) -> Result<Turn, AllocError>
    requires mark { waiting.mark < length goals.old.marks }
    requires inside { HasLiteral (snapshot_at goals.old.marks waiting.mark) waiting.goal waiting.place }
    requires next { (waiting_goal goals.old.marks waiting).next ≡ (snapshot_at goals.old.marks waiting.mark).next }
    requires marked { (others : List ℕ) × AreFalling waiting.mark (open_marks waiting.search.opens.items others) }
    ensures comes { IfOk result (λ turn. (program : AnyProgram) (left spare : ℕ) (literal : AnyLiteral) (atom : AnyAtom) (terms : List Tree) (found : List Leaf) → inner.old.opens.items ≡ [] → inner.old.keeps ≡ true → Selects program (waiting_goal goals.old.marks waiting).literals waiting.place literal → IsFor waiting.sub literal.form atom terms found
        → Walks program goals.old inner.old (sub_goal (waiting_goal goals.old.marks waiting) literal.line atom terms) spare None left found
        → LeadsBy program (at_mark goals.old waiting.mark) waiting.search (waiting_goal goals.old.marks waiting) (suc spare) goals.new inner.new turn left) }
    ensures keeps { IfOk result (λ turn. inner.new.keeps ≡ waiting.search.keeps) }
    ensures opens { IfOk result (λ turn. inner.new.opens.items ≡ waiting.search.opens.items) }
    ensures ready { IfOk result (λ turn. (left : ℕ) → IsReadyAt left (snapshot_at goals.old.marks waiting.mark) waiting.goal → IsReadyTurn left goals.new turn) }
    ensures lighter { IfOk result (λ turn. turn_weight turn ≤ 2) }
    ensures marks { goals.new.marks ≡ take (waiting.mark + 1) goals.old.marks }
    ensures program { goals.new.program ≡ goals.old.program }
{
    let Waiting {
        search,
        mark,
        goal,
        place,
        sub,
    } = waiting;
    goals.undo_to(mark);
    let done = mem::replace(inner, search);
    match sub {
        SubSearch::Negation => lacking(alloc, goals, inner, goal, place, done.nodes),
        SubSearch::Gather(values) => folded(alloc, goals, inner, goal, place, &values, done.nodes),
    }
}

// The negation at this place holds: the tree of its atom has these nodes.
fn lacking(
    alloc: Global,
    goals: &mut Goals<'_>,
    search: &mut Search,
    goal: usize,
    place: usize,
    nodes: Vec<Node>,
) -> Result<Turn, AllocError>
    requires literal { HasLiteral goals.old.now goal place }
    ensures leads { IfOk result (λ turn. (program : AnyProgram) (spare left : ℕ) (literal : AnyLiteral) (atom : AnyAtom) → Selects program (goal_now goals.old goal).literals place literal → literal.form ≡ Neg atom → is_ground_atom atom ≡ true → walk_of (tree program (sub_goal (goal_now goals.old goal) literal.line atom []) spare) ≡ record { leaves = []; nodes = nodes.items; ending = Done; left = left } → LeadsBy program goals.old search.old (goal_now goals.old goal) (suc spare) goals.new search.new turn left) }
    ensures keeps { IfOk result (λ turn. search.new.keeps ≡ search.old.keeps) }
    ensures opens { IfOk result (λ turn. search.new.opens.items ≡ search.old.opens.items) }
    ensures ready { IfOk result (λ turn. (left : ℕ) → IsReadyAt left goals.old.now goal → IsReadyTurn left goals.new turn) }
    ensures lighter { IfOk result (λ turn. turn_weight turn ≤ 2) }
    ensures marks { goals.new.marks ≡ goals.old.marks }
    ensures program { goals.new.program ≡ goals.old.program }
{
    let rest = goals.rest(alloc, goal, place)?;
    go_past(alloc, search, Node::Lacking, goal, place, nodes)?;
    Ok(Turn::Visit(rest))
}

// The values of the gather at this place are folded: the tree of its atom has these nodes.
fn folded(
    alloc: Global,
    goals: &mut Goals<'_>,
    search: &mut Search,
    goal: usize,
    place: usize,
    values: &[Term],
    nodes: Vec<Node>,
) -> Result<Turn, AllocError>
    requires literal { HasLiteral goals.old.now goal place }
    requires next { (goal_now goals.old goal).next ≡ goals.old.now.next }
    ensures leads { IfOk result (λ turn. (program : AnyProgram) (spare left : ℕ) (literal : AnyLiteral) (kind : FoldKind) (target value : Tree) (atom : AnyAtom) (found : List Leaf) → Selects program (goal_now goals.old goal).literals place literal → literal.form ≡ Gather kind target value atom → is_covered value atom ≡ true → values.now ≡ map value_of found → walk_of (tree program (sub_goal (goal_now goals.old goal) literal.line atom (value ∷ [])) spare) ≡ record { leaves = found; nodes = nodes.items; ending = Done; left = left } → LeadsBy program goals.old search.old (goal_now goals.old goal) (suc spare) goals.new search.new turn left) }
    ensures keeps { IfOk result (λ turn. search.new.keeps ≡ search.old.keeps) }
    ensures opens { IfOk result (λ turn. search.new.opens.items ≡ search.old.opens.items) }
    ensures ready { IfOk result (λ turn. (left : ℕ) → IsReadyAt left goals.old.now goal → IsReadyTurn left goals.new turn) }
    ensures lighter { IfOk result (λ turn. turn_weight turn ≤ 2) }
    ensures marks { goals.new.marks ≡ goals.old.marks }
    ensures program { goals.new.program ≡ goals.old.program }
{
    let Some(shape) = goals.shape_at(goal, place) else {
        return Ok(Turn::Back);
    };
    let Kind::Gather(kind) = shape.kind else {
        return Ok(Turn::Back);
    };
    match gathered(alloc, goals, goal, place, shape.line, kind, values)? {
        Outcome::GoesOn => {
            let rest = goals.rest(alloc, goal, place)?;
            go_past(alloc, search, Node::Gathered, goal, place, nodes)?;
            Ok(Turn::Visit(rest))
        }
        Outcome::Fails => {
            note_all(alloc, search, Node::Ungathered, &nodes)?;
            Ok(Turn::Back)
        }
        Outcome::Ends(next) => Ok(Turn::Found(Found::End(next))),
    }
}

// The visit of a goal without literals: a success leaf. A negation's search ends there, and a gather's notes the value.
pub(crate) fn leaf(
    alloc: Global,
    goals: &Goals<'_>,
    searches: &mut Searches,
    goal: usize,
) -> Result<Turn, AllocError>
    ensures comes { IfOk result (λ turn. (program : AnyProgram) (budget given left : ℕ) → (goal_now goals.now goal).literals ≡ [] → AreUnderWay program budget given goals.now searches.old (Some (goal_now goals.now goal)) left → Comes program budget given goals.now searches.new turn left) }
    ensures ready { IfOk result (λ turn. (left : ℕ) → IsReadyTurn left goals.now turn) }
    ensures opens { IfOk result (λ turn. (left : ℕ) → AreReady left goals.now.marks searches.old → AreReady left goals.now.marks searches.new) }
    ensures lighter { IfOk result (λ turn. (clauses : ℕ) → turn_weight turn + weight clauses searches.new < 2 + weight clauses searches.old) }
{
    match searches.waiting.pop() {
        None => Ok(Turn::Found(Found::Leaf(goal))),
        Some(waiting) => sub_leaf(alloc, goals, searches, waiting, goal),
    }
}

// A success leaf in the search of an atom.
fn sub_leaf(
    alloc: Global,
    goals: &Goals<'_>,
    searches: &mut Searches,
    waiting: Waiting,
    leaf: usize,
) -> Result<Turn, AllocError>
    ensures comes { IfOk result (λ turn. (program : AnyProgram) (budget given left : ℕ) → (goal_now goals.now leaf).literals ≡ [] → IsUnderWay program budget given goals.now (waiting ∷ reverse searches.old.waiting.items) searches.old.inner (Some (goal_now goals.now leaf)) left → Comes program budget given goals.now searches.new turn left) }
    ensures ready { IfOk result (λ turn. (left : ℕ) → IsReadyTurn left goals.now turn) }
    ensures opens { IfOk result (λ turn. (left : ℕ) → CanWait left goals.now.marks waiting → AreFalling (length goals.now.marks) (open_marks searches.old.inner.opens.items (waiting_marks (waiting ∷ reverse searches.old.waiting.items))) → AreOpen left goals.now.marks searches.old.inner.opens.items → CanWaitAll left goals.now.marks searches.old.waiting.items → AreReady left goals.now.marks searches.new) }
    ensures lighter { IfOk result (λ turn. (clauses : ℕ) → turn_weight turn + weight clauses searches.new < 2 + ((2 + opens_weight clauses waiting.search.opens.items) + weight clauses searches.old)) }
{
    let Waiting {
        search,
        mark,
        goal,
        place,
        sub,
    } = waiting;
    match sub {
        SubSearch::Negation => {
            let found = mem::replace(&mut searches.inner, search);
            note_present(alloc, goals, &mut searches.inner, &found.path)?;
            Ok(Turn::Back)
        }
        SubSearch::Gather(values) => {
            let terms = goals.terms_at(alloc, leaf)?;
            let sub = SubSearch::Gather(with_value(alloc, values, &terms)?);
            note(&mut searches.inner, Node::Success)?;
            searches.waiting.push(Waiting {
                search,
                mark,
                goal,
                place,
                sub,
            })?;
            Ok(Turn::Back)
        }
    }
}

// Values with the first of these terms after them.
fn with_value(alloc: Global, values: Vec<Term>, terms: &[Term]) -> Result<Vec<Term>, AllocError>
    ensures { IfOk result (λ found. found.items ≡ values.items ++ argument terms.now 0 ∷ []) }
{
    let mut found = values;
    if terms.is_empty() {
        found.push(Term::leaf(alloc, Sym::Nil)?)?;
    } else {
        found.push(terms[0].copy(alloc)?)?;
    }
    Ok(found)
}
