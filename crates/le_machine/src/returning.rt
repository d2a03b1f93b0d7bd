ghost use Rattle.std.specs.Prelude.{◌≡◌, ◌≤◌, ◌<◌, ◌+◌, ◌-◌, ◌*◌, ◌^◌, ◌∷◌, ◌++◌, [], true, ℕ, suc, length, map, reverse, get_or, List, Some, None, IfOk, OnOk, IfSome};
ghost use Rattle.std.specs.List.{AllByRecursion};
ghost use Rattle.le_base.specs.declared.stop.FoldKind.{FoldKind};
ghost use Rattle.le_builtins.specs.Compute.{argument};
ghost use Rattle.le_terms.specs.Tree.{Tree};
ghost use Rattle.le_terms.specs.Program.{IsProgram};
ghost use Rattle.le_terms.specs.declared.program.Atom.{Atom as AnyAtom};
ghost use Rattle.le_terms.specs.declared.program.Form.TheVariants.{Pos, Neg, Gather};
ghost use Rattle.le_terms.specs.declared.program.Literal.{Literal as AnyLiteral};
ghost use Rattle.le_terms.specs.declared.program.Program.{Program as AnyProgram};
ghost use Rattle.le_proofs.specs.declared.node.Node.TheVariants.{Use, Gather as GatherNode};
ghost use Rattle.std.specs.Prelude.{option_map};
ghost use Rattle.le_proofs.specs.declared.next.Next.TheVariants.{Done};
ghost use Rattle.le_proofs.specs.Goals.{Goal as AnyGoal, sub_goal, is_ground_atom};
ghost use Rattle.le_proofs.specs.Proofs.{Leaf};
ghost use Rattle.le_proofs.specs.Search.{tree, value_of, is_covered, folding, goes_on};
ghost use Rattle.le_derivations.specs.Walks.{walk_of};
ghost use Rattle.le_index.specs.Listing.{IsIndexOf};
ghost use Rattle.le_machine.specs.Keeping.{AreReady, goal_of, put_at, children_from, Selects, IsFor, IsWalk, Walks, IsUnderWay, IsReady, IsOpen, AreOpen, CanWait, AreComputable};
ghost use Rattle.le_machine.specs.Turns.{Leads, LeadsBy, WalksBy, AreUnderWay, Comes, IsReadyTurn, GoOn, IsReadyClause, SplitIs, weight, opens_weight, waiting_weight, turn_weight};

use crate::gathering::gathered;
use crate::goals::{
    Child, Found, Goal, OpenGoal, Outcome, Search, Searches, SubSearch, Turn, Waiting,
};
use crate::resolving::{replaced_literal, resolve};
use crate::searching::{go_on, note, note_all, note_present};
use le_base::Copied;
use le_derivations::PathStep;
use le_index::{Index, key_of};
use le_proofs::{Next, Node, Nodes};
use le_subst::Subst;
use le_terms::{Atom, Clause, Form, Program, Sym, Term};
use std::alloc::{AllocError, Global};
use std::mem;

// Going back to the newest open goal of the innermost search: to its next child. A search without one is done.
pub(crate) fn back(
    alloc: Global,
    program: &Program,
    index: &Index,
    searches: &mut Searches,
    left: u32,
) -> Result<Turn, AllocError>
    requires program { IsProgram program.now }
    requires index { IsIndexOf index.now program.now.clauses }
    requires opens { AreReady left searches.old }
    ensures comes { IfOk result (λ turn. (budget given : ℕ) → AreUnderWay program.now budget given searches.old None left → Comes program.now budget given searches.new turn left) }
    ensures ready { IfOk result (IsReadyTurn left) }
    ensures opens { IfOk result (λ turn. AreReady left searches.new) }
    ensures lighter { IfOk result (λ turn. turn_weight turn + weight (length program.now.clauses) searches.new < 1 + weight (length program.now.clauses) searches.old) }
{
    if let Some(pending) = searches.inner.opens.pop() {
        return next_child(alloc, program, index, &mut searches.inner, pending, left);
    }
    match searches.waiting.pop() {
        None => Ok(Turn::Found(Found::End(Next::Done))),
        Some(waiting) => search_done(alloc, &mut searches.inner, waiting),
    }
}

// Going back to an open goal: its next child is visited, and it is left open. Where it has none, it goes.
fn next_child(
    alloc: Global,
    program: &Program,
    index: &Index,
    search: &mut Search,
    pending: OpenGoal,
    left: u32,
) -> Result<Turn, AllocError>
    requires program { IsProgram program.now }
    requires index { IsIndexOf index.now program.now.clauses }
    requires pending { IsOpen left pending.goal pending.place }
    requires opens { AreOpen left search.old.opens.items }
    ensures comes { IfOk result (λ turn. (root : AnyGoal) (total less : ℕ) (found : List Leaf) → IsWalk program.now search.old.keeps search.old.path.items search.old.nodes.items (pending ∷ reverse search.old.opens.items) root total None less found → WalksBy program.now search.new root total turn less found) }
    ensures keeps { IfOk result (λ turn. search.new.keeps ≡ search.old.keeps) }
    ensures ready { IfOk result (IsReadyTurn left) }
    ensures opens { IfOk result (λ turn. AreOpen left search.new.opens.items) }
    ensures lighter { IfOk result (λ turn. turn_weight turn + opens_weight (length program.now.clauses) search.new.opens.items < 1 + ((2 * (length program.now.clauses - pending.from) + 2) + opens_weight (length program.now.clauses) search.old.opens.items)) }
{
    let mut tried = pending.from;
    let child = child_by_form(
        alloc,
        program,
        index,
        &pending.goal,
        pending.place,
        &mut tried,
    )?;
    let Some((node, child)) = child else {
        count_children(search, pending.split, pending.children);
        return Ok(Turn::Back);
    };
    enter(alloc, search, pending, tried, node, child)
}

// Puts the number of children into the node of a goal that isn't open any more.
fn count_children(search: &mut Search, split: usize, children: u32)
    ensures same { (search.new.keeps ≡ search.old.keeps) × (search.new.path.items ≡ search.old.path.items) × (search.new.opens.items ≡ search.old.opens.items) }
    ensures nodes { SplitIs search.old.keeps split children search.old.nodes.items search.new.nodes.items }
{
    if search.keeps && split < search.nodes.len() {
        search.nodes[split] = Node::Split { count: children };
    }
}

// The visit of a child of an open goal, by a clause with this node, after which the clauses were tried before a place.
fn enter(
    alloc: Global,
    search: &mut Search,
    pending: OpenGoal,
    tried: usize,
    node: Node,
    child: Child,
) -> Result<Turn, AllocError>
    ensures comes { IfOk result (λ turn. (program : AnyProgram) (literal : AnyLiteral) (atom : AnyAtom) (root : AnyGoal) (total less : ℕ) (found : List Leaf) → pending.place < length pending.goal.literals.items → literal ≡ get_or pending.goal.literals.items pending.place literal → literal.form ≡ Pos atom → node ≡ Use child.clause child.count atom
        → GoOn (children_from (goal_of pending.goal) pending.place literal atom program.clauses pending.from) (Some child) (children_from (goal_of pending.goal) pending.place literal atom program.clauses tried)
        → IsWalk program search.old.keeps search.old.path.items search.old.nodes.items (pending ∷ reverse search.old.opens.items) root total None less found → WalksBy program search.new root total turn less found) }
    ensures keeps { IfOk result (λ turn. search.new.keeps ≡ search.old.keeps) }
    ensures ready { IfOk result (λ turn. (left : ℕ) → IsReady left child.goal → IsReadyTurn left turn) }
    ensures opens { IfOk result (λ turn. (left : ℕ) → IsOpen left pending.goal pending.place → AreOpen left search.old.opens.items → AreOpen left search.new.opens.items) }
    ensures lighter { IfOk result (λ turn. (clauses : ℕ) → pending.from < tried → tried ≤ clauses → turn_weight turn + opens_weight clauses search.new.opens.items < 1 + ((2 * (clauses - pending.from) + 2) + opens_weight clauses search.old.opens.items)) }
{
    // A goal has no more children than there are clauses.
    let Some(children) = pending.children.checked_add(1) else {
        return Err(AllocError);
    };
    search.path.truncate(pending.steps);
    search.path.push(PathStep {
        place: pending.place,
        unifier: child.unifier,
        node,
        below: Nodes::from_vec(Vec::new(alloc)),
    })?;
    note(
        search,
        Node::Branch {
            clause: child.clause,
        },
    )?;
    search.opens.push(OpenGoal {
        goal: pending.goal,
        place: pending.place,
        from: tried,
        steps: pending.steps,
        split: pending.split,
        children,
    })?;
    Ok(Turn::Visit(child.goal))
}

// The next child of a goal, by the first clause from a place on whose head unifies with the atom that is
// selected, and the node of its use.
fn child_by_form(
    alloc: Global,
    program: &Program,
    index: &Index,
    goal: &Goal,
    place: usize,
    from: &mut usize,
) -> Result<Option<(Node, Child)>, AllocError>
    requires program { IsProgram program.now }
    requires index { IsIndexOf index.now program.now.clauses }
    requires fits { goal.now.next + 64 < 2 ^ 32 }
    requires inside { place < length goal.now.literals.items }
    requires computable { AreComputable goal.now.literals.items }
    ensures goes_on { IfOk result (λ answer. (literal : AnyLiteral) (atom : AnyAtom) → literal ≡ get_or goal.now.literals.items place literal → literal.form ≡ Pos atom → GoOn (children_from (goal_of goal.now) place literal atom program.now.clauses from.old) (option_map (λ pair. pair.1) answer) (children_from (goal_of goal.now) place literal atom program.now.clauses from.new)) }
    ensures node { IfOk result (λ answer. (literal : AnyLiteral) (atom : AnyAtom) → literal ≡ get_or goal.now.literals.items place literal → literal.form ≡ Pos atom → IfSome answer (λ pair. pair.0 ≡ Use pair.1.clause pair.1.count atom)) }
    ensures next { IfOk result (λ answer. IfSome answer (λ pair. (pair.1.goal.next ≤ goal.now.next + 64) × AreComputable pair.1.goal.literals.items)) }
    ensures tried { IfOk result (λ answer. IfSome answer (λ pair. (from.old < from.new) × (from.new ≤ length program.now.clauses))) }
{
    let Form::Pos(atom) = &goal.literals[place].form else {
        return Ok(None);
    };
    let clauses = program.clauses.as_slice();
    match next_resolvent(alloc, clauses, index, goal, place, atom, from)? {
        None => Ok(None),
        Some(child) => {
            let node = Node::Use {
                clause: child.clause,
                count: child.count,
                atom: atom.copy(alloc)?,
            };
            Ok(Some((node, child)))
        }
    }
}

// The resolvent by the first clause from a place on whose head unifies with an atom.
fn next_resolvent(
    alloc: Global,
    clauses: &[Clause],
    index: &Index,
    goal: &Goal,
    place: usize,
    atom: &Atom,
    from: &mut usize,
) -> Result<Option<Child>, AllocError>
    requires clauses { AllByRecursion IsReadyClause clauses.now }
    requires index { IsIndexOf index.now clauses.now }
    requires few { length clauses.now < 2 ^ 31 }
    requires fits { goal.now.next + 64 < 2 ^ 32 }
    requires inside { place < length goal.now.literals.items }
    requires computable { AreComputable goal.now.literals.items }
    ensures goes_on { IfOk result (λ answer. (literal : AnyLiteral) → GoOn (children_from (goal_of goal.now) place literal atom.now clauses.now from.old) answer (children_from (goal_of goal.now) place literal atom.now clauses.now from.new)) }
    ensures next { IfOk result (λ answer. IfSome answer (λ child. (child.goal.next ≤ goal.now.next + 64) × AreComputable child.goal.literals.items)) }
    ensures tried { IfOk result (λ answer. IfSome answer (λ child. (from.old < from.new) × (from.new ≤ length clauses.now))) }
{
    let key = key_of(atom);
    while *from < clauses.len() {
        let Some(number) = index.candidate(atom.pred, key, *from as u32 + 1) else {
            return Ok(None);
        };
        *from = number as usize;
        let clause = &clauses[*from - 1];
        if let Some(child) = resolve(alloc, goal, place, atom, number, clause)? {
            return Ok(Some(child));
        }
    }
    Ok(None)
}

// Going back to a search that waited for one that is done: a negation holds, and a gather's values are folded.
fn search_done(alloc: Global, inner: &mut Search, waiting: Waiting) -> Result<Turn, AllocError>
    requires inside { waiting.place < length waiting.goal.literals.items }
    ensures comes { IfOk result (λ turn. (program : AnyProgram) (left spare : ℕ) (literal : AnyLiteral) (atom : AnyAtom) (terms : List Tree) (found : List Leaf) → inner.old.opens.items ≡ [] → inner.old.keeps ≡ true → Selects program waiting.goal.literals.items waiting.place literal → IsFor waiting.sub literal.form atom terms found
        → Walks program inner.old (sub_goal (goal_of waiting.goal) literal.line atom terms) spare None left found
        → LeadsBy program waiting.search (goal_of waiting.goal) (suc spare) inner.new turn left) }
    ensures keeps { IfOk result (λ turn. inner.new.keeps ≡ waiting.search.keeps) }
    ensures opens { IfOk result (λ turn. inner.new.opens.items ≡ waiting.search.opens.items) }
    ensures ready { IfOk result (λ turn. (left : ℕ) → IsReady left waiting.goal → IsReadyTurn left turn) }
    ensures lighter { IfOk result (λ turn. turn_weight turn ≤ 2) }
{
    let Waiting {
        search,
        goal,
        place,
        sub,
    } = waiting;
    let done = mem::replace(inner, search);
    match sub {
        SubSearch::Negation => lacking(alloc, inner, goal, place, done.nodes),
        SubSearch::Gather(values) => folded(alloc, inner, &goal, place, &values, done.nodes),
    }
}

// The negation at this place holds: the tree of its atom has these nodes.
fn lacking(
    alloc: Global,
    search: &mut Search,
    goal: Goal,
    place: usize,
    nodes: Vec<Node>,
) -> Result<Turn, AllocError>
    requires inside { place < length goal.literals.items }
    ensures leads { IfOk result (λ turn. (program : AnyProgram) (spare left : ℕ) (literal : AnyLiteral) (atom : AnyAtom) → Selects program goal.literals.items place literal → literal.form ≡ Neg atom → is_ground_atom atom ≡ true → walk_of (tree program (sub_goal (goal_of goal) literal.line atom []) spare) ≡ record { leaves = []; nodes = nodes.items; ending = Done; left = left } → LeadsBy program search.old (goal_of goal) (suc spare) search.new turn left) }
    ensures keeps { IfOk result (λ turn. search.new.keeps ≡ search.old.keeps) }
    ensures opens { IfOk result (λ turn. search.new.opens.items ≡ search.old.opens.items) }
    ensures ready { IfOk result (λ turn. (left : ℕ) → IsReady left goal → IsReadyTurn left turn) }
{
    let Form::Neg(atom) = &goal.literals[place].form else {
        return Ok(Turn::Back);
    };
    let atom = atom.copy(alloc)?;
    let step = PathStep {
        place,
        unifier: Subst::empty(alloc),
        node: Node::Absent { atom },
        below: Nodes::from_vec(nodes),
    };
    go_on(alloc, search, Node::Lacking, step)?;
    Ok(Turn::Visit(without_literal(goal, place)))
}

// A goal without the literal at a place.
fn without_literal(goal: Goal, place: usize) -> Goal
    requires inside { place < length goal.literals.items }
    ensures { goal_of result ≡ record { next = goal.next; literals = put_at goal.literals.items place []; terms = goal.terms.items } }
{
    let mut rest = goal;
    rest.literals.remove(place);
    rest
}

// The values of the gather at this place are folded: the tree of its atom has these nodes.
fn folded(
    alloc: Global,
    search: &mut Search,
    goal: &Goal,
    place: usize,
    values: &[Term],
    nodes: Vec<Node>,
) -> Result<Turn, AllocError>
    requires inside { place < length goal.now.literals.items }
    ensures leads { IfOk result (λ turn. (program : AnyProgram) (spare left : ℕ) (literal : AnyLiteral) (kind : FoldKind) (target value : Tree) (atom : AnyAtom) (found : List Leaf) → Selects program goal.now.literals.items place literal → literal.form ≡ Gather kind target value atom → is_covered value atom ≡ true → values.now ≡ map value_of found → walk_of (tree program (sub_goal (goal_of goal.now) literal.line atom (value ∷ [])) spare) ≡ record { leaves = found; nodes = nodes.items; ending = Done; left = left } → LeadsBy program search.old (goal_of goal.now) (suc spare) search.new turn left) }
    ensures keeps { IfOk result (λ turn. search.new.keeps ≡ search.old.keeps) }
    ensures opens { IfOk result (λ turn. search.new.opens.items ≡ search.old.opens.items) }
    ensures ready { IfOk result (λ turn. (left : ℕ) → IsReady left goal.now → IsReadyTurn left turn) }
{
    let literal = &goal.literals[place];
    let Form::Gather {
        fold,
        result: target,
        ..
    } = &literal.form
    else {
        return Ok(Turn::Back);
    };
    match gathered(alloc, literal.line, *fold, target, values)? {
        Outcome::GoesOn(unifier) => gather_goes_on(alloc, search, goal, place, unifier, nodes),
        Outcome::Fails => {
            note_all(alloc, search, Node::Ungathered, &nodes)?;
            Ok(Turn::Back)
        }
        Outcome::Ends(next) => Ok(Turn::Found(Found::End(next))),
    }
}

// The gather at this place goes on under a unifier: the tree of its atom has these nodes.
fn gather_goes_on(
    alloc: Global,
    search: &mut Search,
    goal: &Goal,
    place: usize,
    unifier: Subst,
    nodes: Vec<Node>,
) -> Result<Turn, AllocError>
    requires inside { place < length goal.now.literals.items }
    ensures leads { IfOk result (λ turn. (program : AnyProgram) (spare left : ℕ) (literal : AnyLiteral) (kind : FoldKind) (target value : Tree) (atom : AnyAtom) (found : List Leaf) → Selects program goal.now.literals.items place literal → literal.form ≡ Gather kind target value atom → is_covered value atom ≡ true → folding literal.line kind target found ≡ goes_on unifier → walk_of (tree program (sub_goal (goal_of goal.now) literal.line atom (value ∷ [])) spare) ≡ record { leaves = found; nodes = nodes.items; ending = Done; left = left } → LeadsBy program search.old (goal_of goal.now) (suc spare) search.new turn left) }
    ensures keeps { IfOk result (λ turn. search.new.keeps ≡ search.old.keeps) }
    ensures opens { IfOk result (λ turn. search.new.opens.items ≡ search.old.opens.items) }
    ensures ready { IfOk result (λ turn. (left : ℕ) → IsReady left goal.now → IsReadyTurn left turn) }
{
    let rest = replaced_literal(alloc, goal, place, goal.next, &[], &unifier)?;
    let Some(node) = gather_node(alloc, &goal.literals[place].form)? else {
        return Ok(Turn::Back);
    };
    let step = PathStep {
        place,
        unifier,
        node,
        below: Nodes::from_vec(nodes),
    };
    go_on(alloc, search, Node::Gathered, step)?;
    Ok(Turn::Visit(rest))
}

// The node of a gather, and none of another literal.
fn gather_node(alloc: Global, form: &Form) -> Result<Option<Node>, AllocError>
    ensures { IfOk result (λ answer. (kind : FoldKind) (target value : Tree) (atom : AnyAtom) → form.now ≡ Gather kind target value atom → answer ≡ Some (GatherNode kind target value atom)) }
{
    match form {
        Form::Gather {
            fold,
            result,
            value,
            atom,
        } => Ok(Some(Node::Gather {
            fold: *fold,
            result: result.copy(alloc)?,
            value: value.copy(alloc)?,
            atom: atom.copy(alloc)?,
        })),
        _ => Ok(None),
    }
}

// The visit of a goal without literals: a success leaf with these terms. A negation's search ends there, and
// a gather's notes the value.
pub(crate) fn leaf(
    alloc: Global,
    searches: &mut Searches,
    terms: Vec<Term>,
) -> Result<Turn, AllocError>
    ensures comes { IfOk result (λ turn. (program : AnyProgram) (budget given left : ℕ) (goal : AnyGoal) → goal.literals ≡ [] → goal.terms ≡ terms.items → AreUnderWay program budget given searches.old (Some goal) left → Comes program budget given searches.new turn left) }
    ensures ready { IfOk result (λ turn. (left : ℕ) → IsReadyTurn left turn) }
    ensures opens { IfOk result (λ turn. (left : ℕ) → AreReady left searches.old → AreReady left searches.new) }
    ensures lighter { IfOk result (λ turn. (clauses : ℕ) → turn_weight turn + weight clauses searches.new < 2 + weight clauses searches.old) }
{
    match searches.waiting.pop() {
        None => Ok(Turn::Found(Found::Leaf(terms))),
        Some(waiting) => sub_leaf(alloc, searches, waiting, &terms),
    }
}

// A success leaf with these terms in the search of an atom.
fn sub_leaf(
    alloc: Global,
    searches: &mut Searches,
    waiting: Waiting,
    terms: &[Term],
) -> Result<Turn, AllocError>
    ensures comes { IfOk result (λ turn. (program : AnyProgram) (budget given left : ℕ) (goal : AnyGoal) → goal.literals ≡ [] → goal.terms ≡ terms.now → IsUnderWay program budget given (waiting ∷ reverse searches.old.waiting.items) searches.old.inner (Some goal) left → Comes program budget given searches.new turn left) }
    ensures ready { IfOk result (λ turn. (left : ℕ) → IsReadyTurn left turn) }
    ensures opens { IfOk result (λ turn. (left : ℕ) → CanWait left waiting → AreReady left searches.old → AreReady left searches.new) }
    ensures lighter { IfOk result (λ turn. (clauses : ℕ) → turn_weight turn + weight clauses searches.new < 2 + ((2 + opens_weight clauses waiting.search.opens.items) + weight clauses searches.old)) }
{
    let Waiting {
        search,
        goal,
        place,
        sub,
    } = waiting;
    match sub {
        SubSearch::Negation => {
            let found = mem::replace(&mut searches.inner, search);
            note_present(alloc, &mut searches.inner, &found.path)?;
            Ok(Turn::Back)
        }
        SubSearch::Gather(values) => {
            let sub = SubSearch::Gather(with_value(alloc, values, terms)?);
            note(&mut searches.inner, Node::Success)?;
            searches.waiting.push(Waiting {
                search,
                goal,
                place,
                sub,
            })?;
            Ok(Turn::Back)
        }
    }
}

// Values with the first of these terms after them.
fn with_value(alloc: Global, values: Vec<Term>, terms: &[Term]) -> Result<Vec<Term>, AllocError>
    ensures { IfOk result (λ found. found.items ≡ values.items ++ argument terms.now 0 ∷ []) }
{
    let mut found = values;
    if terms.is_empty() {
        found.push(Term::leaf(alloc, Sym::Nil)?)?;
    } else {
        found.push(terms[0].copy(alloc)?)?;
    }
    Ok(found)
}
