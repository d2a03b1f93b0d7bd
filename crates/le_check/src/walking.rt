ghost use Rattle.std.specs.Prelude.{◌≡◌, ◌≤◌, ◌<◌, ◌+◌, ◌^◌, ℕ, suc, true, false, [], ◌∷◌, ◌++◌, List, take, drop, length, IfOk, IfSome, IsNone, None, Some};
ghost use Rattle.le_terms.specs.Program.{IsProgram};
ghost use Rattle.le_terms.specs.declared.program.Literal.{Literal as AnyLiteral};
ghost use Rattle.le_terms.specs.declared.program.Program.{Program as AnyProgram};
ghost use Rattle.le_proofs.specs.declared.node.Node.{Node as AnyNode};
ghost use Rattle.le_proofs.specs.declared.node.Node.TheVariants.{Computed, Dead};
ghost use Rattle.le_proofs.specs.Goals.{Picked};
ghost use Rattle.le_proofs.specs.Search.{Outcome as AnyOutcome, goes_on, computing};
ghost use Rattle.le_proofs.specs.Replay.{Replayed, Proven as AnyProven, faulty, behind, splits as of_splits, lacks as of_lacks, presents as of_presents, gathers as of_gathers, misses as of_misses, tree_of_kind, empty_tree, clauses_of, proofs_within, tree_within};
ghost use Rattle.le_builtins.specs.Compute.{argument};
ghost use Rattle.le_check.specs.Goals.{goal_of, placed, IsOutcome};
ghost use Rattle.le_check.specs.Meetings.{kind_by};
ghost use Rattle.le_check.specs.Parts.{ArePartEnds};
ghost use Rattle.le_check.specs.Left.{Means, Opened, split_below, TreeGives, TreePast, TreeDone, FailsBy, Left};
ghost use Rattle.le_check.specs.declared.levels.Turn.TheVariants.{Walk as Walking};
ghost use Rattle.le_check.specs.declared.levels.Frame.{Frame as AnyFrame};

use crate::counting::{can_compute, computed_counted};
use crate::goal::{Goal, Outcome};
use crate::levels::{
    Frame, GatheredFrame, Grown, LackingFrame, Opening, PresentFrame, Proof, SplitFrame, Turn,
    UngatheredFrame, Walk, stopped,
};
use crate::meeting::{Kind, claim};
use crate::proving::{MOST_VARIABLES, nothing_grown, value_asked};
use crate::resolving::{rest, rest_under, sub_goal, unifying_clauses};
use crate::selecting::select;
use le_base::{Copied, FoldKind};
use le_literals::{is_covered, is_ground_atom};
use le_proofs::Node;
use le_subst::{Steps, Subst};
use le_terms::{Atom, Program, Sym, Term};
use std::alloc::{AllocError, Global};
use std::sync::ledger::Ledger;

// A tree goes on past the literal at a place, under a unifier.
fn past(
    alloc: Global,
    walk: Walk,
    place: usize,
    unifier: Subst,
    at: usize,
    grown: Grown,
) -> Result<Turn, AllocError>
    requires inside { place < length walk.goal.literals.items }
    ensures { IfOk result (λ turn. (program : AnyProgram) (nodes : List AnyNode) (frames : List AnyFrame) (order : List ℕ) (whole : Replayed AnyProven) (number : ℕ) → TreePast program nodes (TreeDone program nodes frames) walk place number grown.nodes.items grown.found.items order (drop at nodes) (goes_on unifier) whole → Means program nodes frames order turn whole) }
{
    let goal = rest_under(alloc, &walk.goal, place, &unifier)?;
    let behind = Walk {
        fuel: walk.fuel,
        failed: walk.failed,
        goal,
    };
    Ok(Turn::Walk(behind, at, grown))
}

// A tree goes on past the literal at a place, by what becomes of it.
pub(crate) fn past_by(
    alloc: Global,
    walk: Walk,
    place: usize,
    number: u32,
    outcome: Outcome,
    at: usize,
    grown: Grown,
) -> Result<Turn, AllocError>
    requires inside { place < length walk.goal.literals.items }
    ensures { IfOk result (λ turn. (program : AnyProgram) (nodes : List AnyNode) (frames : List AnyFrame) (order : List ℕ) (whole : Replayed AnyProven) (said : AnyOutcome) → IsOutcome outcome said → TreePast program nodes (TreeDone program nodes frames) walk place number grown.nodes.items grown.found.items order (drop at nodes) said whole → Means program nodes frames order turn whole) }
{
    match outcome {
        Outcome::GoesOn(unifier) => past(alloc, walk, place, unifier, at, grown),
        Outcome::Fails => Ok(stopped(number, 7)),
        Outcome::Ends => Ok(stopped(number, 7)),
    }
}

// A tree is done where a literal fails.
pub(crate) fn fails_by(number: u32, outcome: &Outcome, at: usize, grown: Grown) -> Turn
    ensures { (program : AnyProgram) (nodes : List AnyNode) (frames : List AnyFrame) (order : List ℕ) (whole : Replayed AnyProven) (said : AnyOutcome) → IsOutcome outcome.now said → FailsBy said number (TreeDone program nodes frames grown.nodes.items grown.found.items order (drop at nodes) whole) whole → Means program nodes frames order result whole }
{
    match outcome {
        Outcome::Fails => Turn::Walked(at, grown),
        Outcome::GoesOn(_) => stopped(number, 7),
        Outcome::Ends => stopped(number, 7),
    }
}

// A tree with one node more.
fn with_node(grown: Grown, node: Node) -> Result<Grown, AllocError>
    ensures nodes { IfOk result (λ new. new.nodes.items ≡ grown.nodes.items ++ node ∷ []) }
    ensures found { IfOk result (λ new. new.found.items ≡ grown.found.items) }
{
    let mut nodes = grown.nodes;
    nodes.push(node)?;
    Ok(Grown {
        nodes,
        found: grown.found,
    })
}

// A computed literal in a tree that should hold.
fn computes<L: Ledger>(
    alloc: Global,
    steps: &mut Steps<L>,
    allowed: &mut usize,
    walk: Walk,
    place: usize,
    number: u32,
    at: usize,
    grown: Grown,
    atom: Atom,
) -> Result<Opening, AllocError>
    requires inside { place < length walk.goal.literals.items }
    ensures means { IfOk result (λ opening. (program : AnyProgram) (nodes : List AnyNode) (frames : List AnyFrame) (order : List ℕ) (whole : Replayed AnyProven) (line : ℕ) → TreePast program nodes (TreeDone program nodes frames) walk place number (grown.nodes.items ++ Computed ∷ []) grown.found.items order (drop at nodes) (computing line atom) whole → Opened program nodes frames order opening whole) }
    ensures steps { steps.new + allowed.new ≤ steps.old + allowed.old }
{
    if !can_compute(&atom) {
        return Err(AllocError);
    }
    let outcome = computed_counted(alloc, &atom, steps, allowed)?;
    let more = with_node(grown, Node::Computed)?;
    let turn = past_by(alloc, walk, place, number, outcome, at, more)?;
    Ok(Opening::Goes(turn))
}

// A computed literal in a tree that should not hold.
fn dies<L: Ledger>(
    alloc: Global,
    steps: &mut Steps<L>,
    allowed: &mut usize,
    number: u32,
    at: usize,
    grown: Grown,
    atom: Atom,
) -> Result<Opening, AllocError>
    ensures means { IfOk result (λ opening. (program : AnyProgram) (nodes : List AnyNode) (frames : List AnyFrame) (order : List ℕ) (whole : Replayed AnyProven) (line : ℕ) → FailsBy (computing line atom) number (TreeDone program nodes frames (grown.nodes.items ++ Dead ∷ []) grown.found.items order (drop at nodes) whole) whole → Opened program nodes frames order opening whole) }
    ensures steps { steps.new + allowed.new ≤ steps.old + allowed.old }
{
    if !can_compute(&atom) {
        return Err(AllocError);
    }
    let outcome = computed_counted(alloc, &atom, steps, allowed)?;
    let more = with_node(grown, Node::Dead)?;
    Ok(Opening::Goes(fails_by(number, &outcome, at, more)))
}

// A negation in a tree that should hold.
fn lacks(
    alloc: Global,
    walk: Walk,
    place: usize,
    number: u32,
    at: usize,
    line: u32,
    grown: Grown,
    atom: Atom,
) -> Result<Opening, AllocError>
    requires inside { place < length walk.goal.literals.items }
    ensures { IfOk result (λ opening. (program : AnyProgram) (nodes : List AnyNode) (frames : List AnyFrame) (order : List ℕ) (whole : Replayed AnyProven) (literal : AnyLiteral) → TreeGives program nodes frames grown order (tree_of_kind program (length nodes) (proofs_within program (length nodes) walk.fuel) (tree_within program (length nodes) walk.fuel) walk.failed (goal_of walk.goal) (placed walk.goal.literals.items place literal) line number (drop at nodes) (of_lacks atom)) whole → Opened program nodes frames order opening whole) }
{
    if !is_ground_atom(&atom) {
        return Ok(Opening::Goes(stopped(number, 4)));
    }
    let sub = sub_goal(alloc, walk.goal.next, line, &atom, Vec::new(alloc))?;
    let below = Walk {
        fuel: walk.fuel,
        failed: true,
        goal: sub,
    };
    let more = with_node(grown, Node::Lacking)?;
    let behind = Walk {
        fuel: walk.fuel,
        failed: walk.failed,
        goal: rest(walk.goal, place),
    };
    let frame = Frame::Lacking(LackingFrame {
        walk: behind,
        found: more.found,
    });
    let begun = Grown {
        nodes: more.nodes,
        found: Vec::new(alloc),
    };
    Ok(Opening::Opens(frame, Turn::Walk(below, at, begun)))
}

// A negation in a tree that should not hold.
fn presents(
    alloc: Global,
    ends: &[usize],
    walk: Walk,
    number: u32,
    at: usize,
    line: u32,
    grown: Grown,
    atom: Atom,
) -> Result<Opening, AllocError>
    ensures { IfOk result (λ opening. (program : AnyProgram) (nodes : List AnyNode) (frames : List AnyFrame) (order : List ℕ) (whole : Replayed AnyProven) (picked : Picked AnyLiteral) → ArePartEnds nodes ends.now → TreeGives program nodes frames grown order (tree_of_kind program (length nodes) (proofs_within program (length nodes) walk.fuel) (tree_within program (length nodes) walk.fuel) walk.failed (goal_of walk.goal) picked line number (drop at nodes) (of_presents atom)) whole → Opened program nodes frames order opening whole) }
{
    if !is_ground_atom(&atom) {
        return Ok(Opening::Goes(stopped(number, 4)));
    }
    let sub = sub_goal(alloc, walk.goal.next, line, &atom, Vec::new(alloc))?;
    let mut places = Vec::with_capacity(alloc, 1)?;
    places.push(at)?;
    let proof = Proof {
        fuel: walk.fuel,
        goal: sub,
        places,
        path: Vec::new(alloc),
    };
    let frame = Frame::Present(PresentFrame {
        grown: with_node(grown, Node::Present)?,
        after: end_of(ends, at),
    });
    Ok(Opening::Opens(frame, Turn::Prove(proof)))
}

// Where the part that begins at a place ends.
fn end_of(ends: &[usize], at: usize) -> usize
    ensures { (nodes : List AnyNode) → ArePartEnds nodes ends.now → drop result nodes ≡ behind 1 (drop at nodes) }
{
    if at < ends.len() {
        return ends[at];
    }
    at
}

// A gather in a tree that should hold.
fn gathers(
    alloc: Global,
    walk: Walk,
    place: usize,
    number: u32,
    at: usize,
    line: u32,
    grown: Grown,
    fold: FoldKind,
    target: Term,
    value: Term,
    atom: Atom,
) -> Result<Opening, AllocError>
    ensures { IfOk result (λ opening. (program : AnyProgram) (nodes : List AnyNode) (frames : List AnyFrame) (order : List ℕ) (whole : Replayed AnyProven) (literal : AnyLiteral) → TreeGives program nodes frames grown order (tree_of_kind program (length nodes) (proofs_within program (length nodes) walk.fuel) (tree_within program (length nodes) walk.fuel) walk.failed (goal_of walk.goal) (placed walk.goal.literals.items place literal) line number (drop at nodes) (of_gathers fold target value atom)) whole → Opened program nodes frames order opening whole) }
{
    if !is_covered(&value, &atom) {
        return Ok(Opening::Goes(stopped(number, 4)));
    }
    let asked = value_asked(alloc, &value)?;
    let sub = sub_goal(alloc, walk.goal.next, line, &atom, asked)?;
    let below = Walk {
        fuel: walk.fuel,
        failed: false,
        goal: sub,
    };
    let more = with_node(grown, Node::Gathered)?;
    let frame = Frame::Gathered(GatheredFrame {
        walk,
        place,
        number,
        fold,
        result: target,
        found: more.found,
    });
    let begun = Grown {
        nodes: more.nodes,
        found: Vec::new(alloc),
    };
    Ok(Opening::Opens(frame, Turn::Walk(below, at, begun)))
}

// A gather in a tree that should not hold.
fn misses(
    alloc: Global,
    walk: Walk,
    number: u32,
    at: usize,
    line: u32,
    grown: Grown,
    fold: FoldKind,
    target: Term,
    value: Term,
    atom: Atom,
) -> Result<Opening, AllocError>
    ensures { IfOk result (λ opening. (program : AnyProgram) (nodes : List AnyNode) (frames : List AnyFrame) (order : List ℕ) (whole : Replayed AnyProven) (picked : Picked AnyLiteral) → TreeGives program nodes frames grown order (tree_of_kind program (length nodes) (proofs_within program (length nodes) walk.fuel) (tree_within program (length nodes) walk.fuel) walk.failed (goal_of walk.goal) picked line number (drop at nodes) (of_misses fold target value atom)) whole → Opened program nodes frames order opening whole) }
{
    if !is_covered(&value, &atom) {
        return Ok(Opening::Goes(stopped(number, 4)));
    }
    let asked = value_asked(alloc, &value)?;
    let sub = sub_goal(alloc, walk.goal.next, line, &atom, asked)?;
    let below = Walk {
        fuel: walk.fuel,
        failed: false,
        goal: sub,
    };
    let more = with_node(grown, Node::Ungathered)?;
    let frame = Frame::Ungathered(UngatheredFrame {
        number,
        fold,
        result: target,
        found: more.found,
    });
    let begun = Grown {
        nodes: more.nodes,
        found: Vec::new(alloc),
    };
    Ok(Opening::Opens(frame, Turn::Walk(below, at, begun)))
}

// An atom in a tree, that should have so many branches.
fn splits<L: Ledger>(
    alloc: Global,
    program: &Program,
    steps: &mut Steps<L>,
    walk: Walk,
    place: usize,
    number: u32,
    at: usize,
    grown: Grown,
    atom: Atom,
    count: u32,
) -> Result<Opening, AllocError>
    requires program { IsProgram program.now }
    ensures means { IfOk result (λ opening. (nodes : List AnyNode) (frames : List AnyFrame) (order : List ℕ) (whole : Replayed AnyProven) (literal : AnyLiteral) → TreeGives program.now nodes frames grown order (split_below program.now nodes walk.fuel walk.failed (goal_of walk.goal) (placed walk.goal.literals.items place literal) number (drop at nodes) atom count) whole → Opened program.now nodes frames order opening whole) }
    ensures steps { steps.new ≤ steps.old + clauses_of program.now atom.pred }
{
    if walk.goal.next > MOST_VARIABLES {
        return Err(AllocError);
    }
    let mut left = unifying_clauses(alloc, program, &walk.goal, place, &atom, steps)?;
    if count as usize != left.len() {
        return Ok(Opening::Goes(stopped(number, 6)));
    }
    left.reverse();
    let more = with_node(grown, Node::Split { count })?;
    let frame = Frame::Split(SplitFrame {
        walk,
        place,
        atom,
        left,
    });
    Ok(Opening::Opens(frame, Turn::Walked(at, more)))
}

// A success leaf of a tree.
fn succeeds(
    alloc: Global,
    walk: Walk,
    number: u32,
    at: usize,
    grown: Grown,
    node: &Node,
) -> Result<Turn, AllocError>
    ensures { IfOk result (λ turn. (program : AnyProgram) (nodes : List AnyNode) (frames : List AnyFrame) (order : List ℕ) (whole : Replayed AnyProven) → TreeGives program nodes frames grown order (empty_tree program (length nodes) (proofs_within program (length nodes) walk.fuel) (tree_within program (length nodes) walk.fuel) walk.failed walk.goal.terms.items number (drop at nodes) node.now) whole → Means program nodes frames order turn whole) }
{
    let Node::Success = node else {
        return Ok(stopped(number, 3));
    };
    if walk.failed {
        return Ok(stopped(number, 5));
    }
    let mut more = with_node(grown, Node::Success)?;
    let value = first_term(alloc, &walk.goal.terms)?;
    more.found.push(value)?;
    Ok(Turn::Walked(at, more))
}

// The first of some terms.
fn first_term(alloc: Global, terms: &[Term]) -> Result<Term, AllocError>
    ensures { IfOk result (λ term. term ≡ argument terms.now 0) }
{
    if terms.is_empty() {
        return Term::leaf(alloc, Sym::Nil);
    }
    terms[0].copy(alloc)
}

// The part of a tree for the literal at a place, by the node that claims it.
fn by_kind<L: Ledger>(
    alloc: Global,
    program: &Program,
    ends: &[usize],
    steps: &mut Steps<L>,
    allowed: &mut usize,
    walk: Walk,
    place: usize,
    number: u32,
    at: usize,
    line: u32,
    grown: Grown,
    kind: Kind,
) -> Result<Opening, AllocError>
    requires program { IsProgram program.now }
    requires inside { place < length walk.goal.literals.items }
    ensures means { (nodes : List AnyNode) (frames : List AnyFrame) (order : List ℕ) (whole : Replayed AnyProven) (literal : AnyLiteral) → ArePartEnds nodes ends.now → TreeGives program.now nodes frames grown order (tree_of_kind program.now (length nodes) (proofs_within program.now (length nodes) walk.fuel) (tree_within program.now (length nodes) walk.fuel) walk.failed (goal_of walk.goal) (placed walk.goal.literals.items place literal) line number (drop at nodes) (kind_by kind)) whole → Left (steps.old + allowed.old) (steps.new + allowed.new) (λ rest. IfOk result (λ opening. Opened program.now nodes frames order opening rest)) whole }
{
    match kind {
        Kind::Splits(atom, count) => splits(
            alloc, program, steps, walk, place, number, at, grown, atom, count,
        ),
        Kind::Computes(atom) => computes(
            alloc, steps, allowed, walk, place, number, at, grown, atom,
        ),
        Kind::Dies(atom) => dies(alloc, steps, allowed, number, at, grown, atom),
        Kind::Lacks(atom) => lacks(alloc, walk, place, number, at, line, grown, atom),
        Kind::Presents(atom) => presents(alloc, ends, walk, number, at, line, grown, atom),
        Kind::Gathers(fold, target, value, atom) => gathers(
            alloc, walk, place, number, at, line, grown, fold, target, value, atom,
        ),
        Kind::Misses(fold, target, value, atom) => misses(
            alloc, walk, number, at, line, grown, fold, target, value, atom,
        ),
        Kind::Other => Ok(Opening::Goes(stopped(number, 3))),
    }
}

// A tree is walked from a place on.
pub(crate) fn walk_next<L: Ledger>(
    alloc: Global,
    program: &Program,
    nodes: &[Node],
    ends: &[usize],
    steps: &mut Steps<L>,
    allowed: &mut usize,
    walk: Walk,
    at: usize,
    grown: Grown,
) -> Result<Opening, AllocError>
    requires program { IsProgram program.now }
    requires few { length nodes.now ≤ 60000000 }
    requires ends { ArePartEnds nodes.now ends.now }
    ensures means { (frames : List AnyFrame) (order : List ℕ) (whole : Replayed AnyProven) → Means program.now nodes.now frames order (Walking walk at grown) whole → Left (steps.old + allowed.old) (steps.new + allowed.new) (λ rest. IfOk result (λ opening. Opened program.now nodes.now frames order opening rest)) whole }
{
    let last = nodes.len() as u32 + 1;
    if walk.fuel == 0 {
        return Ok(Opening::Goes(stopped(last, 9)));
    }
    if at >= nodes.len() {
        return Ok(Opening::Goes(stopped(last, 9)));
    }
    let number = at as u32 + 1;
    let node = &nodes[at];
    let below = Walk {
        fuel: walk.fuel - 1,
        failed: walk.failed,
        goal: walk.goal,
    };
    let Some(place) = select(program.version, &below.goal.literals) else {
        let turn = succeeds(alloc, below, number, at + 1, grown, node)?;
        return Ok(Opening::Goes(turn));
    };
    let literal = &below.goal.literals[place];
    let line = literal.line;
    let kind = claim(alloc, &literal.form, node)?;
    by_kind(
        alloc,
        program,
        ends,
        steps,
        allowed,
        below,
        place,
        number,
        at + 1,
        line,
        grown,
        kind,
    )
}
