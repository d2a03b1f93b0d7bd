ghost use Rattle.std.specs.Prelude.{◌≡◌, ◌≤◌, ◌<◌, ◌+◌, ◌^◌, ℕ, [], ◌∷◌, ◌++◌, List, drop, length, reverse, IfOk};
ghost use Rattle.le_terms.specs.Program.{IsProgram};
ghost use Rattle.le_terms.specs.Tree.{Tree};
ghost use Rattle.le_terms.specs.declared.program.Program.{Program as AnyProgram};
ghost use Rattle.le_proofs.specs.declared.node.Node.{Node as AnyNode};
ghost use Rattle.le_proofs.specs.Replay.{Replayed, Proven as AnyProven};
ghost use Rattle.le_check.specs.Left.{Means, Opened, NextBranch, TreeDone};
ghost use Rattle.le_check.specs.declared.levels.Frame.{Frame as AnyFrame};
ghost use Rattle.le_check.specs.declared.levels.Frame.TheVariants.{Absent as AnAbsent, Gather as AGather, Split as ASplit, Gathered as AGathered, Ungathered as AnUngathered};
ghost use Rattle.le_check.specs.declared.levels.Turn.TheVariants.{Through as CameThrough};

use crate::counting::{folded_counted, unify_counted};
use crate::levels::{
    AbsentFrame, Frame, GatherFrame, GatheredFrame, Grown, Opening, Proof, SplitFrame, Turn,
    UngatheredFrame, Walk, stopped,
};
use crate::proving::{self, MOST_VARIABLES, clause_of};
use crate::resolving::resolvent;
use crate::walking::{self, fails_by};
use le_derivations::{PathStep, proof_of};
use le_proofs::{Node, Nodes};
use le_subst::{Steps, Subst};
use le_terms::{Program, Term};
use std::alloc::{AllocError, Global};
use std::sync::ledger::Ledger;

// The tree of a negation's atom in a proof is done: the proof goes on.
fn absent_done(alloc: Global, frame: AbsentFrame, grown: Grown) -> Result<Turn, AllocError>
    ensures { IfOk result (λ turn. (program : AnyProgram) (nodes : List AnyNode) (frames : List AnyFrame) (order : List ℕ) (whole : Replayed AnyProven) (rest : List AnyNode) → TreeDone program nodes (AnAbsent frame ∷ frames) grown.nodes.items grown.found.items order rest whole → Means program nodes frames order turn whole) }
{
    let proof = frame.proof;
    let mut path = proof.path;
    path.push(PathStep {
        place: frame.place,
        unifier: Subst::empty(alloc),
        node: Node::Absent { atom: frame.atom },
        below: Nodes::from_vec(grown.nodes),
    })?;
    Ok(Turn::Prove(Proof {
        fuel: proof.fuel,
        goal: proof.goal,
        places: proof.places,
        path,
    }))
}

// The tree of a gather's atom in a proof is done: the proof goes on by what is made of the values.
fn gather_done<L: Ledger>(
    alloc: Global,
    steps: &mut Steps<L>,
    allowed: &mut usize,
    frame: GatherFrame,
    grown: Grown,
) -> Result<Turn, AllocError>
    ensures means { IfOk result (λ turn. (program : AnyProgram) (nodes : List AnyNode) (frames : List AnyFrame) (order : List ℕ) (whole : Replayed AnyProven) (rest : List AnyNode) → TreeDone program nodes (AGather frame ∷ frames) grown.nodes.items grown.found.items order rest whole → Means program nodes frames order turn whole) }
    ensures steps { steps.new + allowed.new ≤ steps.old + allowed.old }
{
    // The place is one of a literal of the goal.
    if frame.place >= frame.proof.goal.literals.len() {
        return Err(AllocError);
    }
    let outcome = folded_counted(
        alloc,
        frame.fold,
        &frame.result,
        &grown.found,
        steps,
        allowed,
    )?;
    let node = Node::Gather {
        fold: frame.fold,
        result: frame.result,
        value: frame.value,
        atom: frame.atom,
    };
    proving::past_by(
        alloc,
        frame.proof,
        frame.place,
        frame.number,
        outcome,
        node,
        grown.nodes,
    )
}

// The tree of a gather's atom in a tree is done, and the gather should hold.
fn gathered_done<L: Ledger>(
    alloc: Global,
    steps: &mut Steps<L>,
    allowed: &mut usize,
    frame: GatheredFrame,
    at: usize,
    grown: Grown,
) -> Result<Turn, AllocError>
    ensures means { IfOk result (λ turn. (program : AnyProgram) (nodes : List AnyNode) (frames : List AnyFrame) (order : List ℕ) (whole : Replayed AnyProven) → TreeDone program nodes (AGathered frame ∷ frames) grown.nodes.items grown.found.items order (drop at nodes) whole → Means program nodes frames order turn whole) }
    ensures steps { steps.new + allowed.new ≤ steps.old + allowed.old }
{
    // The place is one of a literal of the goal.
    if frame.place >= frame.walk.goal.literals.len() {
        return Err(AllocError);
    }
    let outcome = folded_counted(
        alloc,
        frame.fold,
        &frame.result,
        &grown.found,
        steps,
        allowed,
    )?;
    let behind = Grown {
        nodes: grown.nodes,
        found: frame.found,
    };
    walking::past_by(
        alloc,
        frame.walk,
        frame.place,
        frame.number,
        outcome,
        at,
        behind,
    )
}

// The tree of a gather's atom in a tree is done, and the gather should not hold.
fn ungathered_done<L: Ledger>(
    alloc: Global,
    steps: &mut Steps<L>,
    allowed: &mut usize,
    frame: UngatheredFrame,
    at: usize,
    grown: Grown,
) -> Result<Turn, AllocError>
    ensures means { IfOk result (λ turn. (program : AnyProgram) (nodes : List AnyNode) (frames : List AnyFrame) (order : List ℕ) (whole : Replayed AnyProven) → TreeDone program nodes (AnUngathered frame ∷ frames) grown.nodes.items grown.found.items order (drop at nodes) whole → Means program nodes frames order turn whole) }
    ensures steps { steps.new + allowed.new ≤ steps.old + allowed.old }
{
    let outcome = folded_counted(
        alloc,
        frame.fold,
        &frame.result,
        &grown.found,
        steps,
        allowed,
    )?;
    let behind = Grown {
        nodes: grown.nodes,
        found: frame.found,
    };
    Ok(fails_by(frame.number, &outcome, at, behind))
}

// The next branch of an atom is walked, or the atom's tree is done.
fn next_branch<L: Ledger>(
    alloc: Global,
    program: &Program,
    nodes: &[Node],
    steps: &mut Steps<L>,
    allowed: &mut usize,
    frame: SplitFrame,
    at: usize,
    grown: Grown,
) -> Result<Opening, AllocError>
    requires program { IsProgram program.now }
    requires few { length nodes.now ≤ 60000000 }
    ensures means { IfOk result (λ opening. (frames : List AnyFrame) (order : List ℕ) (whole : Replayed AnyProven) → TreeDone program.now nodes.now (ASplit frame ∷ frames) grown.nodes.items grown.found.items order (drop at nodes.now) whole → Opened program.now nodes.now frames order opening whole) }
    ensures steps { steps.new + allowed.new ≤ steps.old + allowed.old }
{
    let mut open = frame;
    let Some(due) = open.left.pop() else {
        return Ok(Opening::Goes(Turn::Walked(at, grown)));
    };
    let last = nodes.len() as u32 + 1;
    if at >= nodes.len() {
        return Ok(Opening::Goes(stopped(last, 9)));
    }
    let number = at as u32 + 1;
    let Node::Branch { clause } = &nodes[at] else {
        return Ok(Opening::Goes(stopped(number, 3)));
    };
    branch(
        alloc,
        program,
        steps,
        allowed,
        open,
        number,
        at + 1,
        grown,
        *clause,
        due,
    )
}

// The branch by a clause of this number is walked, where it should be by the clause of another one.
fn branch<L: Ledger>(
    alloc: Global,
    program: &Program,
    steps: &mut Steps<L>,
    allowed: &mut usize,
    frame: SplitFrame,
    number: u32,
    at: usize,
    grown: Grown,
    clause: u32,
    due: u32,
) -> Result<Opening, AllocError>
    requires program { IsProgram program.now }
    ensures means { IfOk result (λ opening. (nodes : List AnyNode) (frames : List AnyFrame) (order : List ℕ) (whole : Replayed AnyProven) → NextBranch program.now nodes frames grown.nodes.items grown.found.items order whole frame number (drop at nodes) clause due (reverse frame.left.items) → Opened program.now nodes frames order opening whole) }
    ensures steps { steps.new + allowed.new ≤ steps.old + allowed.old }
{
    let Some(it) = clause_of(program, clause) else {
        return Ok(Opening::Goes(stopped(number, 1)));
    };
    if frame.walk.goal.next > MOST_VARIABLES {
        return Err(AllocError);
    }
    // The place is one of a literal of the goal.
    if frame.place >= frame.walk.goal.literals.len() {
        return Err(AllocError);
    }
    let next = frame.walk.goal.next;
    let Some(unifier) = unify_counted(alloc, next, it, &frame.atom, steps, allowed)? else {
        return Ok(Opening::Goes(stopped(number, 2)));
    };
    if clause != due {
        return Ok(Opening::Goes(stopped(number, 6)));
    }
    let goal = resolvent(alloc, &frame.walk.goal, frame.place, it, &unifier)?;
    let mut nodes = grown.nodes;
    nodes.push(Node::Branch { clause })?;
    let walk = Walk {
        fuel: frame.walk.fuel,
        failed: frame.walk.failed,
        goal,
    };
    let more = Grown {
        nodes,
        found: grown.found,
    };
    Ok(Opening::Opens(Frame::Split(frame), Turn::Walk(walk, at, more)))
}

// What is done next where the innermost tree is done, up to a place, for which this was left open.
pub(crate) fn after_tree<L: Ledger>(
    alloc: Global,
    program: &Program,
    nodes: &[Node],
    steps: &mut Steps<L>,
    allowed: &mut usize,
    frame: Frame,
    at: usize,
    grown: Grown,
) -> Result<Opening, AllocError>
    requires program { IsProgram program.now }
    requires few { length nodes.now ≤ 60000000 }
    ensures means { IfOk result (λ opening. (frames : List AnyFrame) (order : List ℕ) (whole : Replayed AnyProven) → TreeDone program.now nodes.now (frame ∷ frames) grown.nodes.items grown.found.items order (drop at nodes.now) whole → Opened program.now nodes.now frames order opening whole) }
    ensures steps { steps.new + allowed.new ≤ steps.old + allowed.old }
{
    match frame {
        Frame::Absent(open) => Ok(Opening::Goes(absent_done(alloc, open, grown)?)),
        Frame::Gather(open) => Ok(Opening::Goes(gather_done(alloc, steps, allowed, open, grown)?)),
        Frame::Split(open) => next_branch(alloc, program, nodes, steps, allowed, open, at, grown),
        Frame::Lacking(open) => {
            let more = Grown {
                nodes: grown.nodes,
                found: open.found,
            };
            Ok(Opening::Goes(Turn::Walk(open.walk, at, more)))
        }
        Frame::Gathered(open) => Ok(Opening::Goes(gathered_done(
            alloc, steps, allowed, open, at, grown,
        )?)),
        Frame::Ungathered(open) => Ok(Opening::Goes(ungathered_done(
            alloc, steps, allowed, open, at, grown,
        )?)),
        // It waits for a proof.
        Frame::Present(_) => Err(AllocError),
    }
}

// What is done next where the innermost proof came through, for which this was left open.
pub(crate) fn after_proof(
    alloc: Global,
    frame: Frame,
    path: Vec<PathStep>,
    terms: Vec<Term>,
) -> Result<Turn, AllocError>
    ensures { IfOk result (λ turn. (program : AnyProgram) (nodes : List AnyNode) (frames : List AnyFrame) (order : List ℕ) (whole : Replayed AnyProven) → Means program nodes (frame ∷ frames) order (CameThrough path terms) whole → Means program nodes frames order turn whole) }
{
    let Frame::Present(open) = frame else {
        // It waits for a tree.
        return Err(AllocError);
    };
    let mut proof = proof_of(alloc, &path)?;
    let grown = open.grown;
    let mut nodes = grown.nodes;
    nodes.append(&mut proof)?;
    let more = Grown {
        nodes,
        found: grown.found,
    };
    Ok(Turn::Walked(open.after, more))
}
