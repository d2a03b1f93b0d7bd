ghost use Rattle.std.specs.Prelude.{◌≡◌, ◌≤◌, ◌+◌, ℕ, suc, [], List, length, reverse, IfOk};
ghost use Rattle.le_terms.specs.declared.program.Program.{Program as AnyProgram};
ghost use Rattle.le_proofs.specs.declared.node.Node.{Node as AnyNode};
ghost use Rattle.le_proofs.specs.Goals.{root_of, asked_terms};
ghost use Rattle.le_check.specs.declared.levels.Turn.TheVariants.{Prove, Walk as Walking, Through as CameThrough, Walked as WalkedTo};
ghost use Rattle.le_proofs.specs.Replay.{Replayed, Proven as AnyProven, beginnings as beginnings_of};
ghost use Rattle.le_check.specs.Goals.{goal_of};
ghost use Rattle.le_check.specs.Left.{Means, Opened, Left};
ghost use Rattle.le_check.specs.Progress.{Goes};
ghost use Rattle.le_terms.specs.Program.{IsProgram};
ghost use Rattle.le_proofs.specs.Replay.{replay_of};
ghost use Rattle.le_check.specs.Parts.{ArePartEnds, nodes_from};
ghost use Rattle.le_check.specs.Replays.{IsReplay};

use crate::goal::Goal;
use crate::levels::{Frame, Grown, Opening, Proof, Turn, Walk};
use crate::parts::beginnings;
use crate::proving::prove_next;
use crate::returning::{after_proof, after_tree};
use crate::walking::walk_next;
use le_base::Copied;
use le_derivations::PathStep;
use le_proofs::Node;
use le_subst::Steps;
use le_terms::{Asked, Program, Sym, Term};
use std::alloc::{AllocError, Global};
use std::mem;
use std::sync::ledger::Ledger;

// What a replay that came through gives.
#[derive(Drop)]
pub(crate) struct Proven {
    // The steps from the query to the empty goal, the first one first.
    pub(crate) path: Vec<PathStep>,
    // The terms that are asked for, as they are there.
    pub(crate) terms: Vec<Term>,
    // The numbers of the nodes of proofs, in the order in which they were replayed.
    pub(crate) order: Vec<u32>,
}

// Where a replay stopped.
#[derive(Clone, Copy)]
pub(crate) struct Fault {
    // The node's number, counted from 1.
    pub(crate) node: u32,
    // What is wrong with it.
    pub(crate) why: u8,
}

// What a replay comes to.
#[derive(Drop)]
pub(crate) enum Replay {
    // It came through.
    Through(Proven),
    // It stopped at a fault.
    Stopped(Fault),
}

// What is left open, and the numbers of the nodes of proofs so far.
#[derive(Drop)]
pub(crate) struct State {
    // What is left open, the newest last.
    pub(crate) frames: Vec<Frame>,
    // The numbers of the nodes of proofs, in the order in which they were replayed.
    pub(crate) order: Vec<u32>,
    // How many steps are still allowed.
    pub(crate) allowed: usize,
}

// What a turn comes to.
#[derive(Drop)]
pub(crate) enum Progress {
    // This is done next.
    Goes(Turn),
    // The replay is over.
    Over(Replay),
}

// Leaves open what is to be left open.
fn opened(frames: &mut Vec<Frame>, opening: Opening) -> Result<Turn, AllocError>
    ensures { IfOk result (λ turn. (program : AnyProgram) (nodes : List AnyNode) (order : List ℕ) (whole : Replayed AnyProven) → Opened program nodes (reverse frames.old.items) order opening whole → Means program nodes (reverse frames.new.items) order turn whole) }
{
    match opening {
        Opening::Goes(turn) => Ok(turn),
        Opening::Opens(frame, turn) => {
            frames.push(frame)?;
            Ok(turn)
        }
    }
}

// One turn of a replay.
fn take_turn<L: Ledger>(
    alloc: Global,
    program: &Program,
    nodes: &[Node],
    ends: &[usize],
    state: &mut State,
    steps: &mut Steps<L>,
    turn: Turn,
) -> Result<Progress, AllocError>
    requires program { IsProgram program.now }
    requires few { length nodes.now ≤ 60000000 }
    requires ends { ArePartEnds nodes.now ends.now }
    ensures means { (whole : Replayed AnyProven) → Means program.now nodes.now (reverse state.old.frames.items) state.old.order.items turn whole → Left (steps.old + state.old.allowed) (steps.new + state.new.allowed) (λ rest. IfOk result (λ progress. Goes program.now nodes.now (reverse state.new.frames.items) state.new.order.items progress rest)) whole }
{
    match turn {
        Turn::Prove(proof) => prove_on(alloc, program, nodes, ends, state, steps, proof),
        Turn::Walk(walk, at, grown) => {
            walk_on(alloc, program, nodes, ends, state, steps, walk, at, grown)
        }
        Turn::Through(path, terms) => close_proof(alloc, state, path, terms),
        Turn::Walked(at, grown) => close_tree(alloc, program, nodes, state, steps, at, grown),
        Turn::Stopped(fault) => Ok(Progress::Over(Replay::Stopped(fault))),
    }
}

// The next literal of a proof.
fn prove_on<L: Ledger>(
    alloc: Global,
    program: &Program,
    nodes: &[Node],
    ends: &[usize],
    state: &mut State,
    steps: &mut Steps<L>,
    proof: Proof,
) -> Result<Progress, AllocError>
    requires program { IsProgram program.now }
    requires few { length nodes.now ≤ 60000000 }
    requires ends { ArePartEnds nodes.now ends.now }
    ensures means { IfOk result (λ progress. (whole : Replayed AnyProven) → Means program.now nodes.now (reverse state.old.frames.items) state.old.order.items (Prove proof) whole → Goes program.now nodes.now (reverse state.new.frames.items) state.new.order.items progress whole) }
    ensures steps { steps.new + state.new.allowed ≤ steps.old + state.old.allowed }
{
    let State {
        frames,
        order,
        allowed,
    } = state;
    let opening = prove_next(alloc, program, nodes, ends, order, steps, allowed, proof)?;
    let turn = opened(frames, opening)?;
    Ok(Progress::Goes(turn))
}

// The next goal of a tree.
fn walk_on<L: Ledger>(
    alloc: Global,
    program: &Program,
    nodes: &[Node],
    ends: &[usize],
    state: &mut State,
    steps: &mut Steps<L>,
    walk: Walk,
    at: usize,
    grown: Grown,
) -> Result<Progress, AllocError>
    requires program { IsProgram program.now }
    requires few { length nodes.now ≤ 60000000 }
    requires ends { ArePartEnds nodes.now ends.now }
    ensures means { (whole : Replayed AnyProven) → Means program.now nodes.now (reverse state.old.frames.items) state.old.order.items (Walking walk at grown) whole → Left (steps.old + state.old.allowed) (steps.new + state.new.allowed) (λ rest. IfOk result (λ progress. Goes program.now nodes.now (reverse state.new.frames.items) state.new.order.items progress rest)) whole }
{
    let allowed = &mut state.allowed;
    let opening = walk_next(alloc, program, nodes, ends, steps, allowed, walk, at, grown)?;
    let turn = opened(&mut state.frames, opening)?;
    Ok(Progress::Goes(turn))
}

// A proof came through: what was left open for it goes on, or the replay is over.
fn close_proof(
    alloc: Global,
    state: &mut State,
    path: Vec<PathStep>,
    terms: Vec<Term>,
) -> Result<Progress, AllocError>
    ensures means { IfOk result (λ progress. (program : AnyProgram) (nodes : List AnyNode) (whole : Replayed AnyProven) → Means program nodes (reverse state.old.frames.items) state.old.order.items (CameThrough path terms) whole → Goes program nodes (reverse state.new.frames.items) state.new.order.items progress whole) }
    ensures allowed { state.new.allowed ≡ state.old.allowed }
{
    match state.frames.pop() {
        Some(frame) => {
            let turn = after_proof(alloc, frame, path, terms)?;
            Ok(Progress::Goes(turn))
        }
        None => {
            let order = mem::replace(&mut state.order, Vec::new(alloc));
            Ok(Progress::Over(Replay::Through(Proven { path, terms, order })))
        }
    }
}

// A tree was walked: what was left open for it goes on.
fn close_tree<L: Ledger>(
    alloc: Global,
    program: &Program,
    nodes: &[Node],
    state: &mut State,
    steps: &mut Steps<L>,
    at: usize,
    grown: Grown,
) -> Result<Progress, AllocError>
    requires program { IsProgram program.now }
    requires few { length nodes.now ≤ 60000000 }
    ensures means { IfOk result (λ progress. (whole : Replayed AnyProven) → Means program.now nodes.now (reverse state.old.frames.items) state.old.order.items (WalkedTo at grown) whole → Goes program.now nodes.now (reverse state.new.frames.items) state.new.order.items progress whole) }
    ensures steps { steps.new + state.new.allowed ≤ steps.old + state.old.allowed }
{
    let Some(frame) = state.frames.pop() else {
        // No tree is the whole of a replay.
        return Err(AllocError);
    };
    let allowed = &mut state.allowed;
    let opening = after_tree(alloc, program, nodes, steps, allowed, frame, at, grown)?;
    let turn = opened(&mut state.frames, opening)?;
    Ok(Progress::Goes(turn))
}

// The goal of a program's query, with the places of its proofs.
fn root(
    alloc: Global,
    program: &Program,
    nodes: &[Node],
    ends: &[usize],
) -> Result<Proof, AllocError>
    requires few { length nodes.now ≤ 60000000 }
    requires ends { ArePartEnds nodes.now ends.now }
    ensures fuel { IfOk result (λ proof. proof.fuel ≡ suc (length nodes.now)) }
    ensures goal { IfOk result (λ proof. goal_of proof.goal ≡ root_of program.now) }
    ensures places { IfOk result (λ proof. nodes_from nodes.now proof.places.items ≡ beginnings_of (length program.now.query) nodes.now) }
    ensures path { IfOk result (λ proof. proof.path.items ≡ []) }
{
    let literals = program.query.copy(alloc)?.into_vec();
    let places = beginnings(alloc, nodes, ends, literals.len(), 0)?;
    let terms = asked_terms(alloc, program.asked.as_slice())?;
    Ok(Proof {
        fuel: nodes.len() + 1,
        goal: Goal {
            next: program.vars,
            literals,
            terms,
        },
        places,
        path: Vec::new(alloc),
    })
}

// The variables that are asked for.
fn asked_terms(alloc: Global, asked: &[Asked]) -> Result<Vec<Term>, AllocError>
    ensures { IfOk result (λ terms. terms.items ≡ asked_terms asked.now) }
{
    let mut terms = Vec::with_capacity(alloc, asked.len())?;
    for one in asked {
        terms.push(Term::leaf(alloc, Sym::Var(one.var))?)?;
    }
    Ok(terms)
}

// The replay of a derivation of a program's query, whose parts end at these places.
pub(crate) fn replayed<L: Ledger>(
    alloc: Global,
    program: &Program,
    nodes: &[Node],
    ends: &[usize],
    steps: &mut Steps<L>,
) -> Result<Replay, AllocError>
    requires program { IsProgram program.now }
    requires few { length nodes.now ≤ 60000000 }
    requires ends { ArePartEnds nodes.now ends.now }
    ensures exact { IfOk result (λ replay. IsReplay replay (replay_of program.now nodes.now).answer) }
    ensures steps { steps.new ≤ steps.old + (length nodes.now + (replay_of program.now nodes.now).tried) }
{
    let mut state = State {
        frames: Vec::new(alloc),
        order: Vec::new(alloc),
        allowed: nodes.len(),
    };
    let mut turn = Turn::Prove(root(alloc, program, nodes, ends)?);
    // Each turn reads a node or closes what was left open, so the end comes long before.
    for _ in 0..u64::MAX {
        match take_turn(alloc, program, nodes, ends, &mut state, steps, turn)? {
            Progress::Goes(next) => turn = next,
            Progress::Over(replay) => return Ok(replay),
        }
    }
    Err(AllocError)
}
