ghost use Rattle.std.specs.Prelude.{ℕ, List};
ghost use Rattle.le_terms.specs.declared.program.Program.{Program as AnyProgram};
ghost use Rattle.le_proofs.specs.declared.node.Node.{Node as AnyNode};
ghost use Rattle.le_proofs.specs.Replay.{faulty};
ghost use Rattle.le_check.specs.declared.levels.Frame.{Frame as AnyFrame};
ghost use Rattle.le_check.specs.Left.{Means};

use crate::goal::Goal;
use crate::replaying::Fault;
use le_base::FoldKind;
use le_derivations::PathStep;
use le_proofs::Node;
use le_terms::{Atom, Term};

// The proof of a goal's literals under way.
#[derive(Drop)]
pub(crate) struct Proof {
    // How many nodes may still stand one below the other.
    pub(crate) fuel: usize,
    // The goal that is left.
    pub(crate) goal: Goal,
    // For each of its literals the place of the node that its proof begins with.
    pub(crate) places: Vec<usize>,
    // The steps that led to it, the first one first.
    pub(crate) path: Vec<PathStep>,
}

// A tree that is to be walked.
#[derive(Drop)]
pub(crate) struct Walk {
    // How many nodes may still stand one below the other.
    pub(crate) fuel: usize,
    // Whether it may not have a success leaf.
    pub(crate) failed: bool,
    // Its goal.
    pub(crate) goal: Goal,
}

// What was walked of a tree.
#[derive(Drop)]
pub(crate) struct Grown {
    // The nodes, as they should be.
    pub(crate) nodes: Vec<Node>,
    // The first term at each success leaf.
    pub(crate) found: Vec<Term>,
}

// A negation in a proof, whose atom's tree is being walked.
#[derive(Drop)]
pub(crate) struct AbsentFrame {
    // The proof after it.
    pub(crate) proof: Proof,
    // The place of its literal.
    pub(crate) place: usize,
    // Its atom.
    pub(crate) atom: Atom,
}

// A gather in a proof, whose atom's tree is being walked.
#[derive(Drop)]
pub(crate) struct GatherFrame {
    // The proof, with the literal, and with the places after it.
    pub(crate) proof: Proof,
    // The place of its literal.
    pub(crate) place: usize,
    // The number of its node.
    pub(crate) number: u32,
    // What is made of the values.
    pub(crate) fold: FoldKind,
    // What that is to be equal to.
    pub(crate) result: Term,
    // The value at a case.
    pub(crate) value: Term,
    // What holds at a case.
    pub(crate) atom: Atom,
}

// An atom in a tree, whose branches are being walked.
#[derive(Drop)]
pub(crate) struct SplitFrame {
    // The trees below, and the goal with the atom.
    pub(crate) walk: Walk,
    // The place of its literal.
    pub(crate) place: usize,
    // The atom.
    pub(crate) atom: Atom,
    // The numbers of the clauses of the branches that are still to come, the next one last.
    pub(crate) left: Vec<u32>,
}

// A negation in a tree, whose atom's tree is being walked.
#[derive(Drop)]
pub(crate) struct LackingFrame {
    // The tree after it.
    pub(crate) walk: Walk,
    // The values that were found before it.
    pub(crate) found: Vec<Term>,
}

// A negation in a tree, whose atom is being proved.
#[derive(Drop)]
pub(crate) struct PresentFrame {
    // What was walked before it.
    pub(crate) grown: Grown,
    // Where its proof ends.
    pub(crate) after: usize,
}

// A gather in a tree, whose atom's tree is being walked.
#[derive(Drop)]
pub(crate) struct GatheredFrame {
    // The tree after it, and the goal with the literal.
    pub(crate) walk: Walk,
    // The place of its literal.
    pub(crate) place: usize,
    // The number of its node.
    pub(crate) number: u32,
    // What is made of the values.
    pub(crate) fold: FoldKind,
    // What that is to be equal to.
    pub(crate) result: Term,
    // The values that were found before it.
    pub(crate) found: Vec<Term>,
}

// A gather in a tree that doesn't hold, whose atom's tree is being walked.
#[derive(Drop)]
pub(crate) struct UngatheredFrame {
    // The number of its node.
    pub(crate) number: u32,
    // What is made of the values.
    pub(crate) fold: FoldKind,
    // What that is to be equal to.
    pub(crate) result: Term,
    // The values that were found before it.
    pub(crate) found: Vec<Term>,
}

// What was left open for a tree or a proof below it.
#[derive(Drop)]
pub(crate) enum Frame {
    // A negation in a proof.
    Absent(AbsentFrame),
    // A gather in a proof.
    Gather(GatherFrame),
    // An atom in a tree.
    Split(SplitFrame),
    // A negation in a tree that holds.
    Lacking(LackingFrame),
    // A negation in a tree that doesn't hold.
    Present(PresentFrame),
    // A gather in a tree that holds.
    Gathered(GatheredFrame),
    // A gather in a tree that doesn't hold.
    Ungathered(UngatheredFrame),
}

// What is done next.
#[derive(Drop)]
pub(crate) enum Turn {
    // A goal's literals are proved.
    Prove(Proof),
    // A tree is walked, from a place on.
    Walk(Walk, usize, Grown),
    // A proof came through by these steps, with these terms.
    Through(Vec<PathStep>, Vec<Term>),
    // A tree was walked up to a place.
    Walked(usize, Grown),
    // The replay stops.
    Stopped(Fault),
}

// What is done next, where something may be left open before.
#[derive(Drop)]
pub(crate) enum Opening {
    // Nothing is left open.
    Goes(Turn),
    // This is left open.
    Opens(Frame, Turn),
}

// The replay stops at a node.
pub(crate) fn stopped(node: u32, why: u8) -> Turn
    ensures { (program : AnyProgram) (nodes : List AnyNode) (frames : List AnyFrame) (order : List ℕ) → Means program nodes frames order result (faulty node why) }
{
    Turn::Stopped(Fault { node, why })
}
