use le_paths::CellStep;
use le_proofs::{Next, Node};
use le_terms::Term;

// What becomes of a computed literal, or of the result of a gather.
#[derive(Clone, Copy)]
pub(crate) enum Outcome {
    // The goal goes on without it, and all goals are under the unifier.
    GoesOn,
    // It fails.
    Fails,
    // The search ends so.
    Ends(Next),
}

// A goal whose selected literal is an atom, some of whose clauses are still to be tried.
#[derive(Clone, Copy)]
pub(crate) struct OpenGoal {
    // The mark of the cells when it was visited.
    pub(crate) mark: usize,
    // The goal's number.
    pub(crate) goal: usize,
    // The place of the atom.
    pub(crate) place: usize,
    // The clauses before this place were tried.
    pub(crate) from: usize,
    // How many steps of its search led to the goal.
    pub(crate) steps: usize,
    // The place of its node among those of its search.
    pub(crate) split: usize,
    // How many children were visited.
    pub(crate) children: u32,
}

// What a search of an atom is for.
#[derive(Drop)]
pub(crate) enum SubSearch {
    // A negation: it ends at its first success leaf.
    Negation,
    // A gather: it goes on to its end, with the values at its success leaves so far.
    Gather(Vec<Term>),
}

// A search under way: that of the query, or that of an atom.
#[derive(Drop)]
pub(crate) struct Search {
    // Whether its nodes are kept.
    pub(crate) keeps: bool,
    // The steps that led to the goal that is visited.
    pub(crate) path: Vec<CellStep>,
    // The nodes of what was visited.
    pub(crate) nodes: Vec<Node>,
    // The goals that are open, the newest last.
    pub(crate) opens: Vec<OpenGoal>,
}

// A search that waits for that of the atom of a literal.
#[derive(Drop)]
pub(crate) struct Waiting {
    // The search.
    pub(crate) search: Search,
    // The mark of the cells when the search of the atom began.
    pub(crate) mark: usize,
    // The number of its goal with the literal.
    pub(crate) goal: usize,
    // The literal's place.
    pub(crate) place: usize,
    // What the search of the atom is for.
    pub(crate) sub: SubSearch,
}

// The searches under way.
#[derive(Drop)]
pub(crate) struct Searches {
    // The innermost one.
    pub(crate) inner: Search,
    // Those around it that wait, the outermost first.
    pub(crate) waiting: Vec<Waiting>,
}

// What the visit of goals finds.
#[derive(Clone, Copy)]
pub(crate) enum Found {
    // A success leaf, by the number of its goal.
    Leaf(usize),
    // The end of the search.
    End(Next),
}

// What a machine does next.
#[derive(Clone, Copy)]
pub(crate) enum Turn {
    // It visits the goal of this number.
    Visit(usize),
    // It goes back to the newest open goal.
    Back,
    // It answers this.
    Found(Found),
}

// What a machine comes to without a selection.
#[derive(Clone, Copy)]
pub(crate) enum Settled {
    // It visits the goal of this number, which has literals.
    Goal(usize),
    // It answers this.
    Found(Found),
}
