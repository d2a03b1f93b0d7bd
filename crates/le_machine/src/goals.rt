use le_derivations::PathStep;
use le_proofs::{Next, Node};
use le_subst::Subst;
use le_terms::{Literal, Term};

// A goal of the search.
#[derive(Drop)]
pub(crate) struct Goal {
    // The number of the next variable.
    pub(crate) next: u32,
    // The literals that are still to be refuted.
    pub(crate) literals: Vec<Literal>,
    // The terms of the answer so far.
    pub(crate) terms: Vec<Term>,
}

// What a clause makes of a goal.
#[derive(Drop)]
pub(crate) struct Child {
    // The clause's number, counted from 1.
    pub(crate) clause: u32,
    // How many literals its body has.
    pub(crate) count: u32,
    // The unifier of its head and the atom.
    pub(crate) unifier: Subst,
    // The resolvent.
    pub(crate) goal: Goal,
}

// What becomes of a computed literal, or of the result of a gather.
#[derive(Drop)]
pub(crate) enum Outcome {
    // The goal goes on without it under this unifier.
    GoesOn(Subst),
    // It fails.
    Fails,
    // The search ends so.
    Ends(Next),
}

// A goal whose selected literal is an atom, some of whose clauses are still to be tried.
#[derive(Drop)]
pub(crate) struct OpenGoal {
    // The goal.
    pub(crate) goal: Goal,
    // The place of the atom.
    pub(crate) place: usize,
    // The clauses before this place were tried.
    pub(crate) from: usize,
    // How many steps of its search led to the goal.
    pub(crate) steps: usize,
    // The place of its node among those of its search.
    pub(crate) split: usize,
    // How many children were visited.
    pub(crate) children: u32,
}

// What a search of an atom is for.
#[derive(Drop)]
pub(crate) enum SubSearch {
    // A negation: it ends at its first success leaf.
    Negation,
    // A gather: it goes on to its end, with the values at its success leaves so far.
    Gather(Vec<Term>),
}

// A search under way: that of the query, or that of an atom.
#[derive(Drop)]
pub(crate) struct Search {
    // Whether its nodes are kept.
    pub(crate) keeps: bool,
    // The steps that led to the goal that is visited.
    pub(crate) path: Vec<PathStep>,
    // The nodes of what was visited.
    pub(crate) nodes: Vec<Node>,
    // The goals that are open, the newest last.
    pub(crate) opens: Vec<OpenGoal>,
}

// A search that waits for that of the atom of a literal.
#[derive(Drop)]
pub(crate) struct Waiting {
    // The search.
    pub(crate) search: Search,
    // Its goal with the literal.
    pub(crate) goal: Goal,
    // The literal's place.
    pub(crate) place: usize,
    // What the search of the atom is for.
    pub(crate) sub: SubSearch,
}

// The searches under way.
#[derive(Drop)]
pub(crate) struct Searches {
    // The innermost one.
    pub(crate) inner: Search,
    // Those around it that wait, the outermost first.
    pub(crate) waiting: Vec<Waiting>,
}

// What the visit of goals finds.
#[derive(Drop)]
pub(crate) enum Found {
    // A success leaf with these terms.
    Leaf(Vec<Term>),
    // The end of the search.
    End(Next),
}

// What a machine does next.
#[derive(Drop)]
pub(crate) enum Turn {
    // It visits this goal.
    Visit(Goal),
    // It goes back to the newest open goal.
    Back,
    // It answers this.
    Found(Found),
}

// What kind of literal is selected.
#[derive(Clone, Copy)]
pub(crate) enum Kind {
    // An atom, whose clauses are tried.
    Atom,
    // A computed one.
    Computed,
    // A negation or a gather, whose atom is searched.
    Searched,
}

// What a machine comes to without a selection.
#[derive(Drop)]
pub(crate) enum Settled {
    // It visits this goal, which has literals.
    Goal(Goal),
    // It answers this.
    Found(Found),
}
