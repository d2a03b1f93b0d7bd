use le_subst::Subst;
use le_terms::{Literal, Term};

// A goal of the replay.
#[derive(Drop)]
pub(crate) struct Goal {
    // The number of the next variable.
    pub(crate) next: u32,
    // The literals that are still to be proved.
    pub(crate) literals: Vec<Literal>,
    // The terms that are asked for, so far.
    pub(crate) terms: Vec<Term>,
}

// What becomes of a computed literal, or of a gather's result.
#[derive(Drop)]
pub(crate) enum Outcome {
    // The goal goes on under this unifier.
    GoesOn(Subst),
    // It fails.
    Fails,
    // A search would end there.
    Ends,
}
