// What literals are taken from.
#[derive(Clone, Copy, Debug)]
pub(crate) enum Source {
    // The query.
    Query,
    // The body of the clause at this place.
    Body(usize),
}

// Literals of a body from one place up to another, whose variables are the cells from `base` on.
#[derive(Clone, Copy, Debug)]
pub(crate) struct Part {
    pub(crate) source: Source,
    pub(crate) base: usize,
    pub(crate) from: usize,
    pub(crate) to: usize,
    // Whether they are the atoms of these literals alone.
    pub(crate) alone: bool,
}

// The terms of an answer.
#[derive(Clone, Copy, Debug)]
pub(crate) enum Answers {
    // Those of the variables that the query asks for.
    Asked,
    // None.
    Nothing,
    // The value of the gather at a place of a body.
    Value {
        source: Source,
        base: usize,
        at: usize,
    },
}

// A goal.
#[derive(Clone, Copy, Debug)]
pub(crate) enum Frame {
    // The empty goal, with its answer.
    Empty(Answers),
    // Some literals before the goal of an earlier frame.
    Before { part: Part, rest: usize },
}

// A mark: the store's own, and how many frames there were.
#[derive(Clone, Copy, Debug)]
pub(crate) struct Kept {
    pub(crate) mark: le_store::Mark,
    pub(crate) frames: usize,
}

// Where a literal of a goal stands: so far after the first literal of a part, before the goal of a frame.
#[derive(Clone, Copy, Debug)]
pub(crate) struct Spot {
    pub(crate) part: Part,
    pub(crate) left: usize,
    pub(crate) rest: usize,
}

// The same with the parts that come before.
#[derive(Drop)]
pub(crate) struct Walk {
    pub(crate) passed: Vec<Part>,
    pub(crate) spot: Spot,
}
