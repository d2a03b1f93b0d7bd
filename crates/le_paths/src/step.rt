use le_proofs::Nodes;

/// A step of a path from a goal to the next one, by what becomes of a literal of the goal.
#[derive(Drop)]
pub struct CellStep {
    /// The goal's number.
    pub goal: usize,
    /// The place of the literal, which is how many literals stand before it.
    pub place: usize,
    /// The number of the clause that was used, from 1, where the literal is an atom.
    pub clause: u32,
    /// How many literals the clause's body has, and 0 where the literal isn't an atom.
    pub count: u32,
    /// The nodes of the tree below it, where it is a negation or a gather.
    pub below: Nodes,
}
