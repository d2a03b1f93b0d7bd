use le_proofs::{Node, Nodes};
use le_subst::Subst;

/// A step of a path from a goal to the next one, by what becomes of the goal's selected literal.
#[derive(Drop)]
pub struct PathStep {
    /// How many literals stand before the selected one.
    pub place: usize,
    /// The unifier of the step.
    pub unifier: Subst,
    /// The node of the selected literal's proof, with the literal's terms as they were when it was selected.
    pub node: Node,
    /// The nodes of the tree below it, where it is a negation or a gather.
    pub below: Nodes,
}
