use crate::Node;
use le_base::{Copied, List};
use std::alloc::{AllocError, Global};

/// Nodes one after another.
pub type Nodes = List<Node>;

/// A derivation: the nodes of one proof for each literal of a query, each with what stands below it, in preorder.
/// It is walked, copied and dropped without recursion, however deep it is.
#[derive(Debug, Drop)]
pub struct Derivation {
    /// The nodes.
    pub nodes: Nodes,
}

impl Copied for Derivation {
    fn copy(&self, alloc: Global) -> Result<Self, AllocError> {
        Ok(Derivation {
            nodes: self.nodes.copy(alloc)?,
        })
    }
}
