// Pairs and the steps between them.
use crate::reached::pair::NodeInContext;
use containers::Vector;

/// A step to a pair.
#[derive(Clone, Copy, Debug, PartialEq, Eq)]
pub struct Step {
    /// The number of the edge along which it leads.
    pub edge: u32,
    /// The number of the pair to which it leads.
    pub to: u32,
}

/// The pairs that walks reach, each numbered by its place from 0, and by number the steps from each, by rising number of
/// the edge.
#[derive(Debug, Drop)]
pub struct Reached {
    pub pairs: Vector<NodeInContext>,
    pub steps: Vector<Vector<Step>>,
}
