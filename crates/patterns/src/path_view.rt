use containers::Vector;

/// A recorded path: states 0 to n, and between each two the edge that was taken.
#[derive(Debug, Drop)]
pub struct PathView {
    /// The node of each state: one more than there are edges.
    pub nodes: Vector<u32>,
    /// The edge from each state into the next.
    pub edges: Vector<u32>,
    /// For each state, which predicates hold there: bit p is that of predicate p.
    pub masks: Vector<u64>,
}
