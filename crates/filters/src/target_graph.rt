// Parts of a control flow automaton.
ghost use Rattle.std.specs.Prelude.{◌≡◌};
ghost use Rattle.filters.specs.Parts.{part_of};

use patterns::NumberSet;

/// A part of a control flow automaton: some of its nodes, and some of its edges.
#[derive(Debug, Drop)]
pub struct TargetGraph {
    /// The numbers of its nodes.
    pub nodes: NumberSet,
    /// The numbers of its edges.
    pub edges: NumberSet,
}

impl TargetGraph {
    /// Whether the node of this number is there.
    pub fn has_node(&self, node: u32) -> bool
        ensures { result ≡ (part_of self.now).node node }
    {
        self.nodes.contains(node)
    }

    /// Whether the edge of this number is there.
    pub fn has_edge(&self, edge: u32) -> bool
        ensures { result ≡ (part_of self.now).edge edge }
    {
        self.edges.contains(edge)
    }
}
