// Recorded paths.
ghost use Rattle.std.specs.Prelude.{◌≡◌, ◌-◌, ◌≤◌, length, slice_index};
ghost use Rattle.patterns.specs.Paths.{IsPath};
ghost use Rattle.measurer_hits.specs.run_match.Later.{path_from};

use crate::run_match::recorded_step::RecordedStep;
use std::marker::Model;

/// A recorded path, borrowed: the node of each state, the edge from each state into the next, and for each state which
/// predicates hold there. Contracts see it as a `PathView`.
#[derive(Debug, Drop)]
pub struct RunPath<'a> {
    nodes: &'a [u32],
    edges: &'a [u32],
    masks: &'a [u64],
}

impl<'a> Model for RunPath<'a> {
    ghost use Rattle.patterns.specs.Paths.{IsPath};
    ghost use Rattle.patterns.specs.declared.path_view.PathView.{PathView};

    ghost Value = { PathView };

    ghost view = { λ it. record { nodes = it.nodes.now; edges = it.edges.now; masks = it.masks.now } };

    ghost invariant = { λ it. IsPath (record { nodes = it.nodes.now; edges = it.edges.now; masks = it.masks.now }) };
}

impl<'a> RunPath<'a> {
    /// The path of these nodes, edges and masks. There is one more node and mask than there are edges.
    pub fn new(nodes: &'a [u32], edges: &'a [u32], masks: &'a [u64]) -> RunPath<'a>
        requires { IsPath (record { nodes = nodes.now; edges = edges.now; masks = masks.now }) }
        ensures { result ≡ record { nodes = nodes.now; edges = edges.now; masks = masks.now } }
    {
        RunPath {
            nodes,
            edges,
            masks,
        }
    }

    /// The node of each state.
    pub fn nodes(&self) -> &[u32]
        ensures nodes { result.now ≡ self.now.nodes }
        ensures path { IsPath self.now }
    {
        self.nodes
    }

    /// The edge from each state into the next.
    pub fn edges(&self) -> &[u32]
        ensures edges { result.now ≡ self.now.edges }
        ensures path { IsPath self.now }
    {
        self.edges
    }

    /// For each state which predicates hold there: bit p is that of predicate p.
    pub fn masks(&self) -> &[u64]
        ensures masks { result.now ≡ self.now.masks }
        ensures path { IsPath self.now }
    {
        self.masks
    }

    /// The path from the state of this number, from 0, on.
    pub fn starting_at(&self, start: usize) -> RunPath<'a>
        requires { start ≤ length self.now.edges }
        ensures { result ≡ path_from start self.now }
    {
        RunPath {
            nodes: &self.nodes[start..],
            edges: &self.edges[start..],
            masks: &self.masks[start..],
        }
    }

    /// What is known at the state of this number, from 0, and of the edge into it.
    pub(crate) fn step(&self, at: usize) -> RecordedStep
        ensures { result ≡ record { edge = slice_index self.now.edges (at - 1); node = slice_index self.now.nodes at; mask = slice_index self.now.masks at } }
    {
        RecordedStep {
            edge: self.edges.get(at.saturating_sub(1)).copied().unwrap_or(0),
            node: self.nodes.get(at).copied().unwrap_or(0),
            mask: self.masks.get(at).copied().unwrap_or(0),
        }
    }
}
