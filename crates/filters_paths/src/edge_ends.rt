// The ends of edges.
ghost use Rattle.std.specs.Prelude.{◌≡◌, ◌<◌, length, slice_get};
ghost use Rattle.std.specs.Option.{IsSomeAnd};

use cfa::Graph;

/// The node that an edge leaves.
pub(crate) fn source_of(graph: &Graph, edge: u32) -> u32
    requires { edge < length graph.now.edges }
    ensures source { IsSomeAnd (slice_get graph.now.edges edge) (λ e. e.source ≡ result) }
    ensures node { result < length graph.now.nodes }
{
    graph.well_formed();
    let edge = &graph.edges()[edge as usize];
    edge.source
}

/// The node to which an edge leads.
pub(crate) fn target_of(graph: &Graph, edge: u32) -> u32
    requires { edge < length graph.now.edges }
    ensures target { IsSomeAnd (slice_get graph.now.edges edge) (λ e. e.target ≡ result) }
    ensures node { result < length graph.now.nodes }
{
    graph.well_formed();
    let edge = &graph.edges()[edge as usize];
    edge.target
}
