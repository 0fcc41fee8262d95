// What stays the same over a walk.
ghost use Rattle.std.specs.Prelude.{◌≡◌, ◌<◌, ◌^◌, ◌&&◌, ℕ, length, IfOk, slice_get, if◌then◌else◌};
ghost use Rattle.std.specs.Option.{IsSomeAnd};
ghost use Rattle.filters.specs.Parts.{IsWithin, part_of, is_marked};
ghost use Rattle.filters_paths.specs.Ground.{IsGround, is_first, first_edges, parts_of};
ghost use Rattle.filters_paths.specs.Uses.{AreUses};
ghost use Rattle.filters_paths.specs.Paths.{is_start_node};

use crate::borders::{Border, border_nodes};
use crate::edge_ends::{source_of, target_of};
use crate::living::living_nodes;
use cfa::Graph;
use filters::TargetGraph;
use fq_core::Memory;
use std::alloc::Global;

/// A target graph as a walk over its paths needs it.
#[derive(Drop)]
pub(crate) struct Ground<'a> {
    pub(crate) graph: &'a Graph,
    pub(crate) target: &'a TargetGraph,
    /// How often an edge may occur in a path.
    pub(crate) bound: u32,
    /// By node, whether paths end there.
    pub(crate) ends: Vec<bool>,
    /// The edges by which paths begin, rising.
    pub(crate) firsts: Vec<u32>,
    /// By edge, how often it may be taken.
    pub(crate) uses: Vec<u32>,
}

// Whether a path may begin by an edge.
fn is_first(graph: &Graph, target: &TargetGraph, starts: &[bool], edge: u32) -> bool
    requires edge { edge < length graph.now.edges }
    requires size { length starts.now ≡ length graph.now.nodes }
    requires starts { (n : ℕ) → n < length graph.now.nodes → is_marked starts.now n ≡ is_start_node graph.now (part_of target.now) n }
    ensures { result ≡ is_first graph.now (part_of target.now) edge }
{
    let source = source_of(graph, edge);
    target.has_edge(edge) && starts[source as usize]
}

fn first_edges(
    alloc: Global,
    graph: &Graph,
    target: &TargetGraph,
    starts: &[bool],
) -> Result<Vec<u32>, Memory>
    requires few { length graph.now.edges < 2 ^ 32 }
    requires size { length starts.now ≡ length graph.now.nodes }
    requires starts { (n : ℕ) → n < length graph.now.nodes → is_marked starts.now n ≡ is_start_node graph.now (part_of target.now) n }
    ensures { IfOk result (λ firsts. firsts.items ≡ first_edges graph.now (part_of target.now)) }
{
    let mut firsts = Vec::new(alloc);
    for edge in 0..graph.edges().len() as u32 {
        if is_first(graph, target, starts, edge) {
            firsts.push(edge)?;
        }
    }
    Ok(firsts)
}

// How often an edge may be taken: as often as the bound says, if it is an edge of the part that leads to a living node.
fn uses_of(graph: &Graph, target: &TargetGraph, living: &[bool], bound: u32, edge: u32) -> u32
    requires edge { edge < length graph.now.edges }
    requires size { length living.now ≡ length graph.now.nodes }
    ensures { IsSomeAnd (slice_get graph.now.edges edge) (λ e. result ≡ (if (part_of target.now).edge edge && is_marked living.now e.target then bound else 0)) }
{
    let node = target_of(graph, edge);
    if target.has_edge(edge) && living[node as usize] {
        bound
    } else {
        0
    }
}

fn all_uses(
    alloc: Global,
    graph: &Graph,
    target: &TargetGraph,
    living: &[bool],
    bound: u32,
) -> Result<Vec<u32>, Memory>
    requires few { length graph.now.edges < 2 ^ 32 }
    requires size { length living.now ≡ length graph.now.nodes }
    ensures { IfOk result (λ uses. AreUses graph.now (part_of target.now) living.now bound uses.items) }
{
    let mut uses = Vec::new(alloc);
    for edge in 0..graph.edges().len() as u32 {
        uses.push(uses_of(graph, target, living, bound, edge))?;
    }
    Ok(uses)
}

impl<'a> Ground<'a> {
    pub(crate) fn new(
        alloc: Global,
        graph: &'a Graph,
        target: &'a TargetGraph,
        bound: u32,
    ) -> Result<Ground<'a>, Memory>
        requires { IsWithin graph.now (part_of target.now) }
        ensures tables { IfOk result (λ g. IsGround g) }
        ensures same { IfOk result (λ g. (parts_of g ≡ graph.now) × (g.target.now ≡ target.now) × (g.bound ≡ bound)) }
    {
        if graph.edges().len() > u32::MAX as usize || graph.nodes().len() > u32::MAX as usize {
            return Err(Memory);
        }
        let ends = border_nodes(alloc, graph, target, Border::End)?;
        let starts = border_nodes(alloc, graph, target, Border::Start)?;
        let firsts = first_edges(alloc, graph, target, &starts)?;
        let living = living_nodes(alloc, graph, target, &ends)?;
        let uses = all_uses(alloc, graph, target, &living, bound)?;
        Ok(Ground {
            graph,
            target,
            bound,
            ends,
            firsts,
            uses,
        })
    }
}
