// The ways on from a pair.
ghost use Rattle.std.specs.Prelude.{◌≡◌, ◌<◌, ◌↔◌, length, IsTrue, IfOk, OnOk, IfSome};
ghost use Rattle.std.specs.Option.{option_map};
ghost use Rattle.std.specs.List.Sorted.{IsStrictlyIncreasing};
ghost use Rattle.cfa.specs.Graph.{IsExit};
ghost use Rattle.cfa.specs.Table.{outgoing_of};
ghost use Rattle.unwinder_reach.specs.reached.Searching.{return_after, running_call, AreNumbered, AreWays, Extends, IsNextAlong};

use crate::reached::bounds::Bounds;
use crate::reached::context::{is_within, leaves, pair_along, running_call};
use crate::reached::frames::number_along;
use crate::reached::keys::Keys;
use crate::reached::pair::NodeInContext;
use cfa::Graph;
use cfa::laws::outgoing_edges;
use fq_core::Memory;
use std::alloc::Global;

// Whether a node is the exit of a function.
fn is_exit(graph: &Graph, node: u32) -> bool
    ensures { IsTrue result ↔ IsExit graph.now node }
{
    graph.well_formed();
    match graph.nodes().get(node as usize) {
        None => false,
        Some(n) => match graph.functions().get(n.function as usize) {
            None => false,
            Some(function) => function.exit == node,
        },
    }
}

// The edge that goes back to a pair's caller: it follows the edge of the call.
fn return_way(alloc: Global, pair: &NodeInContext) -> Result<Vec<u32>, Memory>
    ensures { IfOk result (λ ways. ways.items ≡ return_after (running_call pair.now.context.frames)) }
{
    let mut ways = Vec::new(alloc);
    match running_call(pair.frames()) {
        None => {}
        Some(call) => {
            if call == u32::MAX {
                return Err(Memory);
            }
            ways.push(call + 1)?;
        }
    }
    Ok(ways)
}

// The edges that leave a node, rising.
fn outgoing_ways(alloc: Global, graph: &Graph, node: u32) -> Result<Vec<u32>, Memory>
    ensures all { IfOk result (λ ways. node < length graph.now.nodes → ways.items ≡ outgoing_of graph.now node) }
    ensures rising { IfOk result (λ ways. IsStrictlyIncreasing ways.items) }
{
    let mut ways = Vec::new(alloc);
    if (node as usize) >= graph.nodes().len() {
        return Ok(ways);
    }
    ways.extend_from_slice(graph.outgoing(node))?;
    Ok(ways)
}

/// The edges by which a pair may go on, rising: from the exit of a function the return to its caller alone, however many calls
/// there are, and else those that leave its node.
pub(crate) fn ways(alloc: Global, graph: &Graph, pair: &NodeInContext) -> Result<Vec<u32>, Memory>
    ensures all { IfOk result (λ ways. AreWays graph.now pair.now ways.items) }
    ensures rising { IfOk result (λ ways. IsStrictlyIncreasing ways.items) }
{
    graph.well_formed();
    outgoing_edges();
    let node = pair.node();
    if is_exit(graph, node) {
        let back = return_way(alloc, pair)?;
        return Ok(back);
    }
    let outgoing = outgoing_ways(alloc, graph, node)?;
    Ok(outgoing)
}

/// The pair that follows along an edge within the bounds, if one does.
pub(crate) fn next_along(
    alloc: Global,
    graph: &Graph,
    bounds: &Bounds,
    pair: &NodeInContext,
    at: u32,
) -> Result<Option<NodeInContext>, Memory>
    ensures { IfOk result (λ next. IsNextAlong graph.now bounds.now at pair.now next) }
{
    let Some(edge) = graph.edges().get(at as usize) else {
        return Ok(None);
    };
    if !leaves(edge, pair) {
        return Ok(None);
    }
    let _turns = bounds.turns;
    let _answers = bounds.answers;
    match pair_along(alloc, graph, at, edge, pair)? {
        None => Ok(None),
        Some(next) => {
            if is_within(&next, bounds) {
                Ok(Some(next))
            } else {
                Ok(None)
            }
        }
    }
}

/// The pair that follows along an edge within the bounds, if one does, with the number of its frames.
pub(crate) fn numbered_along(
    alloc: Global,
    graph: &Graph,
    bounds: &Bounds,
    table: &mut Keys,
    pair: &NodeInContext,
    number: u32,
    at: u32,
) -> Result<Option<(NodeInContext, u32)>, Memory>
    ensures next { IfOk result (λ next. IsNextAlong graph.now bounds.now at pair.now (option_map (λ n. n.0) next)) }
    ensures number { IfOk result (λ next. AreNumbered table.old pair.now.context.frames number → IfSome next (λ n. AreNumbered table.new n.0.context.frames n.1)) }
    ensures extends { OnOk result (Extends table.old table.new) }
{
    match next_along(alloc, graph, bounds, pair, at)? {
        None => Ok(None),
        Some(next) => match graph.edges().get(at as usize) {
            None => Ok(None),
            Some(edge) => {
                let number = number_along(alloc, table, edge, number, next.frames())?;
                Ok(Some((next, number)))
            }
        },
    }
}
