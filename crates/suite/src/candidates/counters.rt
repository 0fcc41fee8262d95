// The counters of loops after an edge.
ghost use Rattle.std.specs.Prelude.{◌≡◌, IfOk, IfSome};
ghost use Rattle.cfa.specs.Contexts.{counters_after, depth_of, last_raised};

use cfa::{Edge, Graph};
use fq_core::Memory;

/// How many loops a node lies in.
fn depth_of(graph: &Graph, node: u32) -> u32
    ensures { result ≡ depth_of graph.now node }
{
    match graph.nodes().get(node as usize) {
        None => 0,
        Some(node) => node.depth,
    }
}

/// The counters with 1 more in the last, or `None` where that would be 2^32.
fn last_raised(mut counters: Vec<u32>) -> Option<Vec<u32>>
    ensures { IfSome result (λ raised. raised.items ≡ last_raised counters.items) }
{
    let length = counters.len();
    if length == 0 {
        return Some(counters);
    }
    let last = counters[length - 1];
    if last == u32::MAX {
        return None;
    }
    counters[length - 1] = last + 1;
    Some(counters)
}

/// The counters after an edge within a function: of the loops that both its ends lie in, of a new one where it enters a
/// loop, and with 1 more in the last where it is a back edge. `None` where that would be 2^32.
pub(crate) fn counters_after(
    graph: &Graph,
    edge: &Edge,
    mut counters: Vec<u32>,
) -> Result<Option<Vec<u32>>, Memory>
    ensures { IfOk result (λ after. IfSome after (λ cs. cs.items ≡ counters_after graph.now edge.now counters.items)) }
{
    let source = depth_of(graph, edge.source);
    let target = depth_of(graph, edge.target);
    counters.truncate(source.min(target) as usize);
    if edge.enter {
        counters.push(0)?;
    }
    if edge.back {
        Ok(last_raised(counters))
    } else {
        Ok(Some(counters))
    }
}
