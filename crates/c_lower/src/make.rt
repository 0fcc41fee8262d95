// One node and one edge.
ghost use Rattle.std.specs.Prelude.{◌≡◌, ◌+◌, ◌<◌, ◌≤◌, ◌∷◌, length, IfOk, IfErr, OnOk};
ghost use Rattle.c_lower_rules.specs.graph_of.Builder.{node, edge, after};
ghost use Rattle.c_lower_rules.specs.graph_of.Edges.{node_at, node_here};
ghost use Rattle.c_lower.specs.Stopping.{IsStop};

use crate::stop::Stop;
use c_lower_rules::graph_of::{Around, Parts};
use cfa::{Edge, Node};
use fq_core::Span;

/// The greatest number of edges of a graph.
pub(crate) const MOST_EDGES: usize = 40_000;

/// A new node on the line of a token, by its number.
#[tactic(auto, unfolding(c_lower_rules::specs::graph_of::Builder::after))]
pub(crate) fn new_node(around: &Around, span: Span, parts: &mut Parts) -> Result<u32, Stop>
    ensures number { IfOk result (λ number. number ≡ length parts.old.nodes) }
    ensures made { IfOk result (λ number. parts.new ≡ after (node (node_at around.now span)) parts.old) }
    ensures err { IfErr result (λ stop. IsStop stop (after (node (node_at around.now span)) parts.old)) }
    ensures memory { IfErr result (λ stop. stop ≡ Stop.Memory) }
{
    let number = parts.nodes.len();
    if number > u32::MAX as usize {
        return Err(Stop::Memory);
    }
    parts.nodes.push(Node {
        function: around.function,
        file: span.file,
        line: span.line,
        scope: around.scope,
        depth: around.depth,
    })?;
    Ok(number as u32)
}

/// A new edge.
#[tactic(auto, unfolding(c_lower_rules::specs::graph_of::Builder::after), using(crate::proofs::Stops::stops))]
pub(crate) fn new_edge(made: Edge, parts: &mut Parts) -> Result<(), Stop>
    ensures made { OnOk result (parts.new ≡ after (edge made) parts.old) }
    ensures err { IfErr result (λ stop. IsStop stop (after (edge made) parts.old)) }
{
    if parts.edges.len() >= MOST_EDGES {
        return Err(Stop::TooManyEdges);
    }
    parts.edges.push(made)?;
    Ok(())
}

/// Three nodes in a row, on the line of the innermost statement: the number of the first, where there are two more.
#[tactic(auto, using(crate::proofs::Stops::stop_grows))]
pub(crate) fn three_nodes(around: &Around, parts: &mut Parts) -> Result<u32, Stop>
    ensures number { IfOk result (λ number. number ≡ length parts.old.nodes) }
    ensures room { IfOk result (λ number. number + 2 < 4294967296) }
    ensures made { IfOk result (λ number. parts.new ≡ after (node_here around.now) (after (node_here around.now) (after (node_here around.now) parts.old))) }
    ensures err { IfErr result (λ stop. IsStop stop (after (node_here around.now) (after (node_here around.now) (after (node_here around.now) parts.old)))) }
{
    let first = new_node(around, around.span, parts)?;
    if first > u32::MAX - 2 {
        return Err(Stop::Memory);
    }
    new_node(around, around.span, parts)?;
    new_node(around, around.span, parts)?;
    Ok(first)
}
