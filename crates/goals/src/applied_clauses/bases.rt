// What filters keep, with its numbers in rising order.
ghost use Rattle.std.specs.Prelude.{◌≡◌, IfOk, None, option_and_then};
ghost use Rattle.goals.specs.applied_clauses.Applied.{base_of, kept};
ghost use Rattle.filters.specs.Kept.{kept_by};
ghost use Rattle.filters.specs.Names.{missing_name};
ghost use Rattle.filters.specs.Parts.{IsWithin, part_of, whole};

use cfa::Graph;
use containers::TryClone;
use filters::{TargetGraph, apply};
use fq_core::Memory;
use fql_read::Filter;
use std::alloc::Global;

/// What the filter keeps of a part of the graph. All its names are in the graph.
pub(crate) fn kept(
    alloc: Global,
    graph: &Graph,
    base: &TargetGraph,
    filter: &Filter,
) -> Result<TargetGraph, Memory>
    requires within { IsWithin graph.now (part_of base.now) }
    requires named { missing_name graph.now filter.now ≡ None }
    ensures kept { IfOk result (λ t. t ≡ kept graph.now (part_of base.now) filter.now) }
    ensures part { IfOk result (λ t. part_of t ≡ kept_by graph.now filter.now (part_of base.now)) }
    ensures within { IfOk result (λ t. IsWithin graph.now (part_of t)) }
{
    let target = apply(alloc, filter, graph, base)?;
    let _nodes = target.nodes.as_slice();
    let _edges = target.edges.as_slice();
    Ok(target)
}

fn shared(alloc: Global, target: &TargetGraph) -> Result<TargetGraph, Memory>
    ensures { IfOk result (λ t. t ≡ target.now) }
{
    let nodes = target.nodes.try_clone(alloc)?;
    let edges = target.edges.try_clone(alloc)?;
    Ok(TargetGraph { nodes, edges })
}

/// The base graph of a query's cover clause: what the filter after `in` keeps of the whole graph, which is all of it where
/// there is no filter, with its sets shared. All names of the filter are in the graph.
pub fn base_graph(
    alloc: Global,
    graph: &Graph,
    all: &TargetGraph,
    filter: &Option<Filter>,
) -> Result<TargetGraph, Memory>
    requires all { part_of all.now ≡ whole graph.now }
    requires within { IsWithin graph.now (part_of all.now) }
    requires named { option_and_then (missing_name graph.now) filter.now ≡ None }
    ensures part { IfOk result (λ t. part_of t ≡ base_of graph.now filter.now) }
    ensures within { IfOk result (λ t. IsWithin graph.now (part_of t)) }
{
    match filter {
        None => shared(alloc, all),
        Some(filter) => kept(alloc, graph, all, filter),
    }
}
