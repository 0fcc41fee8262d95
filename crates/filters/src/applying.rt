// What a filter makes of a target graph.
ghost use Rattle.std.specs.Prelude.{◌≡◌, IfOk, None};
ghost use Rattle.filters.specs.Kept.{kept_by};
ghost use Rattle.filters.specs.Names.{missing_name};
ghost use Rattle.filters.specs.Parts.{IsFull, IsWithin, marked, part_of, whole};

use crate::kept::kept;
use crate::marks::{Marks, all_marked, marked, numbers};
use crate::target_graph::TargetGraph;
use cfa::Graph;
use fq_core::Memory;
use fql_read::Filter;
use patterns::NumberSet;
use std::alloc::Global;

fn marks_of(alloc: Global, graph: &Graph, base: &TargetGraph) -> Result<Marks, Memory>
    requires { IsWithin graph.now (part_of base.now) }
    ensures full { IfOk result (λ m. IsFull graph.now m) }
    ensures part { IfOk result (λ m. marked m ≡ part_of base.now) }
{
    let nodes = marked(alloc, base.nodes.as_slice(), graph.nodes().len())?;
    let edges = marked(alloc, base.edges.as_slice(), graph.edges().len())?;
    Ok(Marks { nodes, edges })
}

fn target_of(alloc: Global, marks: &Marks) -> Result<TargetGraph, Memory>
    ensures { IfOk result (λ t. part_of t ≡ marked marks.now) }
{
    if marks.nodes.len() > u32::MAX as usize || marks.edges.len() > u32::MAX as usize {
        return Err(Memory);
    }
    let nodes = NumberSet::new(alloc, numbers(alloc, &marks.nodes)?)?;
    let edges = NumberSet::new(alloc, numbers(alloc, &marks.edges)?)?;
    Ok(TargetGraph { nodes, edges })
}

impl TargetGraph {
    /// The whole graph. `Memory` comes also where it has 2^32 nodes or edges or more.
    pub fn whole(alloc: Global, graph: &Graph) -> Result<TargetGraph, Memory>
        ensures part { IfOk result (λ t. part_of t ≡ whole graph.now) }
        ensures within { IfOk result (λ t. IsWithin graph.now (part_of t)) }
    {
        let nodes = all_marked(alloc, graph.nodes().len())?;
        let edges = all_marked(alloc, graph.edges().len())?;
        let target = target_of(alloc, &Marks { nodes, edges })?;
        Ok(target)
    }
}

/// What the filter keeps of a part of the graph. Each name that the filter needs is in the graph, which `missing` tells.
///
/// # Errors
///
/// `Memory` comes where an allocation is refused, or the graph has 2^32 nodes or edges or more.
pub fn apply(
    alloc: Global,
    filter: &Filter,
    graph: &Graph,
    base: &TargetGraph,
) -> Result<TargetGraph, Memory>
    requires within { IsWithin graph.now (part_of base.now) }
    requires named { missing_name graph.now filter.now ≡ None }
    ensures part { IfOk result (λ t. part_of t ≡ kept_by graph.now filter.now (part_of base.now)) }
    ensures within { IfOk result (λ t. IsWithin graph.now (part_of t)) }
{
    let marks = marks_of(alloc, graph, base)?;
    let kept = kept(alloc, graph, &filter.form, &marks)?;
    let target = target_of(alloc, &kept)?;
    Ok(target)
}
