// The names of filters that aren't in the graph.
ghost use Rattle.std.specs.Prelude.{◌≡◌, IfOk};
ghost use Rattle.goals.specs.applied_clauses.Missing.{missing_in};

use cfa::Graph;
use filters::{lesser, missing};
use fq_core::Memory;
use fql_read::CoverTree;
use std::alloc::Global;

/// The least column of a filter of the clause whose name isn't in the graph.
#[tactic(auto, unfolding(crate::specs::applied_clauses::Missing::missing_in))]
pub fn missing_in(alloc: Global, graph: &Graph, tree: &CoverTree) -> Result<Option<u32>, Memory>
    ensures { IfOk result (λ column. column ≡ missing_in graph.now tree.now) }
{
    match tree {
        CoverTree::Nodes(split) | CoverTree::Edges(split) => missing(alloc, graph, &split.filter),
        CoverTree::Paths(filter, _) => missing(alloc, graph, filter),
        CoverTree::Predicate(_) => Ok(None),
        CoverTree::Quoted { body, .. } | CoverTree::Repeat { body, .. } => {
            missing_in(alloc, graph, body)
        }
        CoverTree::Dot(first, second)
        | CoverTree::Plus(first, second)
        | CoverTree::Arrow(first, second) => {
            let a = missing_in(alloc, graph, first)?;
            let b = missing_in(alloc, graph, second)?;
            Ok(lesser(a, b))
        }
    }
}
