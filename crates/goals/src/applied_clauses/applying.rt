// Clauses with their filters applied.
ghost use Rattle.std.specs.Prelude.{◌≡◌, ℕ, IfOk, IsTrue, None, true};
ghost use Rattle.goals.specs.applied_clauses.Applied.{anywhere, applied, kept};
ghost use Rattle.goals.specs.applied_clauses.Missing.{missing_in};
ghost use Rattle.goals.specs.applied_clauses.Outcome.{IsClauseOutcome, too_many};
ghost use Rattle.goals.specs.applied_clauses.Trees.{nodes, edges, paths, predicate, dot, plus, quoted, repeat, tree_of};
ghost use Rattle.goals.specs.applied_clauses.Within.{tree_within};
ghost use Rattle.filters.specs.Names.{missing_name};
ghost use Rattle.filters.specs.Parts.{IsWithin, part_of};
ghost use Rattle.fq_core.specs.declared.refusal.Fault.TheVariants as fault;
ghost use Rattle.fql_read.specs.Usable.{is_within};
ghost use Rattle.filters_paths.specs.Paths.{paths_of};

use crate::applied_clauses::applied_tree::AppliedTree;
use crate::applied_clauses::bases::kept;
use cfa::Graph;
use containers::{Boxed, TryClone, Vector};
use filters::TargetGraph;
use filters_paths::{PathFault, paths};
use fq_core::{Fault, Memory, Name, Place, Refusal};
use fql_read::{CoverTree, Filter, Split};
use patterns::NumberSet;
use std::alloc::Global;

/// The greatest number of paths that a `PATHS` may stand for.
pub const MOST_PATHS: u32 = 10_000;

/// The greatest number of edges of all these paths.
pub const MOST_PATH_EDGES: u32 = 1_000_000;

fn passed(limit: u32) -> Fault
    ensures { result ≡ fault.Refused (too_many limit) }
{
    Fault::Refused(Refusal {
        code: 71,
        place: Place::Limit {
            number: limit as u64,
        },
    })
}

#[tactic(auto, unfolding(crate::specs::applied_clauses::Trees::tree_of))]
fn predicate(number: u32) -> AppliedTree
    ensures { tree_of result ≡ predicate number }
{
    AppliedTree::Predicate(number)
}

#[tactic(auto, unfolding(crate::specs::applied_clauses::Trees::tree_of))]
fn edges(set: NumberSet, predicates: Vector<u32>) -> AppliedTree
    ensures { tree_of result ≡ edges set predicates }
{
    AppliedTree::Edges(set, predicates)
}

#[tactic(auto, unfolding(crate::specs::applied_clauses::Trees::tree_of))]
fn dot(alloc: Global, a: AppliedTree, b: AppliedTree) -> Result<AppliedTree, Memory>
    ensures { IfOk result (λ t. tree_of t ≡ dot (tree_of a) (tree_of b)) }
{
    let a = Boxed::new(alloc, a)?;
    let b = Boxed::new(alloc, b)?;
    Ok(AppliedTree::Dot(a, b))
}

#[tactic(auto, unfolding(crate::specs::applied_clauses::Trees::tree_of))]
fn plus(alloc: Global, a: AppliedTree, b: AppliedTree) -> Result<AppliedTree, Memory>
    ensures { IfOk result (λ t. tree_of t ≡ plus (tree_of a) (tree_of b)) }
{
    let a = Boxed::new(alloc, a)?;
    let b = Boxed::new(alloc, b)?;
    Ok(AppliedTree::Plus(a, b))
}

#[tactic(auto, unfolding(crate::specs::applied_clauses::Trees::tree_of))]
fn quoted(alloc: Global, body: AppliedTree, text: &[u8]) -> Result<AppliedTree, Memory>
    ensures { IfOk result (λ t. tree_of t ≡ quoted (tree_of body) text.now) }
{
    let body = Boxed::new(alloc, body)?;
    let text = Name::new(alloc, text)?;
    Ok(AppliedTree::Quoted { body, text })
}

#[tactic(auto, unfolding(crate::specs::applied_clauses::Trees::tree_of))]
fn repeat(
    alloc: Global,
    body: AppliedTree,
    least: u32,
    most: Option<u32>,
) -> Result<AppliedTree, Memory>
    ensures { IfOk result (λ t. tree_of t ≡ repeat (tree_of body) least most) }
{
    let body = Boxed::new(alloc, body)?;
    Ok(AppliedTree::Repeat { body, least, most })
}

#[tactic(auto, unfolding(crate::specs::applied_clauses::Trees::tree_of))]
fn nodes_of(
    alloc: Global,
    graph: &Graph,
    base: &TargetGraph,
    split: &Split,
) -> Result<AppliedTree, Memory>
    requires within { IsWithin graph.now (part_of base.now) }
    requires named { missing_name graph.now split.now.filter ≡ None }
    ensures { IfOk result (λ t. tree_of t ≡ nodes (kept graph.now (part_of base.now) split.now.filter).nodes split.now.predicates) }
{
    let predicates = split.predicates.try_clone(alloc)?;
    let target = kept(alloc, graph, base, &split.filter)?;
    Ok(AppliedTree::Nodes(target.nodes, predicates))
}

fn edges_of(
    alloc: Global,
    graph: &Graph,
    base: &TargetGraph,
    split: &Split,
) -> Result<AppliedTree, Memory>
    requires within { IsWithin graph.now (part_of base.now) }
    requires named { missing_name graph.now split.now.filter ≡ None }
    ensures { IfOk result (λ t. tree_of t ≡ edges (kept graph.now (part_of base.now) split.now.filter).edges split.now.predicates) }
{
    let predicates = split.predicates.try_clone(alloc)?;
    let target = kept(alloc, graph, base, &split.filter)?;
    Ok(edges(target.edges, predicates))
}

#[tactic(auto, unfolding(crate::specs::applied_clauses::Trees::tree_of))]
fn paths_over(
    alloc: Global,
    graph: &Graph,
    target: &TargetGraph,
    k: u32,
) -> Result<AppliedTree, Fault>
    requires { IsWithin graph.now (part_of target.now) }
    ensures { IsClauseOutcome (paths (paths_of graph.now target.now k)) result }
{
    match paths(alloc, graph, target, k, MOST_PATHS, MOST_PATH_EDGES) {
        Ok(listed) => Ok(AppliedTree::Paths(listed)),
        Err(PathFault::TooManyPaths) => Err(passed(MOST_PATHS)),
        Err(PathFault::TooManyEdges) => Err(passed(MOST_PATH_EDGES)),
        Err(PathFault::Memory) => Err(Fault::Memory),
    }
}

fn paths_of(
    alloc: Global,
    graph: &Graph,
    base: &TargetGraph,
    filter: &Filter,
    k: u32,
) -> Result<AppliedTree, Fault>
    requires within { IsWithin graph.now (part_of base.now) }
    requires named { missing_name graph.now filter.now ≡ None }
    ensures { IsClauseOutcome (paths (paths_of graph.now (kept graph.now (part_of base.now) filter.now) k)) result }
{
    let target = kept(alloc, graph, base, filter)?;
    paths_over(alloc, graph, &target, k)
}

// `"ID*"` over the base graph, whose set of edges it shares.
fn anywhere(alloc: Global, graph: &Graph, base: &TargetGraph) -> Result<AppliedTree, Memory>
    requires { IsWithin graph.now (part_of base.now) }
    ensures { IfOk result (λ t. tree_of t ≡ anywhere graph.now (part_of base.now)) }
{
    let _edges = base.edges.as_slice();
    let unsplit = Vector::new(alloc);
    let any = repeat(alloc, edges(base.edges.try_clone(alloc)?, unsplit), 0, None)?;
    quoted(alloc, any, b"ID*")
}

/// The clause with its filters applied to the base graph. All names of its filters are in the graph.
///
/// # Errors
///
/// Code 71 with the limit that the first `PATHS` passes, in the order of the text, that passes one: that of 10,000 paths
/// first, and then that of 1,000,000 edges in all of them.
#[tactic(auto, using(crate::proofs::applied_clauses::Leaves::nodes_there, crate::proofs::applied_clauses::Leaves::edges_there, crate::proofs::applied_clauses::Leaves::paths_there, crate::proofs::applied_clauses::Leaves::anywhere_there), unfolding(crate::specs::applied_clauses::Applied::applied, crate::specs::applied_clauses::Missing::missing_in, fql_read::specs::Usable::is_within))]
pub fn apply_clause(
    alloc: Global,
    graph: &Graph,
    base: &TargetGraph,
    tree: &CoverTree,
) -> Result<AppliedTree, Fault>
    requires within { IsWithin graph.now (part_of base.now) }
    requires named { missing_in graph.now tree.now ≡ None }
    ensures outcome { IsClauseOutcome (applied graph.now (part_of base.now) tree.now) result }
    ensures within { (count : ℕ) → IsTrue (is_within count tree.now) → IfOk result (λ clause. tree_within graph.now count (tree_of clause) ≡ true) }
{
    match tree {
        CoverTree::Nodes(split) => Ok(nodes_of(alloc, graph, base, split)?),
        CoverTree::Edges(split) => Ok(edges_of(alloc, graph, base, split)?),
        CoverTree::Paths(filter, k) => paths_of(alloc, graph, base, filter, *k),
        CoverTree::Predicate(number) => Ok(predicate(*number)),
        CoverTree::Quoted { body, text } => {
            let inner = apply_clause(alloc, graph, base, body)?;
            Ok(quoted(alloc, inner, text.bytes())?)
        }
        CoverTree::Dot(first, second) => {
            let a = apply_clause(alloc, graph, base, first)?;
            let b = apply_clause(alloc, graph, base, second)?;
            Ok(dot(alloc, a, b)?)
        }
        CoverTree::Plus(first, second) => {
            let a = apply_clause(alloc, graph, base, first)?;
            let b = apply_clause(alloc, graph, base, second)?;
            Ok(plus(alloc, a, b)?)
        }
        CoverTree::Arrow(first, second) => {
            let a = apply_clause(alloc, graph, base, first)?;
            let b = apply_clause(alloc, graph, base, second)?;
            let between = anywhere(alloc, graph, base)?;
            let left = dot(alloc, a, between)?;
            Ok(dot(alloc, left, b)?)
        }
        CoverTree::Repeat {
            body,
            least,
            most,
            ..
        } => {
            let body = apply_clause(alloc, graph, base, body)?;
            Ok(repeat(alloc, body, *least, *most)?)
        }
    }
}
