// Plans of queries over sources, and recorded runs by hand.
use containers::Vector;
use fq_core::Fault;
use fql_read::read_query;
use goals::{Plan, plan_of};
use path_runner::{PathRecord, RunEnd};
use std::alloc::Global;
use std::test::Fail;
use test_programs::graph_of;

// Nodes 0 (entry), 1 (exit), 2, 3; e0: 0 to 3, true; e1: 0 to 2, false; e2: 3 to 1; e3: 2 to 1.
pub(crate) const RETURNS: &str = "int f(int x) {
  if (x > 10) {
    return 1;
  }
  return 0;
}";

// The plan of a query over a source.
fn planned(alloc: Global, source: &str, query: &str) -> Result<Plan, Fault> {
    let graph = graph_of(alloc, b"p.c", source)?;
    let query = read_query(alloc, query.as_bytes())?;
    plan_of(alloc, &query, &graph)
}

pub(crate) fn plan(alloc: Global, source: &str, query: &str) -> Result<Plan, Fail> {
    match planned(alloc, source, query) {
        Ok(plan) => Ok(plan),
        Err(_) => Err(Fail::from("no plan")),
    }
}

// A run that went along these nodes and edges, and at whose states these predicates held.
pub(crate) fn run(
    alloc: Global,
    nodes: &[u32],
    edges: &[u32],
    masks: &[u64],
    end: RunEnd,
) -> Result<PathRecord, Fail> {
    Ok(PathRecord {
        nodes: Vector::from_vec(nodes.to_vec(alloc)?),
        edges: Vector::from_vec(edges.to_vec(alloc)?),
        masks: Vector::from_vec(masks.to_vec(alloc)?),
        taken: Vector::new(alloc),
        end,
    })
}
