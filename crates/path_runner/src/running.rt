// A run, from its first state to its end.
ghost use Rattle.std.specs.Prelude.{◌≡◌, ◌+◌, ◌^◌, ◌<◌, ◌≤◌, slice_get, IfOk};
ghost use Rattle.std.specs.Option.{IsSomeAnd};
ghost use Rattle.cfa.specs.Predicates.{IsPredicates};
ghost use Rattle.cfa.specs.States.{IsState};
ghost use Rattle.cfa.specs.declared.state.State.{State};
ghost use Rattle.c_meaning.specs.Starts.{CanStart, start_of};
ghost use Rattle.c_meaning.specs.Steps.{stepped};
ghost use Rattle.path_runner.specs.Fits.{further, leading};
ghost use Rattle.path_runner.specs.Paths.{RecordsStates, path_of};

use crate::answers::answer_along;
use crate::masks::mask_of;
use crate::path::{Path, PathRecord, RunEnd};
use c_meaning::{Input, Step, start, step};
use cfa::{Graph, Predicates, State};
use fq_core::Memory;
use std::alloc::Global;

// The edge along which a run goes on, or how the run ends.
fn further(step: Step) -> Result<u32, RunEnd>
    ensures { (to : State) → further (stepped step to) ≡ leading to result }
{
    match step {
        Step::Moved(edge) => Ok(edge),
        Step::Returned { value } => Err(RunEnd::Returned { value }),
        Step::Trapped(trap) => Err(RunEnd::Trapped(trap)),
        Step::Blocked => Err(RunEnd::Blocked),
        Step::TooDeep => Err(RunEnd::TooDeep),
    }
}

// The path of a run from a state on.
fn run_from(
    alloc: Global,
    graph: &Graph,
    input: &Input,
    predicates: &Predicates,
    first: State,
    limit: u64,
) -> Result<PathRecord, Memory>
    requires state { IsState graph.now first }
    requires few { first.taken + (limit + 1) < 2 ^ 64 }
    requires predicates { IsPredicates graph.now predicates.now }
    ensures { IfOk result (λ path. path ≡ path_of graph.now input.now predicates.now limit first) }
{
    let mut path = Path::new(alloc);
    let mut state = first;
    let mut left = limit;
    loop {
        path.visit(state.node, mask_of(graph, predicates, &state))?;
        let number = state.taken;
        match further(step(graph, input, &mut state)?) {
            Err(end) => return Ok(path.ended(end)),
            Ok(edge) => {
                if left == 0 {
                    return Ok(path.ended(RunEnd::Cut));
                }
                path.cross(edge, answer_along(graph, input, edge, number))?;
                left -= 1;
            }
        }
    }
}

/// The path of a function's run on an input, up to its end or `limit` edges. It is `Cut` exactly where it took `limit`
/// edges and would go on.
///
/// # Errors
///
/// Want of memory alone.
pub fn trace_run(
    alloc: Global,
    graph: &Graph,
    entry: u32,
    input: &Input,
    predicates: &Predicates,
    limit: u64,
) -> Result<PathRecord, Memory>
    requires start { IsSomeAnd (slice_get graph.now.functions entry) (λ f. CanStart f input.now.words) }
    requires few { limit + 1 < 2 ^ 64 }
    requires predicates { IsPredicates graph.now predicates.now }
    // It is what the definition of paths says, from the state in which a run begins.
    ensures path { IfOk result (λ path. IsSomeAnd (slice_get graph.now.functions entry) (λ f. path ≡ path_of graph.now input.now predicates.now limit (start_of graph.now f input.now.words))) }
    // It records the states of the input from the entry, up to the limit.
    ensures states { IfOk result (λ path. IsSomeAnd (slice_get graph.now.functions entry) (λ f. RecordsStates graph.now f input.now predicates.now limit path)) }
{
    let first = start(alloc, graph, entry, input)?;
    run_from(alloc, graph, input, predicates, first, limit)
}
