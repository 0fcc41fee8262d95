// Hits of runs that `trace_run` recorded, where predicates hold at some of their states.
ghost use Rattle.std.specs.Prelude.{IsTrue, slice_get};
ghost use Rattle.std.specs.Option.{IsSomeAnd};
ghost use Rattle.c_meaning.specs.Starts.{CanStart};
ghost use Rattle.cfa.specs.Predicates.{IsPredicates};

use crate::tests::compared::slow_text;
use crate::tests::hits_of;
use cfa::{Graph, Predicates};
use containers::Vector;
use fq_core::{Fault, Memory};
use fql_read::read_query;
use goals::{Plan, plan_of};
use path_runner::{Input, PathRecord, trace_run};
use predicates::resolve;
use std::alloc::Global;
use std::test::Fail;
use test_programs::graph_of;

const COUNTS: &str = "int f(int n) {
  int i = 0;
  while (i < n) {
    i = i + 1;
  }
  return i;
}";

// A plan, and runs.
#[derive(Drop)]
struct Traced {
    plan: Plan,
    runs: Vec<PathRecord>,
}

// Whether a run of the first function can start so.
fn can_start(graph: &Graph, input: &Input) -> bool
    ensures { IsTrue result → IsSomeAnd (slice_get graph.now.functions 0) (λ f. CanStart f input.now.words) }
{
    match graph.functions().get(0) {
        None => false,
        Some(function) => {
            function.arrays.is_empty() && input.words.len() == function.parameters.len()
        }
    }
}

fn input_of(alloc: Global, word: u64) -> Result<Input, Memory> {
    Ok(Input {
        words: Vector::from_vec(Vec::from_slice(alloc, &[word])?),
        answers: Vector::new(alloc),
    })
}

// The runs of the first function on these words.
fn runs_on(
    alloc: Global,
    graph: &Graph,
    predicates: &Predicates,
    words: &[u64],
) -> Result<Vec<PathRecord>, Memory>
    requires { IsPredicates graph.now predicates.now }
{
    let mut runs = Vec::new(alloc);
    for word in words {
        let input = input_of(alloc, *word)?;
        if can_start(graph, &input) {
            runs.push(trace_run(alloc, graph, 0, &input, predicates, 1000)?)?;
        }
    }
    Ok(runs)
}

fn runs_of(alloc: Global, query: &str) -> Result<Traced, Fault> {
    let graph = graph_of(alloc, b"p.c", COUNTS)?;
    let query = read_query(alloc, query.as_bytes())?;
    let predicates = resolve(alloc, &query, &graph)?;
    let plan = plan_of(alloc, &query, &graph)?;
    match runs_on(alloc, &graph, &predicates, &[0, 1, 2]) {
        Ok(runs) => Ok(Traced { plan, runs }),
        Err(_) => Err(Fault::Memory),
    }
}

// The runs on 0, 1 and 2 set i to 0, and then as often to one more.
#[test]
fn hits_of_traced_runs(rt: HostRuntime) -> Result<(), Fail> {
    let rows = [
        ("cover {i == 0}", " 1; 1; 1;"),
        ("cover {i == 1}", "; 1; 1;"),
        ("cover {i == 2}", ";; 1;"),
        ("cover @LINE(2)->{i == 1}", "; 1; 1;"),
        ("cover @LINE(2)->{i == 1}->{i == 2}", ";; 1;"),
        ("cover {i == 2}.@LINE(6)", ";; 1;"),
        ("cover @LINE(2)->@LINE(6) passing {i == 2}", ";; 1;"),
        ("cover @LINE(2).\"NOT(@LINE(4))*\".@LINE(6)", " 1;;;"),
        ("cover ^@LINE(2)->{i + n == 4}", ";; 1;"),
        ("cover @LINE(6)->{n == 2}$", ";; 1;"),
        ("cover @LINE(6)->@LINE(2)", ";;;"),
        ("cover PRED(@LINE(6),{i == 2})", " 4; 4; 2;"),
        ("cover NODES(PRED(@LINE(6),{i == 2}))", " 2 4; 2 4; 2 3;"),
        // It traps where i is 0, and else it is 1 / i.
        ("cover NODES(PRED(@LINE(6),{1 / i}))", " 2 4; 2 3; 2 4;"),
        // No i is in scope at the function's exit.
        ("cover @LINE(6)->{i == 2}", ";;;"),
    ];
    let alloc = rt.alloc();
    for (query, expected) in rows {
        let Ok(own) = runs_of(alloc, query) else {
            return Err(Fail::from("no runs"));
        };
        let hits = hits_of(alloc, &own.plan, &own.runs)?;
        let slow = slow_text(alloc, &own.plan, &own.runs)?;
        assert_eq!(rt; hits.as_str(), expected, "{query}");
        assert_eq!(rt; slow.as_str(), expected, "{query}");
    }
    Ok(())
}
