use cfa::*;
use std::alloc::Global;

mod broken_edges;
mod broken_parts;
mod names;

use broken_edges::Fault;
use names::{cell_of, row};
use test_graphs::draft::{Change, Draft, long_parts};
use test_graphs::worked::{ARRAY, BRANCH, CALL, LOOP, RECURSION};

fn graph_of(alloc: Global, draft: &Draft) -> Option<Graph> {
    match Graph::new(alloc, draft.parts(alloc, Change::Nothing, Change::Nothing)) {
        Ok(graph) => Some(graph),
        Err(_) => None,
    }
}

// Whether these are, by node, the numbers of the edges that leave it.
fn has_ways(graph: &Graph, want: &[&[u32]]) -> bool {
    if want.len() != graph.nodes().len() {
        return false;
    }
    for i in 0..want.len() {
        let Ok(node) = u32::try_from(i) else {
            return false;
        };
        if graph.outgoing(node) != want[i] {
            return false;
        }
    }
    true
}

fn goes(alloc: Global, draft: &Draft, want: &[&[u32]]) -> bool {
    match graph_of(alloc, draft) {
        None => false,
        Some(graph) => has_ways(&graph, want),
    }
}

#[test]
fn branches_and_calls_have_their_edges(rt: HostRuntime) {
    let branch = goes(rt.alloc(), &BRANCH, &[&[0, 1], &[], &[3], &[2]]);
    assert!(rt; branch);
    let call = goes(
        rt.alloc(),
        &CALL,
        &[&[0], &[5], &[1], &[], &[2, 3], &[7], &[4], &[6]],
    );
    assert!(rt; call);
}

#[test]
fn loops_and_recursions_have_their_edges(rt: HostRuntime) {
    let turns = goes(
        rt.alloc(),
        &LOOP,
        &[&[0], &[], &[1], &[6], &[2, 3], &[4], &[5]],
    );
    assert!(rt; turns);
    let recursion = goes(rt.alloc(), &RECURSION, &[&[0, 1], &[4], &[3], &[2], &[5]]);
    assert!(rt; recursion);
    let array = goes(
        rt.alloc(),
        &ARRAY,
        &[&[0], &[4], &[1], &[], &[2], &[3], &[5]],
    );
    assert!(rt; array);
}

fn counts_of(graph: &Graph) -> [usize; 8] {
    graph.well_formed();
    [
        graph.nodes().len(),
        graph.edges().len(),
        graph.functions().len(),
        graph.files().len(),
        graph.declared().len(),
        graph.inputs().len(),
        graph.scopes().len(),
        graph.globals().len(),
    ]
}

fn counts(alloc: Global, draft: &Draft) -> Option<[usize; 8]> {
    let graph = graph_of(alloc, draft)?;
    Some(counts_of(&graph))
}

fn named(alloc: Global, draft: &Draft, name: &str) -> Option<Option<u32>> {
    let graph = graph_of(alloc, draft)?;
    Some(graph.function_named(name.as_bytes()))
}

#[test]
fn accessors_give_the_parts(rt: HostRuntime) {
    let found = counts(rt.alloc(), &CALL);
    assert_eq!(rt; found, Some([8, 8, 2, 1, 0, 0, 3, 0]));
    for (name, want) in [("g", Some(0)), ("f", Some(1)), ("h", None), ("", None)] {
        let found = named(rt.alloc(), &CALL, name);
        assert_eq!(rt; found, Some(want), "{name}");
    }
}

fn answer_of(alloc: Global, draft: &Draft, row: Change, other: Change) -> Option<GraphFault> {
    match Graph::new(alloc, draft.parts(alloc, row, other)) {
        Ok(_) => None,
        Err(answer) => Some(answer),
    }
}

fn want_of(fault: &Fault) -> GraphFault {
    match fault.3 {
        Some(edge) => GraphFault::IllNumbered { edge },
        None => GraphFault::IllPart,
    }
}

// What is broken where the answer is another than is wanted, the first of these.
fn first_wrong(alloc: Global, draft: &Draft, faults: &[Fault]) -> Option<usize> {
    for (i, fault) in faults.iter().enumerate() {
        if answer_of(alloc, draft, fault.1, fault.2) != Some(want_of(fault)) {
            return Some(i);
        }
    }
    None
}

#[test]
fn broken_edges_are_named(rt: HostRuntime) {
    let numbers = first_wrong(rt.alloc(), &CALL, &broken_edges::NUMBERS_AND_ENDS);
    assert_eq!(rt; numbers, None);
    let places = first_wrong(rt.alloc(), &CALL, &broken_edges::PLACES_AND_KINDS);
    assert_eq!(rt; places, None);
    let calls = first_wrong(rt.alloc(), &CALL, &broken_edges::CALLS_AND_RETURNS);
    assert_eq!(rt; calls, None);
    let arrays = first_wrong(rt.alloc(), &ARRAY, &broken_edges::ARRAYS);
    assert_eq!(rt; arrays, None);
}

#[test]
fn broken_parts_are_refused(rt: HostRuntime) {
    let functions = first_wrong(rt.alloc(), &CALL, &broken_parts::NODES_AND_FUNCTIONS);
    assert_eq!(rt; functions, None);
    let scopes = first_wrong(rt.alloc(), &CALL, &broken_parts::KINDS_AND_SCOPES);
    assert_eq!(rt; scopes, None);
    let ways = first_wrong(rt.alloc(), &CALL, &broken_parts::WAYS);
    assert_eq!(rt; ways, None);
}

fn first_way(graph: &Graph, node: u32) -> Option<u32> {
    if (node as usize) < graph.nodes().len() {
        graph.outgoing(node).first().copied()
    } else {
        None
    }
}

fn long_ways(alloc: Global) -> Option<[Option<u32>; 4]> {
    match Graph::new(alloc, long_parts(alloc, 40_000)) {
        Err(_) => None,
        Ok(graph) => Some([
            first_way(&graph, 0),
            first_way(&graph, 1),
            first_way(&graph, 20_000),
            first_way(&graph, 40_000),
        ]),
    }
}

#[test]
fn long_graphs_take_linear_time(rt: HostRuntime) {
    let found = long_ways(rt.alloc());
    assert_eq!(rt; found, Some([Some(0), None, Some(20_000), Some(1)]));
}

// As many names as a frame and the globals have cells, each twice, so that the outer variable of each is hidden.
#[test]
fn names_stand_for_the_innermost(rt: HostRuntime) {
    let alloc = rt.alloc();
    let outer = row(alloc, 3, 2).expect(&rt, "no memory");
    let shared = outer.share().expect(&rt, "no memory");
    for variables in [&outer, &shared] {
        assert_eq!(rt; cell_of(alloc, variables, 0), Some(2));
        assert_eq!(rt; cell_of(alloc, variables, 1), Some(1));
        assert_eq!(rt; cell_of(alloc, variables, 2), None);
    }
    assert_eq!(rt; cell_of(alloc, &Variables::new(), 0), None);
    let many = row(alloc, 65_536, 32_768).expect(&rt, "no memory");
    for (number, cell) in [(0, 32_768), (1, 32_769), (9_999, 42_767), (32_767, 65_535)] {
        assert_eq!(rt; cell_of(alloc, &many, number), Some(cell));
    }
    assert_eq!(rt; cell_of(alloc, &many, 32_768), None);
}
