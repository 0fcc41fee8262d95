// Paths of automata, worked by hand.
mod drawing;

use cfa::{Graph, GraphFault};
use containers::Vector;
use drawing::Drawing;
use filters::{TargetGraph, apply, missing};
use filters_paths::{PathFault, laws, paths};
use fq_core::{Fault, Memory};
use fql_read::{CoverTree, Filter, read_query};
use std::alloc::Global;
use std::test::Fail;

// `if (x > 10) { return 1; } return 0;`
fn branch(alloc: Global) -> Result<Drawing, Memory> {
    let mut drawing = Drawing::new(alloc);
    let no = drawing.node();
    let yes = drawing.node();
    drawing.branch(0, yes, no)?;
    drawing.skip(yes, 1)?;
    drawing.skip(no, 1)?;
    Ok(drawing)
}

// `while (x) { .. }`: edge 0 leads to the head, 1 into the body, 2 to the exit and 3 back to the head.
fn turns(alloc: Global) -> Result<Drawing, Memory> {
    let mut drawing = Drawing::new(alloc);
    let head = drawing.node();
    let body = drawing.node();
    drawing.skip(0, head)?;
    drawing.branch(head, body, 1)?;
    drawing.skip(body, head)?;
    Ok(drawing)
}

// `for (;;) { if (!x) { return; } }`: edge 0 leads to the head, 1 to the branch, 2 behind it, 3 to the exit and 4 back.
fn way_back(alloc: Global) -> Result<Drawing, Memory> {
    let mut drawing = Drawing::new(alloc);
    let head = drawing.node();
    let branch = drawing.node();
    let behind = drawing.node();
    drawing.skip(0, head)?;
    drawing.skip(head, branch)?;
    drawing.branch(branch, behind, 1)?;
    drawing.skip(behind, head)?;
    Ok(drawing)
}

// A ladder of branches that ends in a loop for ever.
fn no_way_out(alloc: Global, count: u32) -> Result<Drawing, Memory> {
    let mut drawing = Drawing::new(alloc);
    let last = drawing.ladder(0, count)?;
    drawing.skip(last, last)?;
    Ok(drawing)
}

// A ladder of branches that ends at the exit.
fn ladder(alloc: Global, count: u32) -> Result<Drawing, Memory> {
    let mut drawing = Drawing::new(alloc);
    let last = drawing.ladder(0, count)?;
    drawing.skip(last, 1)?;
    Ok(drawing)
}

// 25 * 20 * 20 ways through three stairs, and 66 edges in a row behind them, beside which 65 branches lead into a loop for
// ever.
fn large(alloc: Global) -> Result<Drawing, Memory> {
    let mut drawing = Drawing::new(alloc);
    let first = drawing.stairs(0, 25)?;
    let second = drawing.stairs(first, 20)?;
    let third = drawing.stairs(second, 20)?;
    let turn = drawing.node();
    let last = drawing.row_beside(third, turn, 65)?;
    drawing.skip(last, 1)?;
    let end = drawing.row(turn, 39744)?;
    drawing.skip(end, turn)?;
    Ok(drawing)
}

fn drawn(drawing: Result<Drawing, Memory>) -> Result<Graph, GraphFault> {
    match drawing {
        Ok(drawing) => drawing.graph(),
        Err(_) => Err(GraphFault::Memory),
    }
}

fn listed(
    alloc: Global,
    graph: &Graph,
    k: u32,
    limit: u32,
    edge_limit: u32,
) -> Result<Vector<Vector<u32>>, PathFault> {
    let whole = TargetGraph::whole(alloc, graph)?;
    paths(alloc, graph, &whole, k, limit, edge_limit)
}

fn are(found: &[Vector<u32>], want: &[&[u32]]) -> bool {
    if found.len() != want.len() {
        return false;
    }
    for (own, other) in found.iter().zip(want) {
        if own.as_slice() != *other {
            return false;
        }
    }
    true
}

// Whether these are the paths of the whole automaton.
fn has_paths(alloc: Global, graph: &Graph, k: u32, want: &[&[u32]]) -> bool {
    match listed(alloc, graph, k, 100, 1000) {
        Ok(found) => are(&found, want),
        Err(_) => false,
    }
}

// The paths of what a filter keeps of the whole automaton.
fn of_filter(
    alloc: Global,
    graph: &Graph,
    filter: &Filter,
    k: u32,
) -> Result<Vector<Vector<u32>>, Fault> {
    if missing(alloc, graph, filter)?.is_some() {
        return Err(Fault::Memory);
    }
    let whole = TargetGraph::whole(alloc, graph)?;
    let target = apply(alloc, filter, graph, &whole)?;
    match paths(alloc, graph, &target, k, 100, 1000) {
        Ok(found) => Ok(found),
        Err(_) => Err(Fault::Memory),
    }
}

fn of_cover(
    alloc: Global,
    graph: &Graph,
    cover: &CoverTree,
    k: u32,
) -> Result<Vector<Vector<u32>>, Fault> {
    match cover {
        CoverTree::Edges(split) => of_filter(alloc, graph, &split.filter, k),
        _ => Err(Fault::Memory),
    }
}

// The paths of what the filter of a query keeps.
fn kept_paths(
    alloc: Global,
    graph: &Graph,
    text: &str,
    k: u32,
) -> Result<Vector<Vector<u32>>, Fault> {
    match read_query(alloc, text.as_bytes()) {
        Ok(query) => of_cover(alloc, graph, &query.cover.body, k),
        Err(fault) => Err(fault),
    }
}

fn has_kept_paths(alloc: Global, graph: &Graph, text: &str, k: u32, want: &[&[u32]]) -> bool {
    match kept_paths(alloc, graph, text, k) {
        Ok(found) => are(&found, want),
        Err(_) => false,
    }
}

fn faults(alloc: Global, graph: &Graph, limit: u32, edge_limit: u32) -> Option<PathFault> {
    match listed(alloc, graph, 1, limit, edge_limit) {
        Ok(_) => None,
        Err(fault) => Some(fault),
    }
}

#[test]
fn paths_in_order(rt: HostRuntime) -> Result<(), Fail> {
    let alloc = rt.alloc();
    let Ok(branch) = drawn(branch(alloc)) else {
        assert!(rt; false, "the branch is no automaton");
        return Ok(());
    };
    assert!(rt; has_paths(alloc, &branch, 1, &[&[0, 2], &[1, 3]]));
    assert!(rt; has_paths(alloc, &branch, 0, &[]));
    assert!(rt; has_kept_paths(alloc, &branch, "cover @CONDITIONEDGE", 1, &[&[0], &[1]]));
    assert!(rt; has_kept_paths(alloc, &branch, "cover @EXIT(f)", 1, &[&[2], &[3]]));
    let Ok(turns) = drawn(turns(alloc)) else {
        assert!(rt; false, "the loop is no automaton");
        return Ok(());
    };
    assert!(rt; has_paths(alloc, &turns, 1, &[&[0, 1, 3, 2], &[0, 2]]));
    assert!(rt;
        has_paths(
            alloc,
            &turns,
            2,
            &[&[0, 1, 3, 1, 3, 2], &[0, 1, 3, 2], &[0, 2]]
        )
    );
    assert!(rt;
        has_kept_paths(
            alloc,
            &turns,
            "cover NOT(@ENTRY(f))",
            1,
            &[&[1, 3, 2], &[2]]
        )
    );
    assert!(rt;
        has_kept_paths(
            alloc,
            &turns,
            "cover NOT(@EXIT(f))",
            2,
            &[&[0], &[0, 1, 3], &[0, 1, 3, 1, 3]]
        )
    );
    assert!(rt; has_kept_paths(alloc, &turns, "cover SETMINUS(@EXIT(f),ID)", 1, &[]));
    laws::paths_rise();
    laws::one_list();
    Ok(())
}

// Behind the branch only an edge goes on that is used up, until it may be taken once more.
#[test]
fn ways_that_are_used_up(rt: HostRuntime) -> Result<(), Fail> {
    let alloc = rt.alloc();
    let Ok(way_back) = drawn(way_back(alloc)) else {
        assert!(rt; false, "the loop is no automaton");
        return Ok(());
    };
    assert!(rt; has_paths(alloc, &way_back, 1, &[&[0, 1, 3]]));
    assert!(rt; has_paths(alloc, &way_back, 2, &[&[0, 1, 2, 4, 1, 3], &[0, 1, 3]]));
    Ok(())
}

#[test]
fn limits_of_paths(rt: HostRuntime) -> Result<(), Fail> {
    let alloc = rt.alloc();
    let Ok(branch) = drawn(branch(alloc)) else {
        assert!(rt; false, "the branch is no automaton");
        return Ok(());
    };
    assert_eq!(rt; faults(alloc, &branch, 2, 4), None);
    assert_eq!(rt;
        faults(alloc, &branch, 1, 100),
        Some(PathFault::TooManyPaths)
    );
    assert_eq!(rt; faults(alloc, &branch, 2, 3), Some(PathFault::TooManyEdges));
    assert_eq!(rt; faults(alloc, &branch, 1, 0), Some(PathFault::TooManyPaths));
    let Ok(closed) = drawn(no_way_out(alloc, 40)) else {
        assert!(rt; false, "the closed ladder is no automaton");
        return Ok(());
    };
    assert_eq!(rt; faults(alloc, &closed, 0, 0), None);
    assert!(rt; has_paths(alloc, &closed, 3, &[]));
    let Ok(ladder) = drawn(ladder(alloc, 14)) else {
        assert!(rt; false, "the ladder is no automaton");
        return Ok(());
    };
    assert_eq!(rt;
        faults(alloc, &ladder, 10000, 1000000),
        Some(PathFault::TooManyPaths)
    );
    assert_eq!(rt; faults(alloc, &ladder, 16384, 1000000), None);
    Ok(())
}

// The n ways of stairs have 1, 2, .., n - 1 and n - 1 edges: 324 in all for 25 and 209 for 20. So the 10,000 paths
// have 400 * 324 + 500 * 209 + 500 * 209 + 10,000 * 66 = 998,600 edges.
#[test]
fn many_paths_of_many_edges(rt: HostRuntime) -> Result<(), Fail> {
    let alloc = rt.alloc();
    let Ok(large) = drawn(large(alloc)) else {
        assert!(rt; false, "the stairs are no automaton");
        return Ok(());
    };
    assert_eq!(rt; large.edges().len(), 40000);
    let Ok(found) = listed(alloc, &large, 1, 10000, 1000000) else {
        assert!(rt; false, "not listed");
        return Ok(());
    };
    assert_eq!(rt; found.len(), 10000);
    assert_eq!(rt; faults(alloc, &large, 10000, 998600), None);
    assert_eq!(rt;
        faults(alloc, &large, 10000, 998599),
        Some(PathFault::TooManyEdges)
    );
    assert_eq!(rt;
        faults(alloc, &large, 9999, 1000000),
        Some(PathFault::TooManyPaths)
    );
    Ok(())
}
