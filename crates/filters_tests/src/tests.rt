// What filters keep of three automata, worked by hand from the tables of docs/GRAPH.md and docs/QUERY.md.
mod sources;
mod worked;

use c_front::automaton_of_texts;
use cfa::Graph;
use filters::{TargetGraph, apply, missing};
use fq_core::{Fault, Memory};
use fql_read::{CoverTree, Filter, read_query};
use sources::{ARRAYS, KEPT_OF_ARRAYS, KEPT_OF_LOOPS, LOOPS};
use std::alloc::Global;
use std::test::Fail;
use test_programs::texts_of;
use worked::parts;

type Case = (&'static str, &'static [u32], &'static [u32]);

// A query, and the nodes and the edges that its filter keeps of the whole automaton.
static KEPT: [Case; 20] = [
    (
        "cover ID",
        &[0, 1, 2, 3, 4, 5, 6, 7],
        &[0, 1, 2, 3, 4, 5, 6, 7],
    ),
    (
        "cover @FILE(p.c)",
        &[0, 1, 2, 3, 4, 5, 6, 7],
        &[0, 1, 2, 3, 4, 5, 6, 7],
    ),
    ("cover @LINE(5)", &[0, 1, 5, 6, 7], &[4, 5, 6]),
    (
        "cover @FUNC(f)",
        &[2, 3, 4, 5, 6, 7],
        &[1, 2, 3, 4, 5, 6, 7],
    ),
    ("cover @LABEL(L)", &[6, 7], &[6]),
    ("cover @CALL(g)", &[0, 5], &[4]),
    ("cover @ENTRY(f)", &[2, 4], &[1]),
    ("cover @EXIT(g)", &[0, 1], &[0]),
    (
        "cover @BASICBLOCKENTRY",
        &[0, 1, 2, 3, 4, 5, 6],
        &[0, 1, 4, 7],
    ),
    ("cover @CONDITIONEDGE", &[4, 5, 6], &[2, 3]),
    ("cover @STMTTYPE(IF,DECL)", &[2, 4, 5, 6], &[1, 2, 3]),
    ("cover @DEF(y)", &[2, 4, 6, 7], &[1, 6]),
    ("cover @DEF(x)", &[], &[]),
    ("cover @USE(x)", &[0, 4, 5, 6], &[2, 3, 4]),
    ("cover NOT(@FUNC(f))", &[0, 1], &[0]),
    ("cover UNION(@CALL(g),@LINE(7))", &[0, 3, 5, 6], &[4, 7]),
    ("cover INTERSECT(@LINE(5),@DEF(y))", &[6, 7], &[6]),
    (
        "cover SETMINUS(@FUNC(f),@LINE(5))",
        &[2, 3, 4, 5, 6],
        &[1, 2, 3, 7],
    ),
    ("cover COMPOSE(@CALL(g),@FUNC(f))", &[5], &[4]),
    (
        "cover COMPOSE(@DECISIONEDGE,@CONDITIONGRAPH)",
        &[4, 5, 6],
        &[2, 3],
    ),
];

// A query, and the column of the filter whose name isn't there.
static MISSING: [(&str, u32); 6] = [
    ("cover @FUNC(h)", 7),
    ("cover @FILE(q.c)", 7),
    ("cover @LABEL(M)", 7),
    ("cover @CALL(x)", 7),
    ("cover UNION(@CALL(g),@DEF(z))", 22),
    ("cover COMPOSE(@USE(z),@ENTRY(h))", 15),
];

// What a filter comes to over the whole automaton.
#[derive(Drop)]
enum Applied {
    Kept(TargetGraph),
    /// The column of a filter whose name isn't there.
    Missing(u32),
}

fn over_whole(alloc: Global, graph: &Graph, filter: &Filter) -> Result<Applied, Memory> {
    if let Some(column) = missing(alloc, graph, filter)? {
        return Ok(Applied::Missing(column));
    }
    let whole = TargetGraph::whole(alloc, graph)?;
    Ok(Applied::Kept(apply(alloc, filter, graph, &whole)?))
}

fn of_cover(alloc: Global, graph: &Graph, cover: &CoverTree) -> Result<Applied, Fault> {
    match cover {
        CoverTree::Edges(split) => Ok(over_whole(alloc, graph, &split.filter)?),
        _ => Err(Fault::Memory),
    }
}

// What the filter of a query keeps of the whole automaton.
fn kept(alloc: Global, graph: &Graph, text: &str) -> Result<Applied, Fault> {
    match read_query(alloc, text.as_bytes()) {
        Ok(query) => of_cover(alloc, graph, &query.cover.body),
        Err(fault) => Err(fault),
    }
}

fn is_kept(alloc: Global, graph: &Graph, case: &Case) -> bool {
    match kept(alloc, graph, case.0) {
        Ok(Applied::Kept(target)) => {
            target.nodes.as_slice() == case.1 && target.edges.as_slice() == case.2
        }
        _ => false,
    }
}

fn is_missing(alloc: Global, graph: &Graph, text: &str, column: u32) -> bool {
    match kept(alloc, graph, text) {
        Ok(Applied::Missing(own)) => own == column,
        _ => false,
    }
}

#[test]
fn filters_keep(rt: HostRuntime) -> Result<(), Fail> {
    let alloc = rt.alloc();
    let parts = parts(alloc)?;
    let Ok(graph) = Graph::new(alloc, parts) else {
        assert!(rt; false, "the parts are no automaton");
        return Ok(());
    };
    for case in &KEPT {
        let text = case.0;
        assert!(rt; is_kept(alloc, &graph, case), "{text}");
    }
    for case in &MISSING {
        let text = case.0;
        assert!(rt; is_missing(alloc, &graph, text, case.1), "{text}");
    }
    let whole = TargetGraph::whole(alloc, &graph)?;
    assert!(rt; whole.has_node(7) && !whole.has_node(8) && whole.has_edge(0) && !whole.has_edge(8));
    Ok(())
}

// The automata of sources: recursion, a loop, a label, a `switch` and two files; arrays that are lent.
#[test]
fn filters_keep_of_sources(rt: HostRuntime) -> Result<(), Fail> {
    let alloc = rt.alloc();
    for (files, cases) in [
        (LOOPS.as_slice(), KEPT_OF_LOOPS.as_slice()),
        (ARRAYS.as_slice(), KEPT_OF_ARRAYS.as_slice()),
    ] {
        let Ok(texts) = texts_of(alloc, files) else {
            return Err(Fail::from("no memory"));
        };
        assert!(rt; c_lex::are_small(&texts));
        assert!(rt; texts.len() < 10);
        let Ok(graph) = automaton_of_texts(alloc, &texts) else {
            assert!(rt; false, "no automaton");
            return Ok(());
        };
        for case in cases {
            let text = case.0;
            assert!(rt; is_kept(alloc, &graph, case), "{text}");
        }
    }
    Ok(())
}
