//! The texts of automata and of events, byte for byte, of sources whose nodes and edges are worked by hand from the table of the
//! automaton.
use cfa::Graph;
use containers::Vector;
use path_runner::RunEnd;
use report::{events_text, graph_text};
use std::alloc::Global;
use std::test::Fail;
use test_programs::{graph_of, graph_of_texts, texts_of};

// Two sources, with each operation and each mark.
const ONE: &str = "int in(void);\nint limit = 1;\nint g(int v) {\n  return v + limit;\n}\n";

const TWO: &str =
    "int f(int x) {\n  int a[2];\n  while (x > 1 && x) {\n    x = in();\n  }\n  assume(x);\n  a[0] = g(x);\n  assert(a[0]);\ndone: return a[1];\n}\n";

const ONE_AND_TWO: &[u8] = b"functions 2 inputs 1 nodes 16 edges 17
function 0 g entry 0 exit 1
function 1 f entry 2 exit 3
input 0 in
node 0 g one.c:3 depth 0
node 1 g one.c:5 depth 0
node 2 f two.c:1 depth 0
node 3 f two.c:10 depth 0
node 4 f two.c:3 depth 0
node 5 f two.c:6 depth 0
node 6 f two.c:3 depth 1
node 7 f two.c:3 depth 1
node 8 f two.c:3 depth 1
node 9 f two.c:3 depth 1
node 10 f two.c:4 depth 1
node 11 f two.c:7 depth 0
node 12 f two.c:8 depth 0
node 13 f two.c:7 depth 0
node 14 f two.c:9 depth 0
node 15 f two.c:9 depth 0
edge 0 from 0 to 1 one.c:4:3 RETURN assign reads v limit
edge 1 from 2 to 4 two.c:2:3 DECL clear writes a
edge 2 from 4 to 6 two.c:3:3 WHILE skip enter
edge 3 from 6 to 9 two.c:3:10 WHILE guard true decision reads x
edge 4 from 6 to 5 two.c:3:10 WHILE guard false decision outcome reads x
edge 5 from 9 to 7 two.c:3:19 WHILE guard true decision outcome reads x
edge 6 from 9 to 5 two.c:3:19 WHILE guard false decision outcome reads x
edge 7 from 7 to 10 two.c:4:5 ASSIGN answer in
edge 8 from 10 to 8 two.c:4:5 ASSIGN assign writes x
edge 9 from 8 to 6 two.c:3:3 WHILE skip back
edge 10 from 5 to 11 two.c:6:3 ASSUME assume reads x
edge 11 from 11 to 0 two.c:7:3 ASSIGN call g reads x
edge 12 from 1 to 13 two.c:7:3 ASSIGN return g
edge 13 from 13 to 12 two.c:7:3 ASSIGN assign writes a
edge 14 from 12 to 14 two.c:8:3 ASSERT assert reads a
edge 15 from 14 to 15 two.c:9:1 LABEL skip label done
edge 16 from 15 to 3 two.c:9:7 RETURN assign reads a
";

// The statement kinds that the others don't have.
const KINDS: &str =
    "void h(int x) {\n  do { ; } while (x);\n  for (; x; ) break;\n  switch (x) { case 1: ; default: x++; }\n  if (x) h(x); else return;\n}\n";

const OF_KINDS: &[u8] = b"functions 1 inputs 0 nodes 16 edges 20
function 0 h entry 0 exit 1
node 0 h k.c:1 depth 0
node 1 h k.c:6 depth 0
node 2 h k.c:3 depth 0
node 3 h k.c:2 depth 1
node 4 h k.c:2 depth 1
node 5 h k.c:2 depth 1
node 6 h k.c:4 depth 0
node 7 h k.c:3 depth 1
node 8 h k.c:3 depth 1
node 9 h k.c:3 depth 1
node 10 h k.c:5 depth 0
node 11 h k.c:4 depth 0
node 12 h k.c:4 depth 0
node 13 h k.c:4 depth 0
node 14 h k.c:5 depth 0
node 15 h k.c:5 depth 0
edge 0 from 0 to 3 k.c:2:3 DO skip enter
edge 1 from 3 to 4 k.c:2:8 EMPTY skip
edge 2 from 4 to 5 k.c:2:19 DO guard true decision outcome reads x
edge 3 from 4 to 2 k.c:2:19 DO guard false decision outcome reads x
edge 4 from 5 to 3 k.c:2:3 DO skip back
edge 5 from 2 to 7 k.c:3:3 FOR skip enter
edge 6 from 7 to 8 k.c:3:10 FOR guard true decision outcome reads x
edge 7 from 7 to 6 k.c:3:10 FOR guard false decision outcome reads x
edge 8 from 8 to 6 k.c:3:15 JUMP skip
edge 9 from 9 to 7 k.c:3:3 FOR skip back
edge 10 from 6 to 13 k.c:4:3 SWITCH assign reads x
edge 11 from 13 to 11 k.c:4:16 SWITCH guard true decision outcome
edge 12 from 13 to 12 k.c:4:16 SWITCH guard false decision outcome
edge 13 from 11 to 12 k.c:4:24 EMPTY skip
edge 14 from 12 to 10 k.c:4:35 ASSIGN assign writes x reads x
edge 15 from 10 to 14 k.c:5:7 IF guard true decision outcome reads x
edge 16 from 10 to 15 k.c:5:7 IF guard false decision outcome reads x
edge 17 from 14 to 0 k.c:5:10 CALL call h reads x
edge 18 from 1 to 1 k.c:5:10 CALL return h
edge 19 from 15 to 1 k.c:5:21 RETURN skip
";

#[test]
fn operations_and_marks(rt: HostRuntime) -> Result<(), Fail> {
    let alloc = rt.alloc();
    let Ok(texts) = texts_of(alloc, &[("one.c", ONE), ("two.c", TWO)]) else {
        return Err(Fail::from("no memory"));
    };
    let Ok(graph) = graph_of_texts(alloc, &texts) else {
        return Err(Fail::from("no graph"));
    };
    let Ok(text) = graph_text(alloc, &graph) else {
        return Err(Fail::from("no text"));
    };
    assert_eq!(rt; text.as_slice(), ONE_AND_TWO);
    Ok(())
}

#[test]
fn statement_kinds(rt: HostRuntime) -> Result<(), Fail> {
    let alloc = rt.alloc();
    let Ok(graph) = graph_of(alloc, b"k.c", KINDS) else {
        return Err(Fail::from("no graph"));
    };
    let Ok(text) = graph_text(alloc, &graph) else {
        return Err(Fail::from("no text"));
    };
    assert_eq!(rt; text.as_slice(), OF_KINDS);
    Ok(())
}

// The text of the events of one run along these edges of the function of a number.
fn told(
    alloc: Global,
    graph: &Graph,
    entry: u32,
    end: RunEnd,
    edges: &[u32],
) -> Result<Vec<u8>, Fail> {
    let runs = [(end, Vector::from_vec(edges.to_vec(alloc)?))];
    match events_text(alloc, graph, entry, &runs) {
        Ok(text) => Ok(text),
        Err(_) => Err(Fail::from("no text")),
    }
}

// The run of the argument 2 with the answer 1.
#[test]
fn events_of_operations(rt: HostRuntime) -> Result<(), Fail> {
    let alloc = rt.alloc();
    let Ok(texts) = texts_of(alloc, &[("one.c", ONE), ("two.c", TWO)]) else {
        return Err(Fail::from("no memory"));
    };
    let Ok(graph) = graph_of_texts(alloc, &texts) else {
        return Err(Fail::from("no graph"));
    };
    let end = RunEnd::Returned { value: Some(0) };
    let edges = [1, 2, 3, 5, 7, 8, 9, 4, 10, 11, 0, 12, 13, 14, 15, 16];
    let text = told(alloc, &graph, 1, end, &edges)?;
    assert_eq!(rt;
        text.as_slice(),
        b"input 1 returned 0
did DECL two.c:2:3 a
enters WHILE two.c:3:3
outcome WHILE two.c:3:10 true
outcome WHILE two.c:3:19 true settles
answered in
did ASSIGN two.c:4:5 x
again WHILE two.c:3:3
outcome WHILE two.c:3:10 false settles
did ASSUME two.c:6:3
entered g
did RETURN one.c:4:3
left g
did ASSIGN two.c:7:3 a
did ASSERT two.c:8:3
did LABEL two.c:9:1 done
did RETURN two.c:9:7
"
            .as_slice()
    );
    Ok(())
}

// Edges of several statements, of which no run takes them in this order.
#[test]
fn events_of_kinds(rt: HostRuntime) -> Result<(), Fail> {
    let alloc = rt.alloc();
    let Ok(graph) = graph_of(alloc, b"k.c", KINDS) else {
        return Err(Fail::from("no graph"));
    };
    let edges = [10, 11, 13, 14, 15, 17, 18, 8, 9, 19];
    let text = told(alloc, &graph, 0, RunEnd::Cut, &edges)?;
    assert_eq!(rt;
        text.as_slice(),
        b"input 1 cut
valued SWITCH k.c:4:3
outcome SWITCH k.c:4:16 true settles
did EMPTY k.c:4:24
did ASSIGN k.c:4:35 x
outcome IF k.c:5:7 true settles
entered h
left h
did CALL k.c:5:10
did JUMP k.c:3:15
again FOR k.c:3:3
did RETURN k.c:5:21
"
            .as_slice()
    );
    Ok(())
}
