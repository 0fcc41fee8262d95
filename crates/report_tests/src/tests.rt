//! Printed texts, byte for byte, of graphs and goals that are worked by hand.
use cfa::{Graph, Trap};
use containers::Vector;
use fq_core::Fault;
use fql_read::read_query;
use goals::{Answer, Plan, plan_of};
use path_runner::{Ends, RunEnd};
use report::{goals_text, inputs_text, measured_json, measured_text, runs_text};
use std::alloc::{AllocError, Global};
use std::test::Fail;
use test_programs::{graph_of, graph_of_texts, text_of};

// Nodes 0 (entry), 1 (exit), 2, 3; e0: 0 to 3, true; e1: 0 to 2, false; e2: 3 to 1, line 3; e3: 2 to 1, line 5.
const RETURNS: &str = "int f(int x) {\n  if (x > 10) {\n    return 1;\n  }\n  return 0;\n}\n";

fn plan(alloc: Global, graph: &Graph, query: &str) -> Result<Plan, Fault> {
    plan_of(alloc, &read_query(alloc, query.as_bytes())?, graph)
}

fn returned(value: u64) -> RunEnd {
    RunEnd::Returned { value: Some(value) }
}

fn measured(
    alloc: Global,
    graph: &Graph,
    query: &str,
    ends: &[RunEnd],
    answers: &[Answer],
    kept: &[u32],
    counted: Ends,
) -> Result<(Vec<u8>, Vec<u8>), Fault> {
    let plan = plan(alloc, graph, query)?;
    if plan.goals.len() != answers.len() {
        return Err(Fault::Memory);
    }
    let text = measured_text(alloc, graph, &plan, 0, ends, answers, kept, counted)?;
    let line = measured_json(alloc, graph, &plan, 0, ends, answers, kept, counted)?;
    Ok((text, line))
}

#[test]
fn a_measured_graph(rt: HostRuntime) -> Result<(), Fail> {
    let alloc = rt.alloc();
    let Ok(graph) = graph_of(alloc, b"a.c", RETURNS) else {
        return Err(Fail::from("no graph"));
    };
    let ends = [returned(0), returned(1)];
    let answers = [
        Answer::Covered { input: 2 },
        Answer::Covered { input: 1 },
        Answer::Covered { input: 2 },
        Answer::Covered { input: 1 },
    ];
    let Ok((text, line)) = measured(
        alloc,
        &graph,
        "cover EDGES(ID)",
        &ends,
        &answers,
        &[1, 2],
        Ends::Returned,
    ) else {
        return Err(Fail::from("no text"));
    };
    assert_eq!(rt;
        text.as_slice(),
        b"goals 4 inputs 2
input 1 returned 0
input 2 returned 1
goal 1 covered 2 e0@a.c:2
goal 2 covered 1 e1@a.c:2
goal 3 covered 2 e2@a.c:3
goal 4 covered 1 e3@a.c:5
suite 1 2
covered 4 of 4
"
            .as_slice()
    );
    assert_eq!(rt;
        line.as_slice(),
        b"{\"covered\":4,\"goals\":[{\"answer\":\"covered\",\"input\":2,\"text\":\"e0@a.c:2\"},{\"answer\":\"covered\",\"input\":1,\"text\":\"e1@a.c:2\"},{\"answer\":\"covered\",\"input\":2,\"text\":\"e2@a.c:3\"},{\"answer\":\"covered\",\"input\":1,\"text\":\"e3@a.c:5\"}],\"inputs\":[{\"end\":\"returned\",\"value\":0},{\"end\":\"returned\",\"value\":1}],\"suite\":[1,2]}\n".as_slice()
    );
    let missed = [Answer::Missed; 4];
    let Ok((text, _line)) = measured(
        alloc,
        &graph,
        "cover EDGES(ID)",
        &[],
        &missed,
        &[],
        Ends::Returned,
    ) else {
        return Err(Fail::from("no text"));
    };
    assert_eq!(rt;
        text.as_slice(),
        b"goals 4 inputs 0
goal 1 missed e0@a.c:2
goal 2 missed e1@a.c:2
goal 3 missed e2@a.c:3
goal 4 missed e3@a.c:5
suite
covered 0 of 4
"
            .as_slice()
    );
    Ok(())
}

#[test]
fn ends_and_answers(rt: HostRuntime) -> Result<(), Fail> {
    let alloc = rt.alloc();
    let Ok(graph) = graph_of(alloc, b"b\xff.c", "void f(void) {}") else {
        return Err(Fail::from("no graph"));
    };
    let ends = [
        RunEnd::Returned { value: None },
        RunEnd::Trapped(Trap::ZeroDivisor),
        RunEnd::Trapped(Trap::OverflowDivisor),
        RunEnd::Trapped(Trap::Index),
        RunEnd::Trapped(Trap::Shift),
        RunEnd::Trapped(Trap::Assert),
        RunEnd::Blocked,
        RunEnd::TooDeep,
        RunEnd::Cut,
    ];
    let answers = [Answer::Covered { input: 1 }, Answer::Missed];
    let Ok((text, line)) = measured(
        alloc,
        &graph,
        "cover NODES(ID)",
        &ends,
        &answers,
        &[1],
        Ends::Returned,
    ) else {
        return Err(Fail::from("no text"));
    };
    assert_eq!(rt;
        text.as_slice(),
        b"goals 2 inputs 9
input 1 returned
input 2 trapped zero-divisor
input 3 trapped overflow-divisor
input 4 trapped index
input 5 trapped shift
input 6 trapped assert
input 7 blocked
input 8 too-deep
input 9 cut
goal 1 covered 1 n0@b\xff.c:1
goal 2 missed n1@b\xff.c:1
suite 1
covered 1 of 2
"
            .as_slice()
    );
    assert_eq!(rt;
        line.as_slice(),
        b"{\"covered\":1,\"goals\":[{\"answer\":\"covered\",\"input\":1,\"text\":\"n0@b?.c:1\"},{\"answer\":\"missed\",\"text\":\"n1@b?.c:1\"}],\"inputs\":[{\"end\":\"returned\"},{\"end\":\"trapped zero-divisor\"},{\"end\":\"trapped overflow-divisor\"},{\"end\":\"trapped index\"},{\"end\":\"trapped shift\"},{\"end\":\"trapped assert\"},{\"end\":\"blocked\"},{\"end\":\"too-deep\"},{\"end\":\"cut\"}],\"suite\":[1]}\n".as_slice()
    );
    Ok(())
}

// The third value is -2147483648.
#[test]
fn runs(rt: HostRuntime) -> Result<(), Fail> {
    let alloc = rt.alloc();
    let Ok(graph) = graph_of(alloc, b"a.c", RETURNS) else {
        return Err(Fail::from("no graph"));
    };
    let runs = [
        (returned(0), Vector::from_vec([1, 3].to_vec(alloc)?)),
        (returned(1), Vector::from_vec([0, 2].to_vec(alloc)?)),
        (returned(18446744071562067968), Vector::new(alloc)),
        (RunEnd::Cut, Vector::from_vec([1].to_vec(alloc)?)),
    ];
    let Ok(text) = runs_text(alloc, &graph, 0, &runs) else {
        return Err(Fail::from("no text"));
    };
    assert_eq!(rt;
        text.as_slice(),
        b"input 1 returned 0 edges 1 3
input 2 returned 1 edges 0 2
input 3 returned -2147483648 edges
input 4 cut edges 1
"
            .as_slice()
    );
    Ok(())
}

// The third value is -2147483648.
#[test]
fn ends_of_inputs(rt: HostRuntime) -> Result<(), Fail> {
    let alloc = rt.alloc();
    let Ok(graph) = graph_of(alloc, b"a.c", RETURNS) else {
        return Err(Fail::from("no graph"));
    };
    let ends = [
        returned(0),
        RunEnd::Trapped(Trap::Index),
        returned(18446744071562067968),
        RunEnd::TooDeep,
        RunEnd::Cut,
    ];
    let Ok(text) = inputs_text(alloc, &graph, 0, &ends) else {
        return Err(Fail::from("no text"));
    };
    assert_eq!(rt;
        text.as_slice(),
        b"input 1 returned 0
input 2 trapped index
input 3 returned -2147483648
input 4 too-deep
input 5 cut
"
            .as_slice()
    );
    Ok(())
}

fn listed(alloc: Global, graph: &Graph, query: &str) -> Result<Vec<u8>, Fault> {
    let plan = plan(alloc, graph, query)?;
    Ok(goals_text(alloc, graph, &plan)?)
}

#[test]
fn goals_of_queries(rt: HostRuntime) -> Result<(), Fail> {
    let alloc = rt.alloc();
    let conditions =
        "int f(int a, int b, int c) {\n  if (a > 0 && b > 0 && c > 0) {\n    return 1;\n  }\n  return 0;\n}\n";
    let Ok(graph) = graph_of(alloc, b"q.c", conditions) else {
        return Err(Fail::from("no graph"));
    };
    for (query, text) in [
        (
            "cover PATHS(@CONDITIONGRAPH,1)",
            "goals 4\ngoal 1 e0@q.c:2 . e2@q.c:2 . e4@q.c:2\ngoal 2 e0@q.c:2 . e2@q.c:2 . e5@q.c:2\ngoal 3 e0@q.c:2 . e3@q.c:2\ngoal 4 e1@q.c:2\n",
        ),
        (
            "cover {a == 1} . @LINE(3) -> @LINE(5)",
            "goals 1\ngoal 1 {a == 1} . e6@q.c:3 . \"ID*\" . e7@q.c:5\n",
        ),
        (
            "cover PRED(@LINE(3),{a == 1})",
            "goals 4\ngoal 1 {a == 1} . e6@q.c:3 . {a == 1}\ngoal 2 {a == 1} . e6@q.c:3 . !{a == 1}\ngoal 3 !{a == 1} . e6@q.c:3 . {a == 1}\ngoal 4 !{a == 1} . e6@q.c:3 . !{a == 1}\n",
        ),
    ] {
        match listed(alloc, &graph, query) {
            Ok(made) => assert_eq!(rt; made.as_slice(), text.as_bytes(), "at {query}"),
            Err(_fault) => return Err(Fail::from("no text")),
        }
    }
    Ok(())
}

#[test]
fn goals_in_two_sources(rt: HostRuntime) -> Result<(), Fail> {
    let alloc = rt.alloc();
    let first = text_of(alloc, b"p1.c", "int g(int v) { return v; }\n");
    let second = text_of(
        alloc,
        b"p2.c",
        "int f(int x) {\n  int y = 0;\n  if (x > 3) {\n    y = g(x);\n  }\n  return y;\n}\n",
    );
    let (Ok(first), Ok(second)) = (first, second) else {
        return Err(Fail::from("no memory"));
    };
    let Ok(graph) = graph_of_texts(alloc, &[first, second]) else {
        return Err(Fail::from("no graph"));
    };
    let Ok(text) = listed(alloc, &graph, "cover EDGES(ID)") else {
        return Err(Fail::from("no text"));
    };
    assert_eq!(rt;
        text.as_slice(),
        b"goals 8
goal 1 e0@p1.c:1
goal 2 e1@p2.c:2
goal 3 e2@p2.c:3
goal 4 e3@p2.c:3
goal 5 e4@p2.c:4
goal 6 e5@p2.c:4
goal 7 e6@p2.c:4
goal 8 e7@p2.c:6
"
            .as_slice()
    );
    Ok(())
}

// A function with so many statements `;`.
fn long_source(alloc: Global, count: u32) -> Result<String, AllocError> {
    let mut text = String::from_str(alloc, "void f(void) {\n")?;
    for _ in 0..count {
        text.push_str(";\n")?;
    }
    text.push_str("}\n")?;
    Ok(text)
}

#[test]
fn ten_thousand_goals(rt: HostRuntime) -> Result<(), Fail> {
    let alloc = rt.alloc();
    let source = long_source(alloc, 10_000)?;
    let Ok(graph) = graph_of(alloc, b"l.c", source.as_str()) else {
        return Err(Fail::from("no graph"));
    };
    let answers = vec![in alloc; Answer::Covered { input: 1 }; 10_000]?;
    let Ok((text, line)) = measured(
        alloc,
        &graph,
        "cover EDGES(ID)",
        &[returned(0)],
        &answers,
        &[1],
        Ends::Returned,
    ) else {
        return Err(Fail::from("no text"));
    };
    assert!(rt;
        text.as_slice().starts_with(
            b"goals 10000 inputs 1\ninput 1 returned\ngoal 1 covered 1 e0@l.c:2\n"
        )
    );
    assert!(rt;
        text.as_slice().ends_with(
            b"goal 10000 covered 1 e9999@l.c:10001\nsuite 1\ncovered 10000 of 10000\n"
        )
    );
    assert!(rt;
        line.as_slice().ends_with(
            b"\"text\":\"e9999@l.c:10001\"}],\"inputs\":[{\"end\":\"returned\"}],\"suite\":[1]}\n"
        )
    );
    Ok(())
}

#[test]
fn counted_ends(rt: HostRuntime) -> Result<(), Fail> {
    let alloc = rt.alloc();
    let Ok(graph) = graph_of(alloc, b"b.c", "void f(void) {}") else {
        return Err(Fail::from("no graph"));
    };
    let answers = [Answer::Missed, Answer::Missed];
    let cases: [(Ends, &str, &str); 2] = [
        (
            Ends::Trapped,
            "goals 2 inputs 0 ends trapped\n",
            "{\"covered\":0,\"ends\":\"trapped\",\"goals\":[",
        ),
        (
            Ends::Any,
            "goals 2 inputs 0 ends any\n",
            "{\"covered\":0,\"ends\":\"any\",\"goals\":[",
        ),
    ];
    for (counted, first, front) in cases {
        let Ok((text, line)) = measured(
            alloc,
            &graph,
            "cover NODES(ID)",
            &[],
            &answers,
            &[],
            counted,
        ) else {
            return Err(Fail::from("no text"));
        };
        assert!(rt; text.starts_with(first.as_bytes()), "{first}");
        assert!(rt; line.starts_with(front.as_bytes()), "{front}");
    }
    Ok(())
}
