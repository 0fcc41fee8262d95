// Queries with their goals, patterns and refusals.
mod shown;

use fq_core::Fault;
use shown::{planned, show_names, show_pattern, show_refusal, show_words};
use std::alloc::Global;
use std::fmt::Write;
use std::test::Fail;
use test_programs::graph_of;

// Nodes 0 (entry), 1 (exit), 2, 3; e0: 0 to 3, true; e1: 0 to 2, false; e2: 3 to 1, line 3; e3: 2 to 1, line 5.
const RETURNS: &str = "int f(int x) {
  if (x > 10) {
    return 1;
  }
  return 0;
}";

// e0: g's; e1: y = 0; e2, e3: the guards; e4: the call; e5: its return; e6: y is set; e7: return.
const CALLS: &str = "int g(int v) { return v; }
int f(int x) {
  int y = 0;
  if (x > 3) {
    y = g(x);
  }
  return y;
}";

// e0, e1: the guards of a > 0; e2, e3: those of b > 0; e4, e5: those of c > 0.
const CONDITIONS: &str = "int f(int a, int b, int c) {
  if (a > 0 && b > 0 && c > 0) {
    return 1;
  }
  return 0;
}";

// The words of the goals, or the refusal.
fn goals_text(alloc: Global, source: &str, query: &str) -> Result<String, Fail> {
    let mut text = String::new(alloc);
    let graph = match graph_of(alloc, b"t.c", source) {
        Ok(graph) => graph,
        Err(_fault) => {
            text.push_str("no graph")?;
            return Ok(text);
        }
    };
    match planned(alloc, &graph, query) {
        Ok(plan) => show_words(&mut text, &plan.goals)?,
        Err(Fault::Refused(refusal)) => show_refusal(&mut text, &refusal)?,
        Err(Fault::Memory) => text.push_str("memory")?,
    }
    Ok(text)
}

#[test]
fn words_in_order(rt: HostRuntime) -> Result<(), Fail> {
    let rows = [
        (RETURNS, "cover NODES(ID)", " n0, n1, n2, n3,"),
        (RETURNS, "cover @LINE(2)", " e0, e1,"),
        (RETURNS, "cover @LINE(2).@LINE(3)", " e0 e2, e1 e2,"),
        (
            RETURNS,
            "cover (@LINE(2)+@LINE(3)).(@LINE(3)+@LINE(5))",
            " e0 e2, e0 e3, e1 e2, e1 e3, e2 e2, e2 e3,",
        ),
        (RETURNS, "cover @LINE(3)+ID", " e2, e0, e1, e3,"),
        (
            RETURNS,
            "cover @LINE(2).@LINE(3)+@LINE(3)+@LINE(2).ID",
            " e0 e2, e1 e2, e2, e0 e0, e0 e1, e0 e3, e1 e0, e1 e1, e1 e3,",
        ),
        (RETURNS, "cover PATHS(ID,1)", " e0 e2, e1 e3,"),
        (
            RETURNS,
            "in @LINE(2) cover NODES(ID)+ID",
            " n0, n2, n3, e0, e1,",
        ),
        (RETURNS, "in NOT(@LINE(2)) cover ID", " e2, e3,"),
        (RETURNS, "cover @LINE(3)->@LINE(5)", " e2 q0 e3,"),
        (
            RETURNS,
            "cover @LINE(3)->@LINE(5) + @LINE(3).\"ID*\".@LINE(5) + @LINE(3).\"ID *\".@LINE(5)",
            " e2 q0 e3, e2 q1 e3,",
        ),
        (RETURNS, "cover \"ID.ID\"+\"ID*\"+\"ID.ID\"", " q0, q1,"),
        (
            RETURNS,
            "cover {x}.ID->{y}+{x}.@LINE(3)",
            " p0 e0 q0 p1, p0 e1 q0 p1, p0 e2 q0 p1, p0 e3 q0 p1, p0 e2,",
        ),
        (
            RETURNS,
            "cover NODES(PRED(@LINE(3),{x}))",
            " n1 p0, n1 !p0, n3 p0, n3 !p0,",
        ),
        (
            RETURNS,
            "cover PRED(@LINE(3),{x})",
            " p0 e2 p0, p0 e2 !p0, !p0 e2 p0, !p0 e2 !p0,",
        ),
        (
            RETURNS,
            "cover {x > 1}.NODES(PRED(PRED(@LINE(3),{x}),{x > 1}))",
            " p0 n1 p1 p0, p0 n1 p1 !p0, p0 n1 !p1 p0, p0 n1 !p1 !p0, p0 n3 p1 p0, p0 n3 p1 !p0, p0 n3 !p1 p0, p0 n3 !p1 !p0,",
        ),
        (
            RETURNS,
            "cover NODES(PRED(PRED(@LINE(3),{x}),{x}))",
            " n1 p0, n1 !p0, n3 p0, n3 !p0,",
        ),
        (
            RETURNS,
            "cover \"PRED(@LINE(3),{x})\"+NODES(@LINE(3)).{x}+NODES(PRED(@LINE(3),{x}))",
            " q0, n1 p0, n3 p0, n1 !p0, n3 !p0,",
        ),
        (
            RETURNS,
            "in @LINE(2) cover NODES(PRED(ID,{x})).@LINE(3)",
            "72 query",
        ),
        (
            CONDITIONS,
            "cover PATHS(@CONDITIONGRAPH,1)",
            " e0 e2 e4, e0 e2 e5, e0 e3, e1,",
        ),
        (
            CALLS,
            "cover EDGES(@CALL(g)) + EDGES(@FUNC(f))",
            " e4, e1, e2, e3, e5, e6, e7,",
        ),
    ];
    for (source, query, expected) in rows {
        let text = goals_text(rt.alloc(), source, query)?;
        assert_eq!(rt; text.as_str(), expected, "{query}");
    }
    Ok(())
}

#[test]
fn refusals(rt: HostRuntime) -> Result<(), Fail> {
    let rows = [
        ("cover EDGES(@FUNC(zz))", "70 query:13"),
        ("in @FUNC(a) cover @FUNC(b) passing @FUNC(c)", "70 query:4"),
        (
            "cover ID.@FUNC(b).\"@FUNC(a)\" passing @FUNC(c)",
            "70 query:10",
        ),
        ("cover ID passing ID.@FUNC(c)", "70 query:21"),
        ("cover ID.ID.ID.ID.ID.ID.ID.ID", "71 limit 10000"),
        (
            "cover ID.ID.ID.ID.ID.ID.ID.ID passing @FUNC(c)",
            "70 query:39",
        ),
        (
            "cover ID.ID.ID.ID.ID.ID.ID.ID.\"(ID==80)==80\"",
            "71 limit 10000",
        ),
        ("cover ID.ID.ID.ID.ID.ID.ID.ID.@LINE(9)", "72 query"),
        (
            "cover ID.ID.ID.ID.ID.ID.ID.ID.ID.ID.ID.ID.ID.ID.ID.ID.ID.ID.ID.ID.ID.ID.ID.ID.ID.ID.ID.ID.ID.ID.ID.ID.ID",
            "71 limit 10000",
        ),
        ("cover \"(ID==80)==80\"", "73 limit 5000"),
        ("cover \"((ID==100)==100)==100\"", "73 limit 5000"),
        (
            "cover \"ID==100==100==100==100==100==100==100==100==100==100\"",
            "73 limit 5000",
        ),
        ("cover ID passing (ID==80)==80", "73 limit 5000"),
        ("cover @LINE(9) passing (ID==80)==80", "73 limit 5000"),
        ("cover @LINE(9).\"(ID==80)==80\"", "72 query"),
        ("cover ID.\"(ID==50)==100\"", "73 limit 5000"),
        ("cover \"(ID==50)==100\"", " q0,"),
        ("cover @LINE(999)", "72 query"),
    ];
    for (query, expected) in rows {
        let text = goals_text(rt.alloc(), RETURNS, query)?;
        assert_eq!(rt; text.as_str(), expected, "{query}");
    }
    Ok(())
}

// The patterns of the goals, the texts of the quoted letters, and the pattern of the passing clause.
fn patterns_text(alloc: Global, query: &str) -> Result<String, Fail> {
    let mut text = String::new(alloc);
    let graph = match graph_of(alloc, b"t.c", RETURNS) {
        Ok(graph) => graph,
        Err(_fault) => return Ok(text),
    };
    let plan = match planned(alloc, &graph, query) {
        Ok(plan) => plan,
        Err(_fault) => return Ok(text),
    };
    write!(text, "{}{} ", plan.first, plan.last)?;
    for goal in &plan.goals {
        show_pattern(&mut text, &goal.pattern(alloc)?)?;
        text.push_str(" ")?;
    }
    show_names(&mut text, &plan.quotes)?;
    show_names(&mut text, &plan.predicates)?;
    if let Some(passing) = &plan.passing {
        write!(text, " passing {}{} ", passing.first, passing.last)?;
        show_pattern(&mut text, &passing.pattern)?;
    }
    Ok(text)
}

#[test]
fn patterns_of_goals(rt: HostRuntime) -> Result<(), Fail> {
    let rows = [
        (
            "cover NODES(@LINE(3))->{x > 1}",
            "falsefalse ((n 1;.e 0 1 2 3;*0-).p0;) ((n 3;.e 0 1 2 3;*0-).p0;) ID*;x > 1;",
        ),
        (
            "in @LINE(2) cover ^@LINE(3)+ID->ID.\"NODES(ID)\"$",
            "truetrue (((e 0;.e 0 1;*0-).e 0;).n 0 2 3;) (((e 0;.e 0 1;*0-).e 1;).n 0 2 3;) (((e 1;.e 0 1;*0-).e 0;).n 0 2 3;) (((e 1;.e 0 1;*0-).e 1;).n 0 2 3;) ID*;NODES(ID);",
        ),
        (
            "in @LINE(3) cover ID->\"NODES(ID)\"$",
            "falsetrue ((e 2;.e 2;*0-).n 1 3;) ID*;NODES(ID);",
        ),
        (
            "cover \"PATHS(ID,1)<=2\".\"PATHS(@LINE(9),1)\" passing ^NOT(@LINE(3))*->\"@LINE(3)>=1\"$",
            "falsefalse (((e 0;.e 2;)+(e 1;.e 3;))*0-2.-) PATHS(ID,1)<=2;PATHS(@LINE(9),1); passing truetrue ((e 0 1 3;*0-.e 0 1 2 3;*0-).e 2;*1-)",
        ),
    ];
    for (query, expected) in rows {
        let text = patterns_text(rt.alloc(), query)?;
        assert_eq!(rt; text.as_str(), expected, "{query}");
    }
    Ok(())
}

// A function with so many `if`s in a row, and so many assignments behind them.
fn branches(alloc: Global, ifs: u32, assignments: u32) -> Result<String, Fail> {
    let mut text = String::new(alloc);
    text.push_str("int f(int x) {\n  int y = 0;\n")?;
    for _ in 0..ifs {
        text.push_str("  if (x > 0) { y = 1; }\n")?;
    }
    for _ in 0..assignments {
        text.push_str("  y = 1;\n")?;
    }
    text.push_str("  return y;\n}\n")?;
    Ok(text)
}

// 2^14 paths pass the limit of paths. 2^13 of 131 or 132 edges on average pass that of edges: 13 `if`s give a path 13 to 26
// edges, and there are 112 others. 100 edges make 10,000 words of two letters.
#[test]
fn limits_of_paths_and_words(rt: HostRuntime) -> Result<(), Fail> {
    let rows = [
        (14, 0, "cover PATHS(@FUNC(f),1)", "71 limit 10000"),
        (14, 0, "cover \"PATHS(@FUNC(f),1)\"", "71 limit 10000"),
        (
            14,
            0,
            "cover ID passing PATHS(@FUNC(f),1)",
            "71 limit 10000",
        ),
        (13, 110, "cover PATHS(@FUNC(f),1)", "71 limit 1000000"),
        (0, 98, "cover ID.ID.ID", "71 limit 10000"),
        (0, 98, "cover ID.ID+@LINE(3)", "71 limit 10000"),
    ];
    for (ifs, assignments, query, expected) in rows {
        let source = branches(rt.alloc(), ifs, assignments)?;
        let text = goals_text(rt.alloc(), source.as_str(), query)?;
        assert_eq!(rt; text.as_str(), expected, "{query}");
    }
    let source = branches(rt.alloc(), 0, 98)?;
    let Ok(graph) = graph_of(rt.alloc(), b"t.c", source.as_str()) else {
        assert!(rt; false, "the source has no graph");
        return Ok(());
    };
    let Ok(plan) = planned(rt.alloc(), &graph, "cover ID.ID") else {
        assert!(rt; false, "10,000 words are no plan");
        return Ok(());
    };
    assert_eq!(rt; plan.goals.len(), 10_000);
    Ok(())
}

// An automaton of 40,000 edges, 100 of them on line 3.
fn long_source(alloc: Global) -> Result<String, Fail> {
    let mut text = String::new(alloc);
    text.push_str("int f(int x) {\n  int y = 0;\n")?;
    for _ in 0..100 {
        text.push_str("y = 1;")?;
    }
    for _ in 0..39_898 {
        text.push_str("\ny = 1;")?;
    }
    text.push_str("\nreturn y;\n}\n")?;
    Ok(text)
}

// How many goals a query has, and how many letters in all; none where it has no plan.
fn sizes(alloc: Global, source: &str, query: &str) -> (usize, u64) {
    let Ok(graph) = graph_of(alloc, b"t.c", source) else {
        return (0, 0);
    };
    let Ok(plan) = planned(alloc, &graph, query) else {
        return (0, 0);
    };
    let mut letters = 0u64;
    for goal in &plan.goals {
        letters = letters.saturating_add(goal.word().len() as u64);
    }
    (plan.goals.len(), letters)
}

// 2^13 paths, with 102 edges and 13 to 26 more: 8,192 times 121 and a half. 10,000 goals with an arrow over 40,000 edges.
#[test]
fn many_goals(rt: HostRuntime) -> Result<(), Fail> {
    let source = branches(rt.alloc(), 13, 100)?;
    let found = sizes(rt.alloc(), source.as_str(), "cover PATHS(@FUNC(f),1)");
    assert_eq!(rt; found, (8192, 995_328));
    let source = long_source(rt.alloc())?;
    let found = sizes(rt.alloc(), source.as_str(), "cover @LINE(3)->@LINE(3)");
    assert_eq!(rt; found, (10_000, 30_000));
    Ok(())
}
