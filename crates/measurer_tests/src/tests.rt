// Expected hits: by hand, from the edges of the source and the definition of matches.
ghost use Rattle.std.specs.Prelude.{IsTrue};
ghost use Rattle.patterns.specs.Paths.{IsPath};
ghost use Rattle.measurer_hits.specs.hits.Hits.{path_in};
ghost use Rattle.measurer.specs.Measurers.{IsMadeFor};

mod compared;
mod plans;
mod slow;
mod traced;

use fq_core::Memory;
use goals::Plan;
use measurer::Measurer;
use path_runner::{Ends, PathRecord, RunEnd, Trap};
use plans::{RETURNS, plan, run};
use std::alloc::Global;
use std::fmt::Write;
use std::test::Fail;

// e0: g's return; e1: y = 0, from 2 to 4; e2, e3: the guards, true from 4 to 6 and false from 4 to 5; e4: the call, from 6 to
// 0; e5: its return edge, from 1 to 7; e6: y is set, from 7 to 5; e7: return, from 5 to 3.
const CALLS: &str = "int g(int v) { return v; }
int f(int x) {
  int y = 0;
  if (x > 3) {
    y = g(x);
  }
  return y;
}";

// The run on 9 of f, where bit 0 holds once y is set.
fn nine(alloc: Global) -> Result<PathRecord, Fail> {
    run(
        alloc,
        &[2, 4, 6, 0, 1, 7, 5, 3],
        &[1, 2, 4, 0, 5, 6, 7],
        &[0, 0, 0, 0, 0, 0, 1, 1],
        RunEnd::Returned { value: Some(9) },
    )
}

// The run on 2 of f, where bit 0 always holds.
fn two(alloc: Global) -> Result<PathRecord, Fail> {
    run(
        alloc,
        &[2, 4, 5, 3],
        &[1, 3, 7],
        &[1, 1, 1, 1],
        RunEnd::Returned { value: Some(0) },
    )
}

// There are fewer than a million edges, and one more node and mask than edges.
fn is_whole(run: &PathRecord) -> bool
    ensures { IsTrue result → IsPath (path_in run.now) }
{
    run.edges.len() < 1_000_000
        && run.nodes.len() == run.edges.len() + 1
        && run.masks.len() == run.edges.len() + 1
}

// Adds a run to a measurer of the plan.
fn add(measurer: &mut Measurer, plan: &Plan, run: &PathRecord) -> Result<(), Memory>
    requires { IsMadeFor plan.now measurer.old }
    ensures { IsMadeFor plan.now measurer.new }
{
    if is_whole(run) {
        measurer.add(plan, run, Ends::Returned)?;
    }
    Ok(())
}

// The hits of the runs for a plan, with a semicolon behind those of each run.
pub(crate) fn hits_of(alloc: Global, plan: &Plan, runs: &[PathRecord]) -> Result<String, Fail> {
    let mut measurer = Measurer::new(alloc, plan)?;
    'added: for run in runs {
        add(&mut measurer, plan, run)?;
    }
    let mut text = String::new(alloc);
    for hits in measurer.hits() {
        for goal in hits {
            write!(text, " {goal}")?;
        }
        text.push_str(";")?;
    }
    Ok(text)
}

// The same for a query over a source.
fn hits_text(
    alloc: Global,
    source: &str,
    query: &str,
    runs: &[PathRecord],
) -> Result<String, Fail> {
    let plan = plan(alloc, source, query)?;
    hits_of(alloc, &plan, runs)
}

#[test]
fn hits_of_two_runs(rt: HostRuntime) -> Result<(), Fail> {
    let rows = [
        ("cover @LINE(7)", " 1; 1;"),
        ("cover EDGES(ID)", " 1 2 3 5 6 7 8; 2 4 8;"),
        ("cover @LINE(5)", " 1 2 3;;"),
        ("cover ^@LINE(3)", " 1; 1;"),
        ("cover ^@LINE(7)", ";;"),
        ("cover @LINE(7)$", " 1; 1;"),
        ("cover @LINE(3)$", ";;"),
        ("cover ^@LINE(3).@LINE(4).@LINE(7)$", "; 2;"),
        ("cover @LINE(4).@LINE(7)", "; 2;"),
        ("cover @LINE(4)->@LINE(7)", " 1; 2;"),
        ("cover ^@LINE(4)->@LINE(7)", ";;"),
        ("cover @LINE(3)->@LINE(4)$", ";;"),
        ("cover NODES(@LINE(3))", " 1 2; 1 2;"),
        ("cover ^NODES(@LINE(3))", " 1; 1;"),
        ("cover NODES(@LINE(7))$", " 1; 1;"),
        ("cover \"ID*\".{y == 9}", " 1; 1;"),
        ("cover NODES(PRED(@LINE(7),{x == 2}))", " 1 3; 1 3;"),
        (
            "cover NODES(PRED(PRED(@LINE(3),{x == 2}),{y == 2}))",
            " 4 8; 2 6;",
        ),
        ("cover PRED(@LINE(3),{x == 2})", " 4; 1;"),
        ("cover ^PRED(@LINE(3),{x == 2})", " 4; 1;"),
        ("cover PRED(@LINE(5),{x == 2})", " 4 8 11;;"),
        ("cover PRED(@LINE(7),{x == 2})$", " 1; 1;"),
        ("cover ^PRED(@LINE(7),{x == 2})", ";;"),
        (
            "cover @LINE(7) passing ^NODES(PRED(@LINE(3),{x == 2}))",
            " 1; 1;",
        ),
        ("cover ^{x == 2}", "; 1;"),
        ("cover {x == 2}$", " 1; 1;"),
        ("cover ^{x == 2}.@LINE(3)", "; 1;"),
        ("cover @LINE(3).{x == 2}", "; 1;"),
        ("cover @LINE(4).{x == 2}.@LINE(7)", "; 2;"),
        ("cover @LINE(7) passing ^NOT(@CALL(g))*$", "; 1;"),
        ("cover @LINE(7) passing @CALL(g)", " 1;;"),
        ("cover ^@LINE(3) passing @LINE(7)", " 1; 1;"),
        ("cover @LINE(3) passing ^@LINE(7)", ";;"),
        ("cover @LINE(3) passing ^@LINE(3)$", ";;"),
        (
            "cover @LINE(3)+@LINE(3)->@LINE(5) passing ID*.@LINE(7)$",
            " 1 2 3 4; 1;",
        ),
    ];
    let alloc = rt.alloc();
    let runs = [nine(alloc)?, two(alloc)?];
    for (query, expected) in rows {
        let text = hits_text(alloc, CALLS, query, &runs)?;
        assert_eq!(rt; text.as_str(), expected, "{query}");
    }
    Ok(())
}

// A run that didn't return hits nothing, whatever its path.
#[test]
fn runs_that_do_not_return(rt: HostRuntime) -> Result<(), Fail> {
    let alloc = rt.alloc();
    let ends = [
        RunEnd::Trapped(Trap::ZeroDivisor),
        RunEnd::Blocked,
        RunEnd::TooDeep,
        RunEnd::Cut,
        RunEnd::Returned { value: None },
    ];
    let mut runs = Vec::new(alloc);
    for end in ends {
        runs.push(run(alloc, &[0, 3, 1], &[0, 2], &[0, 0, 0], end)?)?;
    }
    for query in ["cover @LINE(2)", "cover @LINE(2)->@LINE(3)"] {
        let text = hits_text(alloc, RETURNS, query, &runs)?;
        assert_eq!(rt; text.as_str(), ";;;; 1;", "{query}");
    }
    Ok(())
}

// The run on 2 of f along the same edges, with other truths of the predicate and another end.
fn as_two(alloc: Global, mask: u64, end: RunEnd) -> Result<PathRecord, Fail> {
    run(alloc, &[2, 4, 5, 3], &[1, 3, 7], &[1, mask, 1, 1], end)
}

// A run hits what an earlier run along its path hit, if its end counts and the same predicates held. Each path comes three
// times, since it is kept at the second.
#[test]
fn runs_along_known_paths(rt: HostRuntime) -> Result<(), Fail> {
    let alloc = rt.alloc();
    let runs = [
        as_two(alloc, 1, RunEnd::Blocked)?,
        two(alloc)?,
        nine(alloc)?,
        as_two(alloc, 0, RunEnd::Returned { value: Some(0) })?,
        as_two(alloc, 1, RunEnd::Trapped(Trap::Assert))?,
        two(alloc)?,
        as_two(alloc, 0, RunEnd::Returned { value: Some(0) })?,
        nine(alloc)?,
        two(alloc)?,
        as_two(alloc, 0, RunEnd::Returned { value: Some(0) })?,
        nine(alloc)?,
    ];
    let query = "cover @LINE(3).{x == 2}+@LINE(7)";
    let text = hits_text(alloc, CALLS, query, &runs)?;
    assert_eq!(rt; text.as_str(), "; 1 2; 2; 2;; 1 2; 2; 2; 1 2; 2; 2;");
    Ok(())
}

// A word that begins again after it failed, and the first of several runs.
#[test]
fn first_runs(rt: HostRuntime) -> Result<(), Fail> {
    let alloc = rt.alloc();
    // The goals are e0 e2, e0 e3, e1 e2 and e1 e3.
    let plan = plan(alloc, RETURNS, "cover @LINE(2).(@LINE(3)+@LINE(5))")?;
    let runs = [
        run(
            alloc,
            &[0, 3],
            &[0],
            &[0, 0],
            RunEnd::Returned { value: None },
        )?,
        run(
            alloc,
            &[0, 3, 0, 3, 1],
            &[0, 0, 3, 2],
            &[0, 0, 0, 0, 0],
            RunEnd::Returned { value: None },
        )?,
        run(
            alloc,
            &[0, 3, 1, 3, 1],
            &[0, 2, 0, 3],
            &[0, 0, 0, 0, 0],
            RunEnd::Returned { value: None },
        )?,
    ];
    let mut measurer = Measurer::new(alloc, &plan)?;
    assert_eq!(rt; measurer.first(1), None);
    'added: for run in &runs {
        add(&mut measurer, &plan, run)?;
    }
    assert_eq!(rt; measurer.hits().len(), 3);
    assert_eq!(rt; measurer.first(0), None);
    assert_eq!(rt; measurer.first(1), Some(3));
    assert_eq!(rt; measurer.first(2), Some(2));
    assert_eq!(rt; measurer.first(3), None);
    assert_eq!(rt; measurer.first(5), None);
    Ok(())
}

// Whether a run of the first edge and another is counted, where it ends so.
fn is_counted(alloc: Global, plan: &Plan, end: RunEnd, ends: Ends) -> Result<bool, Fail> {
    let run = run(alloc, &[0, 3, 1], &[0, 2], &[0, 0, 0], end)?;
    let mut measurer = Measurer::new(alloc, plan)?;
    if is_whole(&run) {
        measurer.add(plan, &run, ends)?;
    }
    Ok(measurer.first(1).is_some())
}

#[test]
fn ends_that_count(rt: HostRuntime) -> Result<(), Fail> {
    let alloc = rt.alloc();
    let plan = plan(alloc, RETURNS, "cover EDGES(ID)")?;
    for (ends, trapped, blocked) in [
        (Ends::Returned, false, false),
        (Ends::Trapped, true, false),
        (Ends::Any, true, true),
    ] {
        assert!(rt; is_counted(alloc, &plan, RunEnd::Returned { value: None }, ends)?);
        assert_eq!(rt;
            is_counted(alloc, &plan, RunEnd::Trapped(Trap::Index), ends)?,
            trapped
        );
        assert_eq!(rt; is_counted(alloc, &plan, RunEnd::Blocked, ends)?, blocked);
        assert_eq!(rt; is_counted(alloc, &plan, RunEnd::TooDeep, ends)?, blocked);
        assert!(rt; !is_counted(alloc, &plan, RunEnd::Cut, ends)?);
    }
    Ok(())
}

// 4096 goals of six edges over a run of 100,000 edges, which takes e0 to e3 in turn, and 1,000 short runs.
#[test]
fn many_goals_and_runs(rt: HostRuntime) -> Result<(), Fail> {
    let alloc = rt.alloc();
    let plan = plan(alloc, RETURNS, "cover ID.ID.ID.ID.ID.ID")?;
    assert_eq!(rt; plan.goals.len(), 4096);
    let mut nodes = vec![in alloc; 0u32]?;
    let mut edges = Vec::new(alloc);
    let mut masks = vec![in alloc; 0u64]?;
    for at in 0..100_000u32 {
        edges.push(at % 4)?;
        nodes.push(at % 4)?;
        masks.push(0)?;
    }
    let long = run(
        alloc,
        &nodes,
        &edges,
        &masks,
        RunEnd::Returned { value: None },
    )?;
    let short = run(
        alloc,
        &[0, 3, 1],
        &[0, 2],
        &[0, 0, 0],
        RunEnd::Returned { value: None },
    )?;
    let mut measurer = Measurer::new(alloc, &plan)?;
    'short: for _ in 0..1000 {
        add(&mut measurer, &plan, &short)?;
    }
    add(&mut measurer, &plan, &long)?;
    // The words 012301, 123012, 230123 and 301230 in base 4, and 1 more.
    let hits = measurer.hits();
    assert_eq!(rt; hits.len(), 1001);
    assert_eq!(rt; hits[0].as_slice(), [].as_slice());
    assert_eq!(rt; hits[1000].as_slice(), [434, 1735, 2844, 3181].as_slice());
    assert_eq!(rt; measurer.first(434), Some(1001));
    Ok(())
}
