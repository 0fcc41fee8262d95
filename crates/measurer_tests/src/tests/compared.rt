// Hits of many queries and small runs, compared with those by the definition.
use crate::tests::hits_of;
use crate::tests::plans::{RETURNS, plan, run};
use crate::tests::slow::slow_hits;
use fq_core::Memory;
use goals::Plan;
use path_runner::{PathRecord, RunEnd};
use std::alloc::Global;
use std::fmt::Write;
use std::process::Abort;
use std::test::Fail;

// The nodes, edges and masks of runs. They take e0 and e1, with which most words of the queries begin, never, once, several
// times, and first at the last step.
static RUNS: [(&[u32], &[u32], &[u64]); 10] = [
    (&[0], &[], &[1]),
    (&[0, 3], &[0], &[0, 1]),
    (&[3, 1], &[2], &[1, 0]),
    (&[0, 3, 1], &[0, 2], &[0, 0, 1]),
    (&[3, 1, 3], &[2, 0], &[1, 1, 0]),
    (&[2, 1, 1, 2], &[3, 2, 1], &[0, 1, 0, 1]),
    (&[0, 3, 3, 1], &[0, 0, 2], &[0, 0, 1, 0]),
    (&[0, 2, 1, 3, 1, 3], &[1, 3, 0, 2, 0], &[1, 0, 0, 1, 0, 0]),
    (&[2, 1, 2, 2, 1], &[3, 1, 1, 2], &[0, 0, 0, 1, 0]),
    (&[3, 1, 1, 2, 1], &[2, 2, 1, 3], &[0, 0, 1, 1, 1]),
];

static BODIES: [&str; 23] = [
    "@LINE(2)->@LINE(3)",
    "ID->ID",
    "@LINE(3)->@LINE(2)->@LINE(5)",
    "@LINE(2)->{x == 1}",
    "@LINE(2).\"@LINE(3)+{x == 1}\".@LINE(5)",
    "@LINE(2).\"(@LINE(3)+@LINE(2))*\"",
    "{x == 1}->@LINE(3)",
    "NODES(ID)->@LINE(5)",
    "\"ID*\".@LINE(3)",
    "\"@LINE(2)\"->@LINE(3)",
    "@LINE(2).@LINE(3)+@LINE(2)->@LINE(5)",
    "NODES(PRED(ID,{x == 1}))",
    "PRED(@LINE(2),{x == 1})->PRED(@LINE(3),{x == 1})",
    "PRED(PRED(@LINE(2),{x == 1}),{x == 2})",
    "\"PRED(ID,{x == 1})\".NODES(PRED(@LINE(3),{x == 1}))",
    "ID.\"NOT(@LINE(5))*\".ID",
    "@LINE(2).\"NOT(@LINE(2))*\".@LINE(3)",
    "@LINE(2).\"@LINE(2)*\".{x == 1}.\"NOT(@LINE(2))*\".@LINE(5)",
    "\"@LINE(3)*\".@LINE(2)->@LINE(3)",
    "ID.\"ID<=1\".ID",
    "@LINE(2).\"NOT(@LINE(5))==1\".ID",
    "@LINE(2).\"ID>=2\".\"@LINE(2)*\"",
    "{x == 1}.\"@LINE(3)==2\".\"NOT(@LINE(3))<=1\".NODES(ID)",
];

// What stands before the body of a query, and behind it.
static FRAMES: [(&str, &str); 8] = [
    ("", ""),
    ("^", ""),
    ("", "$"),
    ("^", "$"),
    ("", " passing @LINE(2)->@LINE(3)"),
    ("^", " passing ^@LINE(2).ID*"),
    ("", "$ passing {x == 1}$"),
    ("^", "$ passing ^NOT(@LINE(5))*$"),
];

fn runs(alloc: Global) -> Result<Vec<PathRecord>, Fail> {
    let mut runs = Vec::new(alloc);
    for (nodes, edges, masks) in RUNS {
        let end = RunEnd::Returned { value: None };
        runs.push(run(alloc, nodes, edges, masks, end)?)?;
    }
    Ok(runs)
}

// The hits of the runs by the definition, with a semicolon behind those of each run.
pub(crate) fn slow_text(alloc: Global, plan: &Plan, runs: &[PathRecord]) -> Result<String, Fail> {
    let mut text = String::new(alloc);
    for run in runs {
        let count = u32::try_from(run.edges.len()).unwrap_or(u32::MAX);
        for goal in slow_hits(alloc, plan, run, count)? {
            write!(text, " {goal}")?;
        }
        text.push_str(";")?;
    }
    Ok(text)
}

// Compares the hits for the queries with this body.
fn compare(rt: &impl Abort, alloc: Global, body: &str, runs: &[PathRecord]) -> Result<(), Fail> {
    for (before, behind) in FRAMES {
        let query = format!(in alloc; "cover {before}{body}{behind}")?;
        let plan = plan(alloc, RETURNS, &query)?;
        let hits = hits_of(alloc, &plan, runs)?;
        let slow = slow_text(alloc, &plan, runs)?;
        assert_eq!(rt; hits.as_str(), slow.as_str(), "{query}");
    }
    Ok(())
}

#[test]
fn hits_by_the_definition(rt: HostRuntime) -> Result<(), Fail> {
    let alloc = rt.alloc();
    let runs = runs(alloc)?;
    for body in BODIES {
        compare(&rt, alloc, body, &runs)?;
    }
    Ok(())
}
