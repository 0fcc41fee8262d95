// Hits by the definition: each segment of a run is tried.
ghost use Rattle.std.specs.Prelude.{◌≡◌, ◌<◌, IsTrue, length};
ghost use Rattle.patterns.specs.Paths.{IsPath};

use containers::Vector;
use fq_core::Memory;
use goals::{Goal, Plan};
use path_runner::{PathRecord, RunEnd};
use patterns::{Letter, PathView, Pattern, matches};
use std::alloc::Global;

// Matches begin at the first state, and end at the last one.
#[derive(Clone, Copy)]
struct Anchors {
    first: bool,
    last: bool,
}

// There are fewer than a million edges, this many, and one more node and mask than edges.
fn is_whole(path: &PathView, end: u32) -> bool
    ensures path { IsTrue result → IsPath path.now }
    ensures end { IsTrue result → end ≡ length path.now.edges }
    ensures small { IsTrue result → end < 1000000 }
{
    end < 1_000_000
        && path.edges.len() == end as usize
        && path.nodes.len() == path.edges.len() + 1
        && path.masks.len() == path.edges.len() + 1
}

// Whether some segment from this state on matches.
fn matches_from(
    pattern: &Pattern<Letter>,
    path: &PathView,
    from: u32,
    end: u32,
    last: bool,
) -> Result<bool, Memory>
    requires path { IsPath path.now }
    requires end { end ≡ length path.now.edges }
    requires small { end < 1000000 }
{
    for to in from..end + 1 {
        if (!last || to == end) && matches(pattern, path, from, to)? {
            return Ok(true);
        }
    }
    Ok(false)
}

// Whether some segment matches.
fn has_match(
    pattern: &Pattern<Letter>,
    path: &PathView,
    end: u32,
    anchors: Anchors,
) -> Result<bool, Memory> {
    if !is_whole(path, end) {
        return Ok(false);
    }
    for from in 0..end + 1 {
        if (!anchors.first || from == 0) && matches_from(pattern, path, from, end, anchors.last)? {
            return Ok(true);
        }
    }
    Ok(false)
}

// Whether the path of a run of this many edges meets the passing clause.
fn passes(plan: &Plan, path: &PathView, end: u32) -> Result<bool, Memory> {
    match &plan.passing {
        None => Ok(true),
        Some(clause) => {
            let first = clause.first;
            let last = clause.last;
            has_match(&clause.pattern, path, end, Anchors { first, last })
        }
    }
}

// Whether a run hits a goal.
fn hits(
    alloc: Global,
    plan: &Plan,
    goal: &Goal,
    path: &PathView,
    end: u32,
) -> Result<bool, Memory> {
    let first = plan.first;
    let last = plan.last;
    let pattern = goal.pattern(alloc)?;
    Ok(passes(plan, path, end)? && has_match(&pattern, path, end, Anchors { first, last })?)
}

fn path_in(alloc: Global, run: &PathRecord) -> Result<PathView, Memory> {
    Ok(PathView {
        nodes: Vector::from_vec(Vec::from_slice(alloc, &run.nodes)?),
        edges: Vector::from_vec(Vec::from_slice(alloc, &run.edges)?),
        masks: Vector::from_vec(Vec::from_slice(alloc, &run.masks)?),
    })
}

// The numbers of the goals that a run of this many edges hits.
pub(crate) fn slow_hits(
    alloc: Global,
    plan: &Plan,
    run: &PathRecord,
    end: u32,
) -> Result<Vec<u32>, Memory> {
    let mut numbers = Vec::new(alloc);
    let RunEnd::Returned { .. } = run.end else {
        return Ok(numbers);
    };
    let path = path_in(alloc, run)?;
    let mut number = 0u32;
    for goal in plan.goals.iter() {
        number = number.saturating_add(1);
        if hits(alloc, plan, goal, &path, end)? {
            numbers.push(number)?;
        }
    }
    Ok(numbers)
}
