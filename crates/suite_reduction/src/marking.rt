// The first hits of goals, input by input.
ghost use Rattle.std.specs.Prelude.{◌≡◌, ℕ, ◌<◌, ◌≤◌, ◌^◌, IfOk, IsTrue, length, option_map, slice_get, vec_len};
ghost use Rattle.std.specs.List.{list_all};
ghost use Rattle.suite_reduction.specs.Marks.{are_goals, first_by, first_hits, is_found, marked};

use crate::first_hit::FirstHit;
use crate::hit_lists::HitLists;
use containers::Vector;
use std::alloc::{AllocError, Global};

/// Whether some input hits the goal.
pub fn found(first: FirstHit) -> bool
    ensures { result ≡ is_found first }
{
    matches!(first, FirstHit::By { .. })
}

fn first_by(first: FirstHit, input: u32) -> FirstHit
    ensures { result ≡ first_by input first }
{
    match first {
        FirstHit::Never => FirstHit::By { input },
        FirstHit::By { input } => FirstHit::By { input },
    }
}

/// The input hits each of these goals, which have their places in the table.
pub fn mark(firsts: &mut [FirstHit], goals: &[u32], input: u32)
    requires { IsTrue (are_goals (length firsts.old) goals.now) }
    ensures { (k : ℕ) → slice_get firsts.new k
        ≡ option_map (marked input goals.now k) (slice_get firsts.old k) }
{
    for goal in goals {
        let place = *goal as usize;
        firsts[place] = first_by(firsts[place], input);
    }
}

/// The first hit of each of `count` goals, numbered from 0.
pub fn first_hits(alloc: Global, hits: &HitLists, count: usize) -> Result<Vec<FirstHit>, AllocError>
    requires goals { IsTrue (list_all (are_goals count) hits.now.lists.now) }
    ensures firsts { IfOk result (λ firsts. firsts.items ≡ first_hits hits.now.lists.now count) }
    ensures many { IfOk result (λ firsts. vec_len firsts ≡ count) }
{
    let mut firsts = vec![in alloc; FirstHit::Never; count]?;
    for (place, goals) in hits.lists.iter().enumerate() {
        mark(&mut firsts, goals.as_slice(), place as u32 + 1);
    }
    Ok(firsts)
}

// The greater of a count and of one more than a goal.
fn count_of(count: usize, goal: u32) -> usize
    requires { count ≤ 2 ^ 32 }
    ensures most { result ≤ 2 ^ 32 }
    ensures least { count ≤ result }
    ensures goal { goal < result }
{
    if goal as usize >= count {
        goal as usize + 1
    } else {
        count
    }
}

// The greatest of a count and of one more than each of these goals.
fn count_with(count: usize, goals: &[u32]) -> usize
    requires { count ≤ 2 ^ 32 }
    ensures most { result ≤ 2 ^ 32 }
    ensures least { count ≤ result }
    ensures goals { IsTrue (are_goals result goals.now) }
{
    let mut most = count;
    for goal in goals {
        most = count_of(most, *goal);
    }
    most
}

/// One more than the greatest goal that some input hits.
pub fn goal_count(hits: &[Vector<u32>]) -> usize
    ensures { IsTrue (list_all (are_goals result) hits.now) }
{
    let mut count = 0;
    for goals in hits {
        count = count_with(count, goals.as_slice());
    }
    count
}
