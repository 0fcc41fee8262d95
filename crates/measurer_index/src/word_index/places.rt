// Places of a path from which words that begin with an edge, or a node, are walked.
ghost use Rattle.std.specs.Prelude.{◌≡◌, ◌<◌, ℕ, true, false, IfOk, length, slice_index_or, slice_set};
ghost use Rattle.measurer_index.specs.word_index.Places.{AreEnough, IsOnce};
ghost use Rattle.measurer_index.specs.word_index.Tables.{AreBegun};

use crate::word_index::group::Group;
use crate::word_index::ranges::all_end;
use crate::word_index::walk::steps;
use containers::Vector;
use fq_core::Memory;
use goals::Goal;
use measurer_hits::run_match::RunPath;
use std::alloc::Global;

/// Whether a number is in the table, and has no mark.
fn is_open(done: &[bool], number: usize) -> bool
    ensures table { result ≡ true → number < length done.now }
    ensures open { result ≡ true → slice_index_or done.now number false ≡ false }
    ensures done { result ≡ false → number < length done.now → slice_index_or done.now number false ≡ true }
{
    number < done.len() && !done[number]
}

/// Marks a number, or not.
fn mark(done: &mut Vec<bool>, number: usize, once: bool)
    requires { number < length done.old.items }
    ensures { done.new.items ≡ slice_set done.old.items number once }
{
    done[number] = once;
}

/// Whether it is enough to walk the words that begin with this edge, or node, from one place.
fn is_once(goals: &[Goal], order: &[u32], groups: &Vector<Group>, last: bool, number: usize) -> bool
    ensures { result ≡ true → IsOnce goals.now order.now last groups.now number }
{
    match groups.get(number) {
        Some(group) => !last && all_end(goals, order, *group),
        None => false,
    }
}

/// The places from which the words that begin with an edge, or a node, are to be walked: all where some word begins so, but
/// of an edge, or a node, whose words have no other letter only the first one, if a walk may end anywhere.
pub(crate) fn step_places(
    alloc: Global,
    goals: &[Goal],
    order: &[u32],
    groups: &Vector<Group>,
    path: &RunPath,
    last: bool,
    edges: bool,
) -> Result<Vec<usize>, Memory>
    ensures { (absents : ℕ) → AreBegun goals.now order.now absents edges groups.now → IfOk result (λ places. AreEnough goals.now order.now absents path.now last edges places.items) }
{
    let mut done = vec![in alloc; false; groups.len()]?;
    let mut places = Vec::new(alloc);
    for (at, number) in steps(path, edges).iter().enumerate() {
        let number = *number as usize;
        if !is_open(&done, number) {
            continue;
        }
        places.push(at)?;
        let once = is_once(goals, order, groups, last, number);
        mark(&mut done, number, once);
    }
    Ok(places)
}
