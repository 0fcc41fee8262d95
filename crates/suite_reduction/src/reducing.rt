// The reduced suite.
ghost use Rattle.std.specs.Prelude.{◌≡◌, ◌<◌, ◌^◌, IfOk, IsTrue, length};
ghost use Rattle.std.specs.List.{list_all};
ghost use Rattle.suite_reduction.specs.Marks.{are_goals, first_hits, is_before, is_elsewhere};
ghost use Rattle.suite_reduction.specs.Suite.{kept_of};

use crate::first_hit::FirstHit;
use crate::hit_lists::HitLists;
use crate::marking::{first_hits, found, goal_count, mark};
use containers::Vector;
use fq_core::Memory;
use std::alloc::{AllocError, Global};

fn found_before(first: FirstHit, number: u32) -> bool
    ensures { result ≡ is_before number first }
{
    matches!(first, FirstHit::By { input } if input < number)
}

// Whether each of these goals is hit by another input: one with a lower number, or a later one that is kept.
fn is_redundant(goals: &[u32], number: u32, firsts: &[FirstHit], later: &[FirstHit]) -> bool
    requires goals { IsTrue (are_goals (length firsts.now) goals.now) }
    requires same { length later.now ≡ length firsts.now }
    ensures { result ≡ list_all (is_elsewhere number firsts.now later.now) goals.now }
{
    for goal in goals {
        let place = *goal as usize;
        if !found_before(firsts[place], number) && !found(later[place]) {
            return false;
        }
    }
    true
}

// The numbers of the inputs that are kept, rising, where `firsts` has the first hit of each goal.
fn kept_with(alloc: Global, hits: &HitLists, firsts: &[FirstHit]) -> Result<Vec<u32>, AllocError>
    requires goals { IsTrue (list_all (are_goals (length firsts.now)) hits.now.lists.now) }
    requires firsts { firsts.now ≡ first_hits hits.now.lists.now (length firsts.now) }
    ensures { IfOk result (λ kept. kept.items ≡ kept_of hits.now.lists.now) }
{
    let mut later = vec![in alloc; FirstHit::Never; firsts.len()]?;
    let mut kept = Vec::new(alloc);
    for place in (0..hits.lists.len()).rev() {
        let goals = hits.lists[place].as_slice();
        let number = place as u32 + 1;
        if !is_redundant(goals, number, firsts, &later) {
            mark(&mut later, goals, kept.len() as u32 + 1);
            kept.push(number)?;
        }
    }
    kept.reverse();
    Ok(kept)
}

/// The numbers of the inputs that are kept in the reduced suite, rising: `hits` lists for each input, numbered from 1, the
/// goals that it hits. Inputs are tried from the last to the first, and one is dropped where each of its goals is also hit
/// by another input that is still kept.
///
/// Takes time and memory in proportion to the lengths of the lists and to the greatest goal's number.
pub fn reduce(alloc: Global, hits: &[Vector<u32>]) -> Result<Vec<u32>, Memory>
    requires { length hits.now < 2 ^ 32 }
    ensures { IfOk result (λ kept. kept.items ≡ kept_of hits.now) }
{
    let hits = HitLists { lists: hits };
    let firsts = first_hits(alloc, &hits, goal_count(hits.lists))?;
    Ok(kept_with(alloc, &hits, &firsts)?)
}
