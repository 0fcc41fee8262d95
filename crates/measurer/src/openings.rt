// The edges that matches take first, and where a run first takes them.
ghost use Rattle.std.specs.Prelude.{◌≡◌, ◌<◌, EachIndex, IfOk, slice_index};
ghost use Rattle.measurer.specs.Openings.{AreFirstPlaces, first_place, opening_of};

use fq_core::Memory;
use goals::GoalLetter;
use measurer_hits::run_match::RunPath;
use std::alloc::Global;

/// The edge with which a word begins, unless matches have to begin at the first state.
pub(crate) fn opening_of(word: &[GoalLetter], first: bool) -> Option<u32>
    ensures { result ≡ opening_of first word.now }
{
    match word {
        [GoalLetter::Edge(edge), ..] if !first => Some(*edge),
        _ => None,
    }
}

/// A number above each of these.
fn above(edges: &[u32]) -> usize
    ensures { EachIndex edges.now (λ k. slice_index edges.now k < result) }
{
    match edges.iter().copied().max() {
        None => 0,
        Some(greatest) => greatest as usize + 1,
    }
}

/// The first place of each edge of a run, by the edge's number. It takes time and memory in proportion to the length of the
/// run and to the greatest of the numbers.
pub(crate) fn first_places(alloc: Global, edges: &[u32]) -> Result<Vec<usize>, Memory>
    ensures { IfOk result (λ places. AreFirstPlaces edges.now places.items) }
{
    let mut places = vec![in alloc; edges.len(); above(edges)]?;
    for place in (0..edges.len()).rev() {
        places[edges[place] as usize] = place;
    }
    Ok(places)
}

/// The first state of a path from which this edge is taken, or the last state.
pub(crate) fn first_state(places: &[usize], path: &RunPath, edge: u32) -> usize
    requires { AreFirstPlaces path.now.edges places.now }
    ensures { result ≡ first_place path.now.edges edge }
{
    match places.get(edge as usize) {
        None => path.edges().len(),
        Some(place) => *place,
    }
}
