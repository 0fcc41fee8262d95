// At most how many paths there are, told without a walk over them.
ghost use Rattle.std.specs.Prelude.{◌≡◌, ◌<◌, ◌≤◌, ◌-◌, ◌^◌, IfOk, length, min, true};
ghost use Rattle.std.specs.List.{sum_by};
ghost use Rattle.filters_paths.specs.Ground.{IsGround, parts_of};
ghost use Rattle.filters_paths.specs.Paths.{paths_of};
ghost use Rattle.filters_paths.specs.Totals.{AreTotals, by_edge, total_at};

use crate::edge_ends::target_of;
use crate::ground::Ground;
use fq_core::Memory;
use std::alloc::Global;

/// A total from which on nothing is said.
const UNTOLD: u64 = 1 << 32;

/// How often all totals are made anew. Rows of joins need one turn each where they are numbered before what leads to
/// them; where a loop is within the part its nodes stay untold, however often.
const TURNS: usize = 64;

// At most how many paths go on by an edge.
fn by_edge(ground: &Ground, totals: &[u64], edge: u32) -> u64
    requires ground { IsGround ground.now }
    requires edge { edge < length (parts_of ground.now).edges }
    requires size { length totals.now ≡ length (parts_of ground.now).nodes }
    ensures { result ≡ by_edge (parts_of ground.now) ground.now.uses.items totals.now edge }
{
    let node = target_of(ground.graph, edge);
    if ground.uses[edge as usize] == 0 {
        0
    } else {
        totals[node as usize]
    }
}

// At most how many paths come to an end behind a node or at it, or the greatest u64 where there may be more.
fn total_at(ground: &Ground, totals: &[u64], node: u32) -> u64
    requires ground { IsGround ground.now }
    requires node { node < length (parts_of ground.now).nodes }
    requires size { length totals.now ≡ length (parts_of ground.now).nodes }
    ensures { result ≡ min (total_at (parts_of ground.now) ground.now.ends.items ground.now.uses.items totals.now node) (2 ^ 64 - 1) }
{
    let mut total = if ground.ends[node as usize] { 1u64 } else { 0 };
    for edge in ground.graph.outgoing(node) {
        total = total.saturating_add(by_edge(ground, totals, *edge));
    }
    total
}

// Makes the total of a node anew, if it is told.
fn tell(ground: &Ground, totals: &mut Vec<u64>, node: u32)
    requires ground { IsGround ground.now }
    requires node { node < length (parts_of ground.now).nodes }
    requires size { length totals.old.items ≡ length (parts_of ground.now).nodes }
    ensures { length totals.new.items ≡ length (parts_of ground.now).nodes }
{
    let total = total_at(ground, totals, node);
    if total < UNTOLD {
        totals[node as usize] = total;
    }
}

// Makes all totals anew, once from the last node and once from the first.
fn tell_all(ground: &Ground, totals: &mut Vec<u64>)
    requires ground { IsGround ground.now }
    requires few { length (parts_of ground.now).nodes < 2 ^ 32 }
    requires size { length totals.old.items ≡ length (parts_of ground.now).nodes }
    ensures { length totals.new.items ≡ length (parts_of ground.now).nodes }
{
    let count = ground.graph.nodes().len() as u32;
    for node in 0..count {
        tell(ground, totals, count - 1 - node);
        tell(ground, totals, node);
    }
}

// By node, at most how many paths come to an end behind it or at it.
fn totals_of(alloc: Global, ground: &Ground) -> Result<Vec<u64>, Memory>
    requires { IsGround ground.now }
    ensures { IfOk result (λ totals. length totals.items ≡ length (parts_of ground.now).nodes) }
{
    let mut totals = vec![in alloc; UNTOLD; ground.graph.nodes().len()]?;
    for _ in 0..TURNS {
        tell_all(ground, &mut totals);
    }
    Ok(totals)
}

// Whether each total is at least that of the node by the others.
fn are_totals(ground: &Ground, totals: &[u64]) -> bool
    requires ground { IsGround ground.now }
    requires size { length totals.now ≡ length (parts_of ground.now).nodes }
    ensures { result ≡ true → AreTotals (parts_of ground.now) ground.now.ends.items ground.now.uses.items totals.now }
{
    for node in 0..ground.graph.nodes().len() as u32 {
        let total = totals[node as usize];
        if total < UNTOLD && total < total_at(ground, totals, node) {
            return false;
        }
    }
    true
}

// At most how many paths begin by the edges by which paths may begin, or the greatest u64 where there may be more.
fn total_of_firsts(ground: &Ground, totals: &[u64]) -> u64
    requires ground { IsGround ground.now }
    requires size { length totals.now ≡ length (parts_of ground.now).nodes }
    ensures { result ≡ min (sum_by (by_edge (parts_of ground.now) ground.now.uses.items totals.now) ground.now.firsts.items) (2 ^ 64 - 1) }
{
    let mut total = 0u64;
    for edge in &ground.firsts {
        total = total.saturating_add(by_edge(ground, totals, *edge));
    }
    total
}

/// Whether there are at most so many paths. `true` is certain, and `false` says nothing: it comes where a loop lies within
/// the part, too.
pub(crate) fn are_few(alloc: Global, ground: &Ground, limit: u32) -> Result<bool, Memory>
    requires { IsGround ground.now }
    ensures { IfOk result (λ few. few ≡ true → length (paths_of (parts_of ground.now) ground.now.target.now ground.now.bound) ≤ limit) }
{
    ground.graph.well_formed();
    let totals = totals_of(alloc, ground)?;
    if !are_totals(ground, &totals) {
        return Ok(false);
    }
    let total = total_of_firsts(ground, &totals);
    Ok(total <= limit as u64)
}
