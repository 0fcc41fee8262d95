// The pairs that are reached, and their steps.
ghost use Rattle.std.specs.Prelude.{◌≡◌, ◌<◌, ◌≤◌, length, slice_get, IfOk, IfErr, Some};
ghost use Rattle.cfa.specs.declared.parts.Function.{Function as OneFunction};
ghost use Rattle.cfa.specs.Contexts.{IsOnce};
ghost use Rattle.unwinder_reach.specs.reached.Reaching.{AreReached, IsReachedFault};

use crate::reached::bounds::Bounds;
use crate::reached::search::{Listed, pairs_in_order};
use crate::reached::step::Reached;
use crate::reached::steps::{Places, keys_of, rows_of};
use cfa::Graph;
use containers::Vector;
use fq_core::Fault;
use std::alloc::Global;

/// The pairs of node and context that walks from the entry of a function reach within bounds, guards ignored: the first
/// one first, and each before those to which its steps lead. Its steps
/// come once each, by rising number of the edge.
///
/// # Errors
///
/// Code 80 at the limit of 50,000 says that more pairs are reached, and comes wherever they are, unless memory runs out
/// first. `Memory` comes where an allocation is refused, or a number would pass 2^32 - 1.
pub fn reached(alloc: Global, graph: &Graph, entry: u32, bounds: Bounds) -> Result<Reached, Fault>
    requires once { IsOnce graph.now }
    requires entry { entry < length graph.now.functions }
    requires frames { 1 ≤ bounds.frames }
    ensures accepted { IfOk result (λ r. (f : OneFunction) → slice_get graph.now.functions entry ≡ Some f → AreReached graph.now bounds f r.pairs r.steps) }
    ensures few { IfOk result (λ r. length r.pairs ≤ 50000) }
    ensures refused { IfErr result (λ fault. (f : OneFunction) → slice_get graph.now.functions entry ≡ Some f → IsReachedFault graph.now bounds f fault) }
{
    let function = &graph.functions()[entry as usize];
    let listed = match pairs_in_order(alloc, graph, &bounds, function) {
        Err(fault) => return Err(fault),
        Ok(listed) => listed,
    };
    let Listed {
        pairs,
        numbers,
        mut frames,
    } = listed;
    let keys = keys_of(alloc, &frames, &pairs, &numbers)?;
    let places = Places {
        pairs,
        numbers,
        keys,
    };
    let rows = rows_of(alloc, graph, &bounds, &mut frames, &places)?;
    let Places { pairs, .. } = places;
    Ok(Reached {
        pairs: Vector::from_vec(pairs),
        steps: Vector::from_vec(rows),
    })
}
