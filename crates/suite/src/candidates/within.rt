// Whether a run is within bounds.
ghost use Rattle.std.specs.Prelude.{◌≤◌, IfOk, IsTrue};
ghost use Rattle.suite.specs.candidates.Within.{AreEdgesWithin};

use crate::candidates::standing::{first_standing, standing_along};
use cfa::{Function, Graph};
use fq_core::Memory;
use std::alloc::Global;
use unwinder_reach::reached::Bounds;

/// Whether the edges of a run of a function stay within bounds: at each of its states no loop's counter is above the turns,
/// and the frames and the answers taken are at most as many. It takes time in proportion to their number and to the depth of
/// loops. Where it says no, they may stay within them all the same only where they aren't those of a run.
///
/// # Errors
///
/// Want of memory alone.
pub fn is_within(
    alloc: Global,
    graph: &Graph,
    function: &Function,
    edges: &[u32],
    bounds: &Bounds,
) -> Result<bool, Memory>
    requires { 1 ≤ bounds.now.frames }
    ensures { IfOk result (λ within. IsTrue within → AreEdgesWithin graph.now bounds.now function.now edges.now) }
{
    let mut standing = first_standing(alloc);
    for at in edges {
        let Some(next) = standing_along(alloc, graph, *at, standing, bounds)? else {
            return Ok(false);
        };
        standing = next;
    }
    Ok(true)
}
