// The list of all paths.
ghost use Rattle.std.specs.Prelude.{◌≡◌, None, IfOk, OnOk, true};
ghost use Rattle.filters.specs.Parts.{IsWithin, part_of};
ghost use Rattle.filters_paths.specs.Listing.{paths_with, room_with, listed};
ghost use Rattle.filters_paths.specs.Outcome.{IsPathsOutcome};
ghost use Rattle.filters_paths.specs.Paths.{paths_of};
ghost use Rattle.filters_paths.specs.Walking.{prefix_of};

use crate::fault::PathFault;
use crate::ground::Ground;
use crate::totals::are_few;
use crate::walk::Walk;
use cfa::Graph;
use containers::Vector;
use filters::TargetGraph;
use fq_core::Memory;
use std::alloc::Global;

/// A list of paths that grows.
#[derive(Drop)]
pub(crate) struct Listing {
    pub(crate) paths: Vector<Vector<u32>>,
    /// How many edges more there may be, or `None` where there are too many already.
    pub(crate) room: Option<u32>,
}

impl Listing {
    // One more path, if its edges fit. Whether it is the first whose edges don't.
    fn add(&mut self, alloc: Global, walk: &Walk) -> Result<bool, Memory>
        ensures paths { OnOk result (self.new.paths ≡ paths_with self.old.room self.old.paths (prefix_of walk.now)) }
        ensures room { OnOk result (self.new.room ≡ room_with self.old.room (prefix_of walk.now)) }
        ensures over { IfOk result (λ over. over ≡ true → self.new.room ≡ None) }
    {
        match self.room {
            None => Ok(false),
            Some(room) => {
                let length = walk.steps.len();
                if length <= room as usize {
                    self.paths.push(walk.path(alloc)?)?;
                    self.room = Some(room - length as u32);
                    Ok(false)
                } else {
                    self.room = None;
                    Ok(true)
                }
            }
        }
    }

    fn finish(self) -> Result<Vector<Vector<u32>>, PathFault>
        ensures { result ≡ listed self.room self.paths }
    {
        let Listing { paths, room } = self;
        match room {
            None => Err(PathFault::TooManyEdges),
            Some(_) => Ok(paths),
        }
    }
}

/// The k-bounded paths of a target graph within a graph, in order, each as the numbers of its edges.
///
/// # Errors
///
/// `TooManyPaths` comes exactly where there are more than `limit` paths, and `TooManyEdges` exactly where there are at
/// most `limit` paths with more than `edge_limit` edges in all. `Memory` comes where an allocation is refused, or the graph
/// has 2^32 nodes or edges or more, or the walk would take 2^64 steps.
pub fn paths(
    alloc: Global,
    graph: &Graph,
    target: &TargetGraph,
    k: u32,
    limit: u32,
    edge_limit: u32,
) -> Result<Vector<Vector<u32>>, PathFault>
    requires { IsWithin graph.now (part_of target.now) }
    ensures { IsPathsOutcome (paths_of graph.now target.now k) limit edge_limit result }
{
    let ground = Ground::new(alloc, graph, target, k)?;
    let mut walk = Walk::new(alloc, &ground)?;
    let mut listing = Listing {
        paths: Vector::new(alloc),
        room: Some(edge_limit),
    };
    for _ in 0..limit {
        if !walk.advance(&ground)? {
            return listing.finish();
        }
        if listing.add(alloc, &walk)? {
            if are_few(alloc, &ground, limit)? {
                return Err(PathFault::TooManyEdges);
            }
        }
    }
    if walk.advance(&ground)? {
        return Err(PathFault::TooManyPaths);
    }
    listing.finish()
}
