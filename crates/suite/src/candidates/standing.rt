// Where a run stands, by the counters of its frames.
ghost use Rattle.std.specs.Prelude.{◌≡◌, ◌+◌, ◌≤◌, [], ◌∷◌, All, IfOk, IfSome, IsTrue};
ghost use Rattle.cfa.specs.Contexts.{Context, counters_after, first_context};
ghost use Rattle.unwinder_reach.specs.reached.Reaching.{IsWithinBounds};
ghost use Rattle.suite.specs.candidates.Standing.{GoesOn, Stands};

use crate::candidates::counters::counters_after;
use cfa::{Edge, Graph, Operation};
use containers::Vector;
use containers::chains::Chain;
use fq_core::Memory;
use std::alloc::Global;
use unwinder_reach::reached::Bounds;

/// The counters of the frames of a run, how many frames there are, and how many answers were taken.
#[derive(Drop)]
pub struct Standing {
    /// Those of the frame that runs.
    pub(crate) counters: Vec<u32>,
    /// Those of its callers, that which called it first.
    pub(crate) callers: Chain<Vector<u32>>,
    pub(crate) frames: u32,
    pub(crate) taken: u32,
}

/// Where a run begins: with one frame in no loop.
pub(crate) fn first_standing(alloc: Global) -> Standing
    ensures { Stands result first_context }
{
    Standing {
        counters: Vec::new(alloc),
        callers: Chain::new(),
        frames: 1,
        taken: 0,
    }
}

/// After a call, if there may be one more frame.
fn called(alloc: Global, standing: Standing, bounds: &Bounds) -> Result<Option<Standing>, Memory>
    ensures { IfOk result (λ after. IfSome after (λ s. (s.frames ≡ standing.frames + 1) × (s.frames ≤ bounds.now.frames) × (s.taken ≡ standing.taken) × (s.counters.items ≡ []) × (s.callers ≡ standing.counters.items ∷ standing.callers))) }
{
    let Standing {
        counters,
        callers,
        frames,
        taken,
    } = standing;
    if frames >= bounds.frames {
        return Ok(None);
    }
    let callers = Chain::with(alloc, Vector::from_vec(counters), callers)?;
    Ok(Some(Standing {
        counters: Vec::new(alloc),
        callers,
        frames: frames + 1,
        taken,
    }))
}

/// After a return, if there is a caller.
fn returned(alloc: Global, standing: Standing) -> Result<Option<Standing>, Memory>
    ensures { IfOk result (λ after. IfSome after (λ s. (s.frames + 1 ≡ standing.frames) × (s.taken ≡ standing.taken) × (standing.callers ≡ s.counters.items ∷ s.callers))) }
{
    let Some((counters, callers)) = standing.callers.split() else {
        return Ok(None);
    };
    if standing.frames == 0 {
        return Ok(None);
    }
    Ok(Some(Standing {
        counters: Vec::from_slice(alloc, counters.as_slice())?,
        callers: callers.share()?,
        frames: standing.frames - 1,
        taken: standing.taken,
    }))
}

/// Whether no counter is above the turns.
fn keeps_turns(counters: &[u32], turns: u32) -> bool
    ensures { IsTrue result → All (λ n. n ≤ turns) counters.now }
{
    counters.iter().all(|counter| *counter <= turns)
}

/// After an edge within a function along which so many answers are taken, if its counters are within the bounds.
fn turned(
    graph: &Graph,
    edge: &Edge,
    standing: Standing,
    taken: u32,
    bounds: &Bounds,
) -> Result<Option<Standing>, Memory>
    ensures { IfOk result (λ after. IfSome after (λ s. (s.frames ≡ standing.frames) × (s.taken ≡ taken) × (s.counters.items ≡ counters_after graph.now edge.now standing.counters.items) × (s.callers ≡ standing.callers) × All (λ n. n ≤ bounds.now.turns) s.counters.items)) }
{
    let Standing {
        counters,
        callers,
        frames,
        taken: _,
    } = standing;
    let Some(counters) = counters_after(graph, edge, counters)? else {
        return Ok(None);
    };
    if !keeps_turns(&counters, bounds.turns) {
        return Ok(None);
    }
    Ok(Some(Standing {
        counters,
        callers,
        frames,
        taken,
    }))
}

/// Where a run stands after an edge, if that is within the bounds.
pub(crate) fn standing_along(
    alloc: Global,
    graph: &Graph,
    at: u32,
    standing: Standing,
    bounds: &Bounds,
) -> Result<Option<Standing>, Memory>
    ensures { IfOk result (λ after. IfSome after (λ s. (c : Context) → Stands standing c → IsWithinBounds bounds.now c → GoesOn graph.now bounds.now at c s)) }
{
    let Some(edge) = graph.edges().get(at as usize) else {
        return Ok(None);
    };
    match &edge.operation {
        Operation::Call { .. } => called(alloc, standing, bounds),
        Operation::Return { .. } => returned(alloc, standing),
        Operation::Answer { .. } => {
            if standing.taken >= bounds.answers {
                return Ok(None);
            }
            let taken = standing.taken + 1;
            turned(graph, edge, standing, taken, bounds)
        }
        _ => {
            let taken = standing.taken;
            turned(graph, edge, standing, taken, bounds)
        }
    }
}
