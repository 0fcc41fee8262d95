// The context after an edge.
ghost use Rattle.std.specs.Prelude.{◌≡◌, ◌<◌, ◌^◌, ◌≤◌, ◌↔◌, [], ◌∷◌, length, Contains, IsTrue, IfOk, MatchOption};
ghost use Rattle.cfa.specs.Contexts.{depth_of, last_raised, open_counters, counters_after, frames_after, callers_of, along, first_pair, ReturnsHome};
ghost use Rattle.std.specs.List.{list_all};
ghost use Rattle.unwinder_reach.specs.reached.Reaching.{IsWithinBounds};
ghost use Rattle.unwinder_reach.specs.reached.Searching.{IsPastBounds, ArePastBounds, keeps_turns, frames_along, is_answer, running_call, taken_along};

use crate::reached::bounds::Bounds;
use crate::reached::pair::{CallFrame, NodeInContext};
use cfa::{Edge, Function, Graph, Operation};
use containers::Vector;
use containers::chains::Chain;
use fq_core::Memory;
use std::alloc::Global;

/// Where a run begins: the entry of a function, with one frame in no loop.
pub(crate) fn first_pair(alloc: Global, function: &Function) -> Result<NodeInContext, Memory>
    ensures { IfOk result (λ p. p ≡ first_pair function.now) }
{
    let frame = CallFrame {
        call: None,
        counters: Vector::new(alloc),
    };
    let frames = Chain::with(alloc, frame, Chain::new())?;
    Ok(NodeInContext {
        node: function.entry,
        frames,
        taken: 0,
    })
}

// How many loops a node lies in.
fn depth_of(graph: &Graph, node: u32) -> u32
    ensures { result ≡ depth_of graph.now node }
{
    match graph.nodes().get(node as usize) {
        None => 0,
        Some(node) => node.depth,
    }
}

// The counters with 1 more in the last, or `None` where that would be 2^32.
fn last_raised(mut counters: Vec<u32>) -> Option<Vec<u32>>
    ensures { MatchOption result (Contains (last_raised counters.items) (2 ^ 32)) (λ raised. raised.items ≡ last_raised counters.items) }
{
    let length = counters.len();
    if length == 0 {
        return Some(counters);
    }
    let last = counters[length - 1];
    if last == u32::MAX {
        return None;
    }
    counters[length - 1] = last + 1;
    Some(counters)
}

// The counters of the loops that both ends of an edge lie in, and a new one where it enters a loop.
fn open_counters(
    alloc: Global,
    graph: &Graph,
    edge: &Edge,
    counters: &[u32],
) -> Result<Vec<u32>, Memory>
    ensures { IfOk result (λ cs. cs.items ≡ open_counters graph.now edge.now counters.now) }
{
    let source = depth_of(graph, edge.source);
    let target = depth_of(graph, edge.target);
    let both = source.min(target) as usize;
    let mut open: Vec<u32> = counters.iter().take(both).copied().collect(alloc)?;
    if edge.enter {
        open.push(0)?;
    }
    Ok(open)
}

// The counters after an edge within a function, or `None` where one would be 2^32.
fn counters_after(
    alloc: Global,
    graph: &Graph,
    edge: &Edge,
    counters: &[u32],
) -> Result<Option<Vec<u32>>, Memory>
    ensures { IfOk result (λ after. MatchOption after (Contains (counters_after graph.now edge.now counters.now) (2 ^ 32)) (λ cs. cs.items ≡ counters_after graph.now edge.now counters.now)) }
{
    let open = open_counters(alloc, graph, edge, counters)?;
    if edge.back {
        Ok(last_raised(open))
    } else {
        Ok(Some(open))
    }
}

// The frames without the one that runs.
fn callers_of(frames: &Chain<CallFrame>) -> Result<Chain<CallFrame>, Memory>
    ensures { IfOk result (λ callers. callers ≡ callers_of frames.now) }
{
    match frames.split() {
        None => Ok(Chain::new()),
        Some((_, callers)) => Ok(callers.share()?),
    }
}

// The frames after an edge within a function, or `None` where a counter would be 2^32.
fn frames_after(
    alloc: Global,
    graph: &Graph,
    edge: &Edge,
    frames: &Chain<CallFrame>,
) -> Result<Option<Chain<CallFrame>>, Memory>
    ensures { IfOk result (λ after. MatchOption after (ArePastBounds (frames_after graph.now edge.now frames.now)) (λ fs. fs ≡ frames_after graph.now edge.now frames.now)) }
{
    match frames.split() {
        None => Ok(Some(Chain::new())),
        Some((frame, callers)) => match counters_after(alloc, graph, edge, frame.counters())? {
            None => Ok(None),
            Some(counters) => {
                let frame = CallFrame {
                    call: frame.call(),
                    counters: Vector::from_vec(counters),
                };
                Ok(Some(Chain::with(alloc, frame, callers.share()?)?))
            }
        },
    }
}

// The frames with one more, of the call of an edge.
fn frames_with(
    alloc: Global,
    at: u32,
    frames: &Chain<CallFrame>,
) -> Result<Chain<CallFrame>, Memory>
    ensures { IfOk result (λ more. more ≡ record { call = Some at; counters = [] } ∷ frames.now) }
{
    let frame = CallFrame {
        call: Some(at),
        counters: Vector::new(alloc),
    };
    Ok(Chain::with(alloc, frame, frames.share()?)?)
}

// The frames after an edge.
fn frames_along(
    alloc: Global,
    graph: &Graph,
    at: u32,
    edge: &Edge,
    frames: &Chain<CallFrame>,
) -> Result<Option<Chain<CallFrame>>, Memory>
    ensures { IfOk result (λ after. MatchOption after (ArePastBounds (frames_along graph.now at edge.now frames.now)) (λ fs. fs ≡ frames_along graph.now at edge.now frames.now)) }
{
    match &edge.operation {
        Operation::Call { .. } => Ok(Some(frames_with(alloc, at, frames)?)),
        Operation::Return { .. } => Ok(Some(callers_of(frames)?)),
        _ => frames_after(alloc, graph, edge, frames),
    }
}

fn is_answer(operation: &Operation) -> bool
    ensures { result ≡ is_answer operation.now }
{
    matches!(operation, Operation::Answer { .. })
}

// How many answers were taken after an edge, or `None` where that would be 2^32.
fn taken_along(edge: &Edge, taken: u32) -> Option<u32>
    ensures { MatchOption result (2 ^ 32 ≤ taken_along edge.now taken) (λ after. after ≡ taken_along edge.now taken) }
{
    if is_answer(&edge.operation) {
        taken.checked_add(1)
    } else {
        Some(taken)
    }
}

/// The pair at the target of an edge with the context after it, or `None` where that is past every bound.
pub(crate) fn pair_along(
    alloc: Global,
    graph: &Graph,
    at: u32,
    edge: &Edge,
    pair: &NodeInContext,
) -> Result<Option<NodeInContext>, Memory>
    ensures { IfOk result (λ after. MatchOption after (IsPastBounds (along graph.now at edge.now pair.now.context)) (λ p. p ≡ record { node = edge.now.target; context = along graph.now at edge.now pair.now.context })) }
{
    let Some(taken) = taken_along(edge, pair.taken()) else {
        return Ok(None);
    };
    match frames_along(alloc, graph, at, edge, pair.frames())? {
        None => Ok(None),
        Some(frames) => Ok(Some(NodeInContext {
            node: edge.target,
            frames,
            taken,
        })),
    }
}

// Whether no counter of a frame is above the turns.
fn keeps_turns(frame: &CallFrame, turns: u32) -> bool
    ensures { result ≡ keeps_turns turns frame.now }
{
    frame.counters().iter().all(|counter| *counter <= turns)
}

// Whether no counter of any frame is above the turns.
fn keep_turns(frames: &Chain<CallFrame>, turns: u32) -> bool
    ensures { result ≡ list_all (keeps_turns turns) frames.now }
{
    frames.iter().all(|frame| keeps_turns(frame, turns))
}

// Whether there are at most so many frames.
fn fit(frames: &Chain<CallFrame>, most: u32) -> bool
    ensures { IsTrue result ↔ (length frames.now ≤ most) }
{
    let mut count: u32 = 0;
    for _frame in frames.iter() {
        if count == most {
            return false;
        }
        count += 1;
    }
    true
}

/// Whether a context is within the bounds.
pub(crate) fn is_within(pair: &NodeInContext, bounds: &Bounds) -> bool
    ensures { IsTrue result ↔ IsWithinBounds bounds.now pair.now.context }
{
    let frames = pair.frames();
    if pair.taken() > bounds.answers {
        return false;
    }
    if !fit(frames, bounds.frames) {
        return false;
    }
    keep_turns(frames, bounds.turns)
}

/// The call that the running frame comes from.
pub(crate) fn running_call(frames: &Chain<CallFrame>) -> Option<u32>
    ensures { result ≡ running_call frames.now }
{
    match frames.split() {
        None => None,
        Some((frame, _)) => frame.call(),
    }
}

/// Whether an edge leaves a pair, whatever its guard says: a return goes back to the caller of the frame that runs.
pub(crate) fn leaves(edge: &Edge, pair: &NodeInContext) -> bool
    ensures { IsTrue result ↔ ((edge.now.source ≡ pair.now.node) × ReturnsHome edge.now.operation pair.now.context) }
{
    if edge.source != pair.node() {
        return false;
    }
    match &edge.operation {
        Operation::Return { call, .. } => running_call(pair.frames()) == Some(*call),
        _ => true,
    }
}
