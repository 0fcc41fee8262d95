// The steps of the pairs.
ghost use Rattle.std.specs.Prelude.{◌≡◌, ◌<◌, slice_get, vec_len, Some, IfOk, OnOk};
ghost use Rattle.std.specs.List.Sorted.{IsStrictlyIncreasing};
ghost use Rattle.unwinder_reach.specs.reached.Reaching.{AreDistinct};
ghost use Rattle.unwinder_reach.specs.reached.Searching.{AreEntries, AreKeys, AreRows, AreStepsAlong, AreStepsTo, Extends, HaveNumbers, IsStepAlong, with_step};
ghost use Rattle.unwinder_reach.specs.reached.Placing.{ArePlaces};
ghost use Rattle.cfa.specs.Contexts.{Pair};

use crate::reached::bounds::Bounds;
use crate::reached::key::key_by;
use crate::reached::keys::Keys;
use crate::reached::pair::NodeInContext;
use crate::reached::step::Step;
use crate::reached::ways::{numbered_along, ways};
use cfa::Graph;
use containers::Vector;
use fq_core::Memory;
use std::alloc::Global;

/// The keys of pairs, in their order, from the numbers of their frames.
pub(crate) fn keys_of(
    alloc: Global,
    table: &Keys,
    pairs: &[NodeInContext],
    numbers: &[u32],
) -> Result<Keys, Memory>
    requires apart { AreDistinct pairs.now }
    requires entries { AreEntries table.now }
    requires numbers { HaveNumbers table.now pairs.now numbers.now }
    ensures { IfOk result (λ keys. AreKeys table.now keys pairs.now) }
{
    let mut keys = Keys::new(alloc);
    for (at, pair) in pairs.iter().enumerate() {
        let key = key_by(alloc, numbers[at], pair)?;
        let _added = keys.add(key)?;
    }
    Ok(keys)
}

/// Pairs, by whose keys steps find them.
#[derive(Drop)]
pub(crate) struct Places {
    pub(crate) pairs: Vec<NodeInContext>,
    /// The numbers of their frames.
    pub(crate) numbers: Vec<u32>,
    pub(crate) keys: Keys,
}

// The step from the pair of a number along an edge, if the bounds allow one.
fn step_along(
    alloc: Global,
    graph: &Graph,
    bounds: &Bounds,
    table: &mut Keys,
    places: &Places,
    from: usize,
    at: u32,
) -> Result<Option<Step>, Memory>
    requires places { ArePlaces graph.now bounds.now table.old places.now }
    requires from { from < vec_len places.now.pairs }
    ensures step { IfOk result (λ step. (p : Pair) → slice_get places.now.pairs.items from ≡ Some p → IsStepAlong graph.now bounds.now places.now.pairs.items p at step) }
    ensures extends { OnOk result (Extends table.old table.new) }
{
    let pair = &places.pairs[from];
    let number = places.numbers[from];
    match numbered_along(alloc, graph, bounds, table, pair, number, at)? {
        None => Ok(None),
        Some((next, number)) => {
            let key = key_by(alloc, number, &next)?;
            match places.keys.number_of(&key) {
                None => unreachable!(),
                Some(to) => Ok(Some(Step {
                    edge: at,
                    to: to as u32,
                })),
            }
        }
    }
}

fn add(steps: &mut Vector<Step>, step: Option<Step>) -> Result<(), Memory>
    ensures { OnOk result (steps.new ≡ with_step steps.old step) }
{
    match step {
        None => Ok(()),
        Some(step) => {
            steps.push(step)?;
            Ok(())
        }
    }
}

// The steps from the pair of a number along edges, which rise.
fn steps_along(
    alloc: Global,
    graph: &Graph,
    bounds: &Bounds,
    table: &mut Keys,
    places: &Places,
    from: usize,
    ways: &[u32],
) -> Result<Vector<Step>, Memory>
    requires places { ArePlaces graph.now bounds.now table.old places.now }
    requires from { from < vec_len places.now.pairs }
    requires rising { IsStrictlyIncreasing ways.now }
    ensures steps { IfOk result (λ steps. (p : Pair) → slice_get places.now.pairs.items from ≡ Some p → AreStepsAlong graph.now bounds.now places.now.pairs.items p ways.now steps) }
    ensures places_after { OnOk result (ArePlaces graph.now bounds.now table.new places.now) }
{
    let mut steps = Vector::new(alloc);
    for at in ways {
        let step = step_along(alloc, graph, bounds, table, places, from, *at)?;
        add(&mut steps, step)?;
    }
    Ok(steps)
}

// All steps from the pair of a number.
fn steps_of(
    alloc: Global,
    graph: &Graph,
    bounds: &Bounds,
    table: &mut Keys,
    places: &Places,
    from: usize,
) -> Result<Vector<Step>, Memory>
    requires places { ArePlaces graph.now bounds.now table.old places.now }
    requires from { from < vec_len places.now.pairs }
    ensures steps { IfOk result (λ steps. (p : Pair) → slice_get places.now.pairs.items from ≡ Some p → AreStepsTo graph.now bounds.now places.now.pairs.items p steps) }
    ensures places_after { OnOk result (ArePlaces graph.now bounds.now table.new places.now) }
{
    let ways = ways(alloc, graph, &places.pairs[from])?;
    let steps = steps_along(alloc, graph, bounds, table, places, from, &ways)?;
    Ok(steps)
}

/// The steps from each pair.
pub(crate) fn rows_of(
    alloc: Global,
    graph: &Graph,
    bounds: &Bounds,
    table: &mut Keys,
    places: &Places,
) -> Result<Vec<Vector<Step>>, Memory>
    requires { ArePlaces graph.now bounds.now table.old places.now }
    ensures { IfOk result (λ rows. AreRows graph.now bounds.now places.now.pairs.items rows.items) }
{
    let mut rows = Vec::new(alloc);
    for from in 0..places.pairs.len() {
        let row = steps_of(alloc, graph, bounds, table, places, from)?;
        rows.push(row)?;
    }
    Ok(rows)
}
