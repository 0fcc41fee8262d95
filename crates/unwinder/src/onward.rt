// The ways on from a place.
ghost use Rattle.std.specs.Prelude.{◌≡◌, ◌+◌, ◌<◌, ◌≤◌, ◌^◌, IfOk, None, Some, length, slice_get, true};
ghost use Rattle.std.specs.Option.{IsSomeAnd};
ghost use Rattle.std.specs.List.{AllZip};
ghost use Rattle.circuit.specs.Wires.{IsWire};
ghost use Rattle.circuit.specs.declared.lit.Lit.{Lit as OneLit};
ghost use Rattle.bit_words.specs.Words.{Grows};
ghost use Rattle.cfa.specs.Each.{Each};
ghost use Rattle.sym_expr.specs.declared.sym_steps.state.Way.{Way as OneWay};
ghost use Rattle.unwinder_reach.specs.declared.reached.step.Step.{Step as OneStep};
ghost use Rattle.unwinder.specs.Onward.{IsAlong, LeadsAlong};

use crate::arrival::Arrival;
use crate::copying::copied;
use bit_words::gates::both;
use cfa::Graph;
use circuit::{Circuit, Lit, Memory, Truth};
use containers::Vector;
use std::alloc::Global;
use sym_expr::sym_steps::{SymState, Way};
use unwinder_reach::reached::Step;

/// The literal that holds where a step goes along an edge, none where no way leads along it.
fn taken_along(ways: &[Way], edge: u32) -> Option<Lit>
    ensures some { (l : OneLit) → result ≡ Some l → (way : OneWay) × LeadsAlong ways.now edge way × (way.taken ≡ l) }
    ensures none { result ≡ None → (way : OneWay) → LeadsAlong ways.now edge way → ⊥ }
{
    for i in 0..ways.len() {
        if ways[i].edge == edge {
            return Some(ways[i].taken);
        }
    }
    None
}

/// A way on that is taken in no world.
pub(crate) fn closed(edge: u32) -> Arrival
    ensures { result ≡ record { edge = Some edge; guard = record { wire = 0; negated = true }; state = None } }
{
    Arrival {
        edge: Some(edge),
        guard: Lit::NO,
        state: None,
    }
}

/// The node to which an edge leads.
fn target_of(graph: &Graph, edge: u32) -> u32
    requires { edge < length graph.now.edges }
    ensures { IsSomeAnd (slice_get graph.now.edges edge) (λ e. result ≡ e.target) }
{
    graph.edges()[edge as usize].target
}

/// The arrival along an edge from a place, with the state behind the step from there.
fn arrival_along(
    alloc: Global,
    circuit: &mut Circuit,
    graph: &Graph,
    guard: Lit,
    ways: &[Way],
    edge: u32,
    behind: &SymState,
) -> Result<Arrival, Memory>
    requires edge { edge < length graph.now.edges }
    requires guard { IsWire circuit.old guard }
    requires ways { Each ways.now (λ k way. IsWire circuit.old way.taken) }
    requires room { length circuit.old + 1 ≤ 2 ^ 30 }
    ensures grows { Grows circuit.old circuit.new 1 }
    ensures along { IfOk result (λ a. IsAlong graph.now circuit.old circuit.new guard ways.now behind.now edge a) }
{
    let taken = match taken_along(ways, edge) {
        None => return Ok(closed(edge)),
        Some(taken) => taken,
    };
    let both_hold = both(circuit, guard, taken)?;
    if circuit.is_known_no(both_hold) {
        return Ok(closed(edge));
    }
    let copy = copied(alloc, behind)?;
    let node = target_of(graph, edge);
    Ok(Arrival {
        edge: Some(edge),
        guard: both_hold,
        state: Some(SymState { node, ..copy }),
    })
}

/// The arrivals along the steps from a place, one for each, with the state behind the step from there.
pub(crate) fn onward(
    alloc: Global,
    circuit: &mut Circuit,
    graph: &Graph,
    guard: Lit,
    ways: &[Way],
    steps: &[Step],
    behind: &SymState,
) -> Result<Vector<Arrival>, Memory>
    requires edges { Each steps.now (λ k s. s.edge < length graph.now.edges) }
    requires guard { IsWire circuit.old guard }
    requires ways { Each ways.now (λ k way. IsWire circuit.old way.taken) }
    requires room { length circuit.old + length steps.now ≤ 2 ^ 30 }
    ensures grows { Grows circuit.old circuit.new (length steps.now) }
    ensures along { IfOk result (λ arrivals. AllZip (λ (s : OneStep) a. IsAlong graph.now circuit.old circuit.new guard ways.now behind.now s.edge a) steps.now arrivals) }
{
    let mut arrivals = Vector::new(alloc);
    for i in 0..steps.len() {
        let arrival = arrival_along(alloc, circuit, graph, guard, ways, steps[i].edge, behind)?;
        arrivals.push(arrival)?;
    }
    Ok(arrivals)
}
