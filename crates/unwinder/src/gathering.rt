// The ways into a place, gathered into one state.
ghost use Rattle.std.specs.Prelude.{◌≡◌, ◌+◌, ◌*◌, ◌<◌, ◌≤◌, ◌^◌, None, Some, IfOk, length};
ghost use Rattle.cfa.specs.Each.{Each};
ghost use Rattle.bit_words.specs.Words.{Grows};
ghost use Rattle.unwinder.specs.declared.merging.Met.{Met as OneMet};
ghost use Rattle.unwinder.specs.Agenda.{IsArrival};
ghost use Rattle.unwinder.specs.Meeting.{Gathers, IsMet, IsWired, IsWiredWay, cells_at, most_merge_wires};

use crate::arrival::Arrival;
use crate::copying::copied;
use crate::merging::{Met, joined};
use cfa::Graph;
use circuit::{Circuit, Memory};
use std::alloc::Global;
use unwinder_reach::reached::NodeInContext;

/// One way more.
fn with_arrival(
    alloc: Global,
    circuit: &mut Circuit,
    graph: &Graph,
    entry: u32,
    pair: &NodeInContext,
    met: Option<Met>,
    arrival: &Arrival,
) -> Result<Option<Met>, Memory>
    requires met { IsWired circuit.old (cells_at graph.now entry pair.now) met }
    requires way { IsWiredWay circuit.old (cells_at graph.now entry pair.now) arrival.now }
    requires room { (m : OneMet) → met ≡ Some m → length circuit.old + (256 * cells_at graph.now entry pair.now + 1) ≤ 2 ^ 30 }
    ensures grows { Grows circuit.old circuit.new (256 * cells_at graph.now entry pair.now + 1) }
    ensures free { met ≡ None → circuit.new ≡ circuit.old }
    ensures gathers { IfOk result (λ o. Gathers graph.now entry pair.now circuit.old circuit.new met arrival.now o) }
{
    graph.well_formed();
    match &arrival.state {
        None => Ok(met),
        Some(state) => match met {
            None => {
                let state = copied(alloc, state)?;
                Ok(Some(Met {
                    guard: arrival.guard,
                    state,
                }))
            }
            Some(met) => {
                let met = joined(circuit, met, arrival.guard, state)?;
                Ok(Some(met))
            }
        },
    }
}

/// The state in which runs come to a place, by any of its ways: none where no way is open.
pub(crate) fn gathered(
    alloc: Global,
    circuit: &mut Circuit,
    graph: &Graph,
    entry: u32,
    pair: &NodeInContext,
    row: &[Arrival],
) -> Result<Option<Met>, Memory>
    requires entry { entry < length graph.now.functions }
    requires ways { Each row.now (λ k a. IsArrival graph.now entry circuit.old pair.now a) }
    requires room { length circuit.old + most_merge_wires (cells_at graph.now entry pair.now) (length row.now) ≤ 2 ^ 30 }
    ensures grows { Grows circuit.old circuit.new (most_merge_wires (cells_at graph.now entry pair.now) (length row.now)) }
    ensures met { IfOk result (λ o. IsMet graph.now entry pair.now circuit.old circuit.new row.now o) }
{
    graph.well_formed();
    let mut met = None;
    for arrival in row {
        met = with_arrival(alloc, circuit, graph, entry, pair, met, arrival)?;
    }
    Ok(met)
}
