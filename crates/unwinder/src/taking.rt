// Places, taken one by one.
ghost use Rattle.std.specs.Prelude.{◌≡◌, ◌+◌, ◌*◌, ◌<◌, ◌≤◌, ◌^◌, All, IfOk, length, map};
ghost use Rattle.std.specs.List.{AllZip};
ghost use Rattle.circuit.specs.Wires.{IsWire};
ghost use Rattle.circuit.specs.declared.lit.Lit.{Lit as OneLit};
ghost use Rattle.bit_words.specs.Words.{Grows};
ghost use Rattle.cfa.specs.Each.{Each};
ghost use Rattle.cfa.specs.Predicates.{IsPredicates};
ghost use Rattle.sym_expr.specs.Weights.{operations_weight};
ghost use Rattle.sym_expr.specs.sym_steps.Weights.{most_step_wires};
ghost use Rattle.unwinder_reach.specs.unwinding_size.Sizes.{predicates_weight};
ghost use Rattle.unwinder.specs.Agenda.{IsArrival, IsSymAt, entry_at};
ghost use Rattle.unwinder.specs.Meeting.{IsMet};
ghost use Rattle.unwinder.specs.Place.{IsClosedPlace, IsOpenPlace, IsPlace, closed_step, most_open_wires, most_place_wires};

use crate::arrival::Arrival;
use crate::ending::ended;
use crate::gathering::gathered;
use crate::merging::Met;
use crate::onward::{closed, onward};
use crate::telling::truths;
use crate::unwound::Entry;
use bit_words::Word;
use c_meaning::Ends;
use cfa::{Graph, Predicates};
use circuit::{Circuit, Lit, Memory, Truth};
use containers::Vector;
use std::alloc::{AllocError, Global};
use sym_expr::sym_steps::{SymState, SymStep, step};
use unwinder_reach::reached::{NodeInContext, Step};

/// What taking a place gives: an entry for each way into it, and an arrival for each step from it.
#[derive(Drop)]
pub(crate) struct Place {
    pub(crate) entries: Vector<Entry>,
    pub(crate) onward: Vector<Arrival>,
}

/// The same literals.
fn copied(alloc: Global, literals: &[Lit]) -> Result<Vector<Lit>, AllocError>
    ensures { IfOk result (λ copy. copy ≡ literals.now) }
{
    let mut copy = Vector::new(alloc);
    for i in 0..literals.len() {
        copy.push(literals[i])?;
    }
    Ok(copy)
}

/// The entries of the ways into a node.
fn entries_of(
    alloc: Global,
    node: u32,
    row: &[Arrival],
    predicates: &[Lit],
    end: Lit,
) -> Result<Vector<Entry>, AllocError>
    ensures { IfOk result (λ entries. entries ≡ map (entry_at node predicates.now end) row.now) }
{
    let mut entries = Vector::new(alloc);
    for arrival in row {
        let copy = copied(alloc, predicates)?;
        entries.push(Entry {
            edge: arrival.edge,
            node,
            guard: arrival.guard,
            predicates: copy,
            ended: end,
        })?;
    }
    Ok(entries)
}

/// Literals that hold in no world, so many.
fn never(alloc: Global, count: usize) -> Result<Vector<Lit>, AllocError>
    ensures count { IfOk result (λ literals. length literals ≡ count) }
    ensures constant { IfOk result (λ literals. All (λ (l : OneLit). l.wire ≡ 0) literals) }
{
    let mut literals = Vector::new(alloc);
    for _i in 0..count {
        literals.push(Lit::NO)?;
    }
    Ok(literals)
}

/// Arrivals along steps that are taken in no world.
fn all_closed(alloc: Global, steps: &[Step]) -> Result<Vector<Arrival>, AllocError>
    ensures { IfOk result (λ arrivals. arrivals ≡ map closed_step steps.now) }
{
    let mut arrivals = Vector::new(alloc);
    for i in 0..steps.len() {
        arrivals.push(closed(steps[i].edge))?;
    }
    Ok(arrivals)
}

/// The place of a node to which no run comes.
fn closed_place(
    alloc: Global,
    node: u32,
    predicates: usize,
    row: &[Arrival],
    steps: &[Step],
) -> Result<Place, AllocError>
    ensures { IfOk result (λ place. IsClosedPlace node predicates row.now steps.now place) }
{
    let literals = never(alloc, predicates)?;
    let entries = entries_of(alloc, node, row, &literals, Lit::NO)?;
    let onward = all_closed(alloc, steps)?;
    Ok(Place { entries, onward })
}

/// The place of a pair to which runs come in a state.
fn open_place(
    alloc: Global,
    circuit: &mut Circuit,
    graph: &Graph,
    entry: u32,
    predicates: &Predicates,
    ends: Ends,
    answers: &[Word],
    pair: &NodeInContext,
    row: &[Arrival],
    steps: &[Step],
    met: Met,
) -> Result<Place, Memory>
    requires guard { IsWire circuit.old met.guard }
    requires at { IsSymAt graph.now entry circuit.old pair.now met.state }
    requires predicates { IsPredicates graph.now predicates.now }
    requires answers { All (All (IsWire circuit.old)) answers.now }
    requires edges { Each steps.now (λ k s. s.edge < length graph.now.edges) }
    requires room { length circuit.old + most_open_wires graph.now predicates.now pair.now (length steps.now) ≤ 2 ^ 30 }
    ensures grows { Grows circuit.old circuit.new (most_open_wires graph.now predicates.now pair.now (length steps.now)) }
    ensures place { IfOk result (λ place. IsOpenPlace graph.now predicates.now entry ends answers.now circuit.old circuit.new met row.now pair.now steps.now place) }
{
    graph.well_formed();
    let Met { guard, state } = met;
    let SymState {
        node: _node,
        frames,
        store,
        taken: _taken,
    } = state;
    let state = SymState {
        node: pair.node(),
        frames,
        store,
        taken: u64::from(pair.taken()),
    };
    let literals = truths(alloc, circuit, graph, predicates, &state)?;
    let stepped = step(circuit, graph, state, answers)?;
    let end = ended(circuit, ends, &stepped)?;
    let SymStep {
        ways,
        traps: _traps,
        returns: _returns,
        frames,
        store,
        taken,
    } = stepped;
    let behind = SymState {
        node: pair.node(),
        frames,
        store,
        taken,
    };
    let arrivals = onward(alloc, circuit, graph, guard, &ways, steps, &behind)?;
    let entries = entries_of(alloc, pair.node(), row, &literals, end)?;
    Ok(Place {
        entries,
        onward: arrivals,
    })
}

/// The place of a pair into which these ways lead, and from which these steps.
pub(crate) fn taken(
    alloc: Global,
    circuit: &mut Circuit,
    graph: &Graph,
    entry: u32,
    predicates: &Predicates,
    ends: Ends,
    answers: &[Word],
    pair: &NodeInContext,
    row: &[Arrival],
    steps: &[Step],
) -> Result<Place, Memory>
    requires entry { entry < length graph.now.functions }
    requires ways { Each row.now (λ k a. IsArrival graph.now entry circuit.old pair.now a) }
    requires predicates { IsPredicates graph.now predicates.now }
    requires answers { All (All (IsWire circuit.old)) answers.now }
    requires edges { Each steps.now (λ k s. s.edge < length graph.now.edges) }
    requires room { length circuit.old + most_place_wires graph.now predicates.now entry pair.now (length row.now) (length steps.now) ≤ 2 ^ 30 }
    ensures grows { Grows circuit.old circuit.new (most_place_wires graph.now predicates.now entry pair.now (length row.now) (length steps.now)) }
    ensures place { IfOk result (λ place. IsPlace graph.now predicates.now entry ends answers.now circuit.old circuit.new row.now pair.now steps.now place) }
{
    let count = predicates.meanings.len();
    let met = match gathered(alloc, circuit, graph, entry, pair, row)? {
        None => return Ok(closed_place(alloc, pair.node(), count, row, steps)?),
        Some(met) => met,
    };
    if circuit.is_known_no(met.guard) {
        return Ok(closed_place(alloc, pair.node(), count, row, steps)?);
    }
    let place = open_place(
        alloc, circuit, graph, entry, predicates, ends, answers, pair, row, steps, met,
    )?;
    Ok(place)
}
