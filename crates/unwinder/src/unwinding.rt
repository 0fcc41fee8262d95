// All runs of a function within bounds, place by place.
ghost use Rattle.std.specs.Prelude.{◌≡◌, ◌+◌, ◌-◌, ◌<◌, ◌≤◌, ◌^◌, [], All, IfErr, IfOk, List, OnOk, Some, length, slice_get};
ghost use Rattle.std.specs.Option.{IsSomeAnd};
ghost use Rattle.cfa.specs.declared.parts.Function.{Function as OneFunction};
ghost use Rattle.cfa.specs.Contexts.{IsOnce};
ghost use Rattle.cfa.specs.Predicates.{IsPredicates};
ghost use Rattle.unwinder_reach.specs.reached.Reaching.{AreReached};
ghost use Rattle.unwinder_reach.specs.unwinding_size.Sizes.{size_sum};
ghost use Rattle.unwinder.specs.Progress.{CanTake, CanUnwind, TakesPlace, Unwinds, UnwindsAll, begun};
ghost use Rattle.unwinder.specs.Unwinding.{IsUnwindFault, IsUnwound};

use crate::agenda::{put_all, row_at};
use crate::arrival::Arrival;
use crate::input_words::{InputWords, inputs, inputs_stay};
use crate::taking::{Place, taken};
use crate::unwound::{Entry, Unwound};
use bit_words::Word;
use c_meaning::Ends;
use cfa::{Graph, Predicates};
use circuit::{Circuit, Lit, Memory};
use containers::Vector;
use fq_core::Fault;
use std::alloc::{AllocError, Global};
use sym_expr::sym_steps::start;
use unwinder_reach::reached::{Bounds, NodeInContext, Reached, Step, reached};
use unwinder_reach::unwinding_size::size_of_unwinding;

/// The agenda on which one way waits, at the first of so many places.
fn agenda_of(
    alloc: Global,
    first: Arrival,
    places: usize,
) -> Result<Vec<Vector<Arrival>>, AllocError>
    requires { 1 ≤ places }
    ensures { IfOk result (λ agenda. agenda.items ≡ begun first (places - 1)) }
{
    let mut row = Vector::new(alloc);
    row.push(first)?;
    let mut agenda = Vec::new(alloc);
    agenda.push(row)?;
    for _other in 0..places - 1 {
        agenda.push(Vector::new(alloc))?;
    }
    Ok(agenda)
}

/// Takes the place of a number, of this pair and with these steps.
fn take_place(
    alloc: Global,
    circuit: &mut Circuit,
    graph: &Graph,
    entry: u32,
    predicates: &Predicates,
    ends: Ends,
    answers: &[Word],
    pair: &NodeInContext,
    steps: &[Step],
    place: usize,
    agenda: &mut Vec<Vector<Arrival>>,
    entries: &mut Vec<Entry>,
) -> Result<(), Memory>
    requires { CanTake graph.now predicates.now entry answers.now place circuit.old pair.now steps.now agenda.old.items }
    ensures { OnOk result (TakesPlace graph.now predicates.now entry ends answers.now place circuit.old circuit.new pair.now steps.now entries.old.items entries.new.items agenda.old.items agenda.new.items) }
{
    let row = row_at(alloc, agenda, place);
    let Place {
        entries: made,
        onward,
    } = taken(
        alloc, circuit, graph, entry, predicates, ends, answers, pair, &row, steps,
    )?;
    let mut made = made.into_vec();
    entries.append(&mut made)?;
    put_all(alloc, agenda, steps, onward)?;
    Ok(())
}

/// Takes all places, one after the other, and answers their entries.
fn all_taken(
    alloc: Global,
    circuit: &mut Circuit,
    graph: &Graph,
    entry: u32,
    predicates: &Predicates,
    bounds: Bounds,
    ends: Ends,
    answers: &[Word],
    reached: &Reached,
    begun: Vec<Vector<Arrival>>,
) -> Result<Vec<Entry>, Memory>
    requires entry { entry < length graph.now.functions }
    requires predicates { IsPredicates graph.now predicates.now }
    requires can { (f : OneFunction) → slice_get graph.now.functions entry ≡ Some f → CanUnwind graph.now predicates.now f entry bounds reached.now.pairs reached.now.steps answers.now circuit.old }
    requires begun { (f : OneFunction) → slice_get graph.now.functions entry ≡ Some f → Unwinds graph.now predicates.now f entry bounds ends reached.now.pairs reached.now.steps circuit.old 0 circuit.old [] begun.items }
    ensures { IfOk result (λ entries. (f : OneFunction) → slice_get graph.now.functions entry ≡ Some f → UnwindsAll graph.now predicates.now f entry bounds ends reached.now.pairs reached.now.steps circuit.old circuit.new entries.items) }
{
    graph.well_formed();
    let mut agenda = begun;
    let mut entries = Vec::new(alloc);
    for place in 0..reached.pairs.len() {
        let pair = &reached.pairs[place];
        let steps = reached.steps[place].as_slice();
        take_place(
            alloc,
            circuit,
            graph,
            entry,
            predicates,
            ends,
            answers,
            pair,
            steps,
            place,
            &mut agenda,
            &mut entries,
        )?;
    }
    Ok(entries)
}

/// The unwinding whose pairs these are, with the steps between them.
fn unwound(
    alloc: Global,
    graph: &Graph,
    entry: u32,
    predicates: &Predicates,
    bounds: Bounds,
    ends: Ends,
    reached: &Reached,
) -> Result<Unwound, Memory>
    requires entry { IsSomeAnd (slice_get graph.now.functions entry) (λ f. f.arrays ≡ []) }
    requires predicates { IsPredicates graph.now predicates.now }
    requires frames { 1 ≤ bounds.frames }
    requires answers { bounds.answers ≤ 256 }
    requires reached { (f : OneFunction) → slice_get graph.now.functions entry ≡ Some f → AreReached graph.now bounds f reached.now.pairs reached.now.steps }
    requires few { length reached.now.pairs ≤ 50000 }
    requires small { (f : OneFunction) → slice_get graph.now.functions entry ≡ Some f → size_sum graph.now predicates.now f reached.now.pairs reached.now.steps ≤ 4194304 }
    ensures { IfOk result (λ unwound. (f : OneFunction) → slice_get graph.now.functions entry ≡ Some f → IsUnwound graph.now predicates.now f entry bounds ends unwound) }
{
    graph.well_formed();
    inputs_stay();
    let function = &graph.functions()[entry as usize];
    let mut circuit = Circuit::new(alloc);
    let InputWords { words, answers } = inputs(
        alloc,
        &mut circuit,
        &function.parameters,
        bounds.answers,
    )?;
    let state = start(alloc, graph, entry, &words)?;
    let first = Arrival {
        edge: None,
        guard: Lit::YES,
        state: Some(state),
    };
    let agenda = agenda_of(alloc, first, reached.pairs.len())?;
    let entries = all_taken(
        alloc,
        &mut circuit,
        graph,
        entry,
        predicates,
        bounds,
        ends,
        &answers,
        reached,
        agenda,
    )?;
    Ok(Unwound {
        entry,
        bounds,
        ends,
        pairs: reached.pairs.len() as u32,
        circuit,
        words,
        answers,
        entries: Vector::from_vec(entries),
    })
}

/// All runs of a function within bounds: for every input, the entries whose guards hold in its world tell, in order, of the
/// states of the longest beginning of its run all of whose states are within the bounds, and of no more.
///
/// Merges come where edges meet in one pair of node and context. There is an entry for the start and one for each step, of
/// which at most two lead from each pair. The wires are at most the inputs, 32 for each unit of the size sum, and 128 for
/// each pair, once for each predicate and once more.
///
/// # Errors
///
/// Code 80 at the limit of 50,000 says that more pairs are reached, and code 81 at the limit of 4,194,304 that the size sum
/// passes it. Each comes wherever it is so, 80 before 81, unless memory runs out first.
pub fn unwind(
    alloc: Global,
    graph: &Graph,
    entry: u32,
    predicates: &Predicates,
    bounds: Bounds,
    ends: Ends,
) -> Result<Unwound, Fault>
    requires once { IsOnce graph.now }
    requires entry { IsSomeAnd (slice_get graph.now.functions entry) (λ f. f.arrays ≡ []) }
    requires predicates { IsPredicates graph.now predicates.now }
    requires frames { 1 ≤ bounds.frames }
    requires answers { bounds.answers ≤ 256 }
    ensures accepted { IfOk result (λ unwound. (f : OneFunction) → slice_get graph.now.functions entry ≡ Some f → IsUnwound graph.now predicates.now f entry bounds ends unwound) }
    ensures refused { IfErr result (λ fault. (f : OneFunction) → slice_get graph.now.functions entry ≡ Some f → IsUnwindFault graph.now predicates.now bounds f fault) }
{
    let reached = reached(alloc, graph, entry, bounds)?;
    size_of_unwinding(alloc, graph, entry, predicates, &reached)?;
    match unwound(alloc, graph, entry, predicates, bounds, ends, &reached) {
        Ok(unwound) => Ok(unwound),
        Err(Memory) => Err(Fault::Memory),
    }
}
