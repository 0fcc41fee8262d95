// What a pair weighs, from tables.
ghost use Rattle.std.specs.Prelude.{◌≡◌, ◌<◌, ◌+◌, ◌*◌, ◌-◌, ℕ, List, length, slice_index, IfOk, sum_by, count_by, ◌==◌, if◌then◌else◌};
ghost use Rattle.cfa.specs.declared.state.Predicates.{Predicates as GraphPredicates};
ghost use Rattle.unwinder_reach.specs.declared.reached.step.Step.{Step as OneStep};
ghost use Rattle.unwinder_reach.specs.unwinding_size.Capped.{capped};
ghost use Rattle.unwinder_reach.specs.unwinding_size.Sizes.{frame_cells, pair_weight, predicates_weight, scope_weight, steps_into, store_cells};
ghost use Rattle.unwinder_reach.specs.unwinding_size.Tables.{AreTables};

use crate::reached::{CallFrame, NodeInContext, Reached, Step};
use crate::unwinding_size::capped::{cap, product, sum};
use crate::unwinding_size::operations::{function_called, node_weights};
use crate::unwinding_size::scopes::scope_weights;
use crate::unwinding_size::tally::raise;
use cfa::{Function, Graph, Predicates};
use fq_core::Memory;
use std::alloc::Global;

/// What is computed once for all pairs.
#[derive(Drop)]
pub(crate) struct Tables {
    /// By node, the weight of the operations that leave it.
    pub(crate) operations: Vec<u64>,
    /// By scope, the weight of the predicates that have a typing in it.
    pub(crate) scopes: Vec<u64>,
    /// By pair, how many steps lead to it.
    pub(crate) arrivals: Vec<u64>,
}

// Counts a step to the pair of a number.
#[tactic(auto, using(crate::proofs::unwinding_size::CappedLaws::capped_sums))]
fn count_step(arrivals: &mut Vec<u64>, to: usize)
    ensures length { length arrivals.new.items ≡ length arrivals.old.items }
    ensures each { (k n : ℕ) → k < length arrivals.old.items → slice_index arrivals.old.items k ≡ capped n → slice_index arrivals.new.items k ≡ capped (n + (if to == k then 1 else 0)) }
{
    if to < arrivals.len() {
        raise(arrivals, to, 1);
    }
}

// Counts the steps of a row by the pairs to which they lead.
fn count_row(arrivals: &mut Vec<u64>, row: &[Step])
    ensures length { length arrivals.new.items ≡ length arrivals.old.items }
    ensures each { (k n : ℕ) → k < length arrivals.old.items → slice_index arrivals.old.items k ≡ capped n → slice_index arrivals.new.items k ≡ capped (n + count_by (λ (s : OneStep). s.to == k) row.now) }
{
    for step in row {
        count_step(arrivals, step.to as usize);
    }
}

// By pair, how many steps lead to it.
#[tactic(auto, unfolding(crate::specs::unwinding_size::Capped::capped))]
fn arrivals(alloc: Global, reached: &Reached) -> Result<Vec<u64>, Memory>
    ensures { IfOk result (λ table. (i : ℕ) → i < length reached.now.pairs → slice_index table.items i ≡ capped (steps_into reached.now.steps i)) }
{
    let mut table = vec![in alloc; 0u64; reached.pairs.len()]?;
    for row in reached.steps.as_slice() {
        count_row(&mut table, row);
    }
    Ok(table)
}

/// The tables of an automaton, predicates and the pairs that are reached.
pub(crate) fn tables_of(
    alloc: Global,
    graph: &Graph,
    predicates: &Predicates,
    reached: &Reached,
) -> Result<Tables, Memory>
    ensures { IfOk result (λ tables. AreTables graph.now predicates.now (length reached.now.pairs) reached.now.steps tables) }
{
    let operations = node_weights(alloc, graph)?;
    let scopes = scope_weights(alloc, graph, predicates)?;
    let arrivals = arrivals(alloc, reached)?;
    Ok(Tables {
        operations,
        scopes,
        arrivals,
    })
}

fn frame_cells(graph: &Graph, first: &Function, frame: &CallFrame) -> u64
    ensures { result ≡ frame_cells graph.now first.now frame.now }
{
    match frame.call() {
        None => first.cells as u64,
        Some(call) => match function_called(graph, call) {
            None => 0,
            Some(function) => function.cells as u64,
        },
    }
}

#[tactic(auto, unfolding(crate::specs::unwinding_size::Capped::capped))]
fn store_cells(graph: &Graph, first: &Function, pair: &NodeInContext) -> u64
    ensures { result ≡ capped (store_cells graph.now first.now pair.now.context) }
{
    let mut total = cap(graph.globals().len() as u64);
    for frame in pair.frames().iter() {
        total = sum(total, frame_cells(graph, first, frame));
    }
    total
}

// 8 for each cell of a pair's store, for each step into it after the first.
fn merges_weight(graph: &Graph, first: &Function, arrivals: u64, pair: &NodeInContext) -> u64
    ensures { (steps : ℕ) → arrivals ≡ capped steps → result ≡ capped (8 * (store_cells graph.now first.now pair.now.context * (steps - 1))) }
{
    if arrivals <= 1 {
        return 0;
    }
    product(8, product(store_cells(graph, first, pair), arrivals - 1))
}

fn number_at(table: &[u64], at: usize) -> u64
    ensures { result ≡ slice_index table.now at }
{
    match table.get(at) {
        None => 0,
        Some(number) => *number,
    }
}

#[tactic(auto, unfolding(crate::specs::unwinding_size::Capped::capped))]
fn predicates_at(graph: &Graph, scopes: &[u64], node: u32) -> u64
    ensures { (predicates : GraphPredicates) → ((scope : ℕ) → scope < length graph.now.scopes → slice_index scopes.now scope ≡ capped (scope_weight predicates scope)) → result ≡ capped (predicates_weight graph.now predicates node) }
{
    graph.well_formed();
    match graph.nodes().get(node as usize) {
        None => 0,
        Some(node) => number_at(scopes, node.scope as usize),
    }
}

/// The weight of the pair of a number.
pub(crate) fn pair_weight(
    graph: &Graph,
    first: &Function,
    tables: &Tables,
    at: usize,
    pair: &NodeInContext,
) -> u64
    ensures { (predicates : GraphPredicates) (pairs : ℕ) (steps : List (List OneStep)) → AreTables graph.now predicates pairs steps tables.now → at < pairs → result ≡ capped (pair_weight graph.now predicates first.now steps at pair.now) }
{
    let operations = number_at(&tables.operations, pair.node() as usize);
    let predicates = predicates_at(graph, &tables.scopes, pair.node());
    let merges = merges_weight(graph, first, number_at(&tables.arrivals, at), pair);
    sum(sum(operations, predicates), merges)
}
