// What the operations that leave a node weigh.
ghost use Rattle.std.specs.Prelude.{◌≡◌, ◌<◌, ℕ, length, slice_index, IfOk};
ghost use Rattle.std.specs.Option.{option_copied};
ghost use Rattle.cfa.specs.Graph.{callee_of, function_called};
ghost use Rattle.unwinder_reach.specs.unwinding_size.Capped.{capped};
ghost use Rattle.sym_expr.specs.Weights.{answer_kind, dest_weight, operation_weight, operations_weight, result_kind};

use crate::unwinding_size::capped::sum;
use crate::unwinding_size::expressions::{place_weight, weight, weights};
use crate::unwinding_size::tally::raise;
use c_values::Kind;
use cfa::{CellPlace, Function, Graph, Operation};
use fq_core::Memory;
use std::alloc::Global;

fn callee_of(operation: &Operation) -> Option<u32>
    ensures { result ≡ callee_of operation.now }
{
    match operation {
        Operation::Call { callee, .. } => Some(*callee),
        _ => None,
    }
}

/// The function that the edge of a number calls.
pub(crate) fn function_called(graph: &Graph, call: u32) -> Option<&Function>
    ensures { option_copied result ≡ function_called graph.now call }
{
    match graph.edges().get(call as usize) {
        None => None,
        Some(edge) => match callee_of(&edge.operation) {
            None => None,
            Some(callee) => graph.functions().get(callee as usize),
        },
    }
}

// The kind of what a call gives back.
fn result_kind(graph: &Graph, call: u32) -> Option<Kind>
    ensures { result ≡ result_kind graph.now call }
{
    match function_called(graph, call) {
        None => None,
        Some(function) => function.result,
    }
}

// The kind of an answer of an input function.
fn answer_kind(graph: &Graph, input: u32) -> Option<Kind>
    ensures { result ≡ answer_kind graph.now input }
{
    match graph.inputs().get(input as usize) {
        None => None,
        Some(function) => Some(function.result),
    }
}

// The weight of the place where a value of a kind is put.
#[tactic(auto, unfolding(crate::specs::unwinding_size::Capped::capped))]
fn dest_weight(dest: &Option<CellPlace>, kind: Option<Kind>) -> u64
    ensures { result ≡ capped (dest_weight dest.now kind) }
{
    match dest {
        None => 0,
        Some(place) => match kind {
            None => 0,
            Some(kind) => place_weight(place, kind.width),
        },
    }
}

// The weight of an operation. Of two guards with one test, that of truth has its weight.
#[tactic(auto, using(crate::proofs::unwinding_size::CappedLaws::capped_sums))]
fn operation_weight(graph: &Graph, operation: &Operation) -> u64
    ensures { result ≡ capped (operation_weight graph.now operation.now) }
{
    match operation {
        Operation::Skip | Operation::Clear { .. } => 0,
        Operation::Assign { place, value } => {
            sum(place_weight(place, value.kind().width), weight(value))
        }
        Operation::Guard { test, truth } => { if *truth { weight(test) } else { 0 } }
        Operation::Call { words, .. } => weights(words),
        Operation::Return { call, dest } => dest_weight(dest, result_kind(graph, *call)),
        Operation::Answer { input, dest } => dest_weight(dest, answer_kind(graph, *input)),
        Operation::Assert(test) | Operation::Assume(test) => weight(test),
    }
}

/// By node, the weight of the operations that leave it, as it is counted: up to 1 above the limit of the size sum.
#[tactic(auto, unfolding(crate::specs::unwinding_size::Capped::capped))]
pub fn node_weights(alloc: Global, graph: &Graph) -> Result<Vec<u64>, Memory>
    ensures { IfOk result (λ table. (node : ℕ) → slice_index table.items node ≡ capped (operations_weight graph.now node)) }
{
    graph.well_formed();
    let mut table = vec![in alloc; 0u64; graph.nodes().len()]?;
    for edge in graph.edges() {
        let own = operation_weight(graph, &edge.operation);
        raise(&mut table, edge.source as usize, own);
    }
    Ok(table)
}
