// The step of a symbolic state.
ghost use Rattle.std.specs.Prelude.{◌≡◌, ◌+◌, ◌*◌, ◌≤◌, ◌<◌, ◌^◌, [], false, All, IfOk, Some, length, slice_get};
ghost use Rattle.std.specs.Option.{IsSomeAnd};
ghost use Rattle.circuit.specs.Sharing.{no_lit};
ghost use Rattle.circuit.specs.Wires.{IsWire};
ghost use Rattle.cfa.specs.Graph.{IsExit};
ghost use Rattle.cfa.specs.Table.{AreGuards, outgoing_of};
ghost use Rattle.bit_words.specs.Words.{Grows};
ghost use Rattle.c_meaning.specs.Places.{Leaves};
ghost use Rattle.c_meaning.specs.Steps.{function_at, next, onward, picked};
ghost use Rattle.sym_expr.specs.sym_steps.Operated.{IsOperated};
ghost use Rattle.sym_expr.specs.sym_steps.Steps.{AreStates, IsStep, running_of, state_in};
ghost use Rattle.sym_expr.specs.sym_steps.Weights.{most_step_wires};
ghost use Rattle.sym_expr.specs.Weights.{operation_weight, operations_weight};

use crate::sym_steps::operations::{
    answered, assigned, called, clear, no_way, picked, skip, tested,
};
use crate::sym_steps::returning::returned;
use crate::sym_steps::state::{SymState, SymStep, running};
use bit_words::Word;
use cfa::{Edge, Function, Graph, InputFunction, Operation};
use circuit::{Circuit, Memory};
use std::alloc::{AllocError, Global};

/// The defined function of a number.
pub(crate) fn function_of(graph: &Graph, at: u32) -> &Function
    requires { at < length graph.now.functions }
    ensures { slice_get graph.now.functions at ≡ Some result.now }
{
    &graph.functions()[at as usize]
}

/// The input function of a number.
fn input_function_of(graph: &Graph, at: u32) -> &InputFunction
    requires { at < length graph.now.inputs }
    ensures { slice_get graph.now.inputs at ≡ Some result.now }
{
    &graph.inputs()[at as usize]
}

/// The edge of a number.
fn edge_of(graph: &Graph, at: u32) -> &Edge
    requires { at < length graph.now.edges }
    ensures { slice_get graph.now.edges at ≡ Some result.now }
{
    &graph.edges()[at as usize]
}

/// The function that a node belongs to.
fn owner_of(graph: &Graph, node: u32) -> &Function
    requires { node < length graph.now.nodes }
    ensures { function_at graph.now node ≡ Some result.now }
{
    graph.well_formed();
    let own = graph.nodes()[node as usize].function;
    &graph.functions()[own as usize]
}

/// What an edge's operation does, which leaves the state's node and is no return.
fn operated(
    alloc: Global,
    circuit: &mut Circuit,
    graph: &Graph,
    state: SymState,
    at: u32,
    edge: &Edge,
    answers: &[Word],
) -> Result<SymStep, Memory>
    requires states { AreStates graph.now circuit.old state }
    requires cells { All (All (IsWire circuit.old)) state.store.cells }
    requires words { All (All (IsWire circuit.old)) answers.now }
    requires more { state.taken + 1 < 2 ^ 64 }
    requires leaves { Leaves graph.now (state_in circuit.old state []) at edge.now }
    requires room { length circuit.old + most_step_wires (operation_weight graph.now edge.now.operation) ≤ 2 ^ 30 }
    ensures grows { Grows circuit.old circuit.new (most_step_wires (operation_weight graph.now edge.now.operation)) }
    ensures step { IfOk result (λ t. IsOperated graph.now circuit.old circuit.new answers.now state at edge.now t) }
{
    graph.well_formed();
    match &edge.operation {
        Operation::Skip => Ok(skip(alloc, circuit, graph, state, at, edge, answers)?),
        Operation::Guard { .. } => Ok(skip(alloc, circuit, graph, state, at, edge, answers)?),
        Operation::Assign { place, value } => assigned(
            alloc, circuit, graph, state, at, edge, place, value, answers,
        ),
        Operation::Clear { array, length } => Ok(clear(
            alloc, circuit, graph, state, at, edge, *array, *length, answers,
        )?),
        Operation::Call {
            callee,
            words,
            arrays,
        } => {
            let function = function_of(graph, *callee);
            called(
                alloc, circuit, graph, state, at, edge, *callee, words, arrays, function, answers,
            )
        }
        Operation::Return { .. } => {
            let SymState {
                node: _from,
                frames,
                store,
                taken,
            } = state;
            Ok(no_way(alloc, false, frames, store, taken))
        }
        Operation::Answer { input, dest } => {
            let function = input_function_of(graph, *input);
            answered(
                alloc, circuit, graph, state, at, edge, *input, function, dest, answers,
            )
        }
        Operation::Assert(test) => tested(
            alloc, circuit, graph, state, at, edge, test, true, answers,
        ),
        Operation::Assume(test) => tested(
            alloc, circuit, graph, state, at, edge, test, false, answers,
        ),
    }
}

/// Goes on from a node that is no exit.
fn onward(
    alloc: Global,
    circuit: &mut Circuit,
    graph: &Graph,
    state: SymState,
    answers: &[Word],
) -> Result<SymStep, Memory>
    requires states { AreStates graph.now circuit.old state }
    requires cells { All (All (IsWire circuit.old)) state.store.cells }
    requires words { All (All (IsWire circuit.old)) answers.now }
    requires more { state.taken + 1 < 2 ^ 64 }
    requires inner { ¬ IsExit graph.now state.node }
    requires room { length circuit.old + most_step_wires (operations_weight graph.now state.node) ≤ 2 ^ 30 }
    ensures grows { Grows circuit.old circuit.new (most_step_wires (operations_weight graph.now state.node)) }
    ensures step { IfOk result (λ t. IsStep graph.now circuit.old circuit.new answers.now state (λ input x. onward graph.now input x (outgoing_of graph.now state.node)) t) }
{
    graph.well_formed();
    match graph.outgoing(state.node) {
        [at] => {
            let edge = edge_of(graph, *at);
            operated(alloc, circuit, graph, state, *at, edge, answers)
        }
        [yes_at, no_at, ..] => guarded(alloc, circuit, graph, state, *yes_at, *no_at, answers),
        [] => Ok(stopped(alloc, state)),
    }
}

/// The step after which nothing comes.
fn stopped(alloc: Global, state: SymState) -> SymStep
    ensures { result ≡ record { ways = []; traps = no_lit; returns = false; frames = state.frames; store = state.store; taken = state.taken } }
{
    let SymState {
        node: _from,
        frames,
        store,
        taken,
    } = state;
    no_way(alloc, false, frames, store, taken)
}

/// Of two edges that leave the state's node, guards of one test, the test's value picks one.
fn guarded(
    alloc: Global,
    circuit: &mut Circuit,
    graph: &Graph,
    state: SymState,
    yes_at: u32,
    no_at: u32,
    answers: &[Word],
) -> Result<SymStep, Memory>
    requires states { AreStates graph.now circuit.old state }
    requires cells { All (All (IsWire circuit.old)) state.store.cells }
    requires yes { IsSomeAnd (slice_get graph.now.edges yes_at) (λ e. Leaves graph.now (state_in circuit.old state []) yes_at e) }
    requires no { IsSomeAnd (slice_get graph.now.edges no_at) (λ e. Leaves graph.now (state_in circuit.old state []) no_at e) }
    requires guards { IsSomeAnd (slice_get graph.now.edges yes_at) (λ e. IsSomeAnd (slice_get graph.now.edges no_at) (λ f. AreGuards e.operation f.operation)) }
    requires room { length circuit.old + most_step_wires (operations_weight graph.now state.node) ≤ 2 ^ 30 }
    ensures grows { Grows circuit.old circuit.new (most_step_wires (operations_weight graph.now state.node)) }
    ensures step { IfOk result (λ t. IsStep graph.now circuit.old circuit.new answers.now state (λ input x. picked graph.now input x yes_at no_at (slice_get graph.now.edges yes_at)) t) }
{
    graph.well_formed();
    match &edge_of(graph, yes_at).operation {
        Operation::Guard { test, .. } => picked(
            alloc, circuit, graph, state, yes_at, no_at, test, answers,
        ),
        _ => Ok(stopped(alloc, state)),
    }
}

/// Goes back to the caller, from a call.
fn back(
    alloc: Global,
    circuit: &mut Circuit,
    graph: &Graph,
    state: SymState,
    call: u32,
    function: &Function,
    answers: &[Word],
) -> Result<SymStep, Memory>
    requires states { AreStates graph.now circuit.old state }
    requires cells { All (All (IsWire circuit.old)) state.store.cells }
    requires many { length state.frames ≡ 1 → ⊥ }
    requires from { (running_of state.frames).call ≡ Some call }
    requires own { function_at graph.now state.node ≡ Some function.now }
    requires exit { state.node ≡ function.now.exit }
    requires room { length circuit.old + most_step_wires (operations_weight graph.now state.node) ≤ 2 ^ 30 }
    ensures grows { Grows circuit.old circuit.new (most_step_wires (operations_weight graph.now state.node)) }
    ensures step { IfOk result (λ t. IsStep graph.now circuit.old circuit.new answers.now state (λ input x. next graph.now input x) t) }
{
    graph.well_formed();
    if call == u32::MAX {
        return Err(Memory);
    }
    let at = call + 1;
    let edge = edge_of(graph, at);
    match &edge.operation {
        Operation::Return { dest, .. } => returned(
            alloc, circuit, graph, state, call, at, edge, function, dest, answers,
        ),
        _ => Ok(stopped(alloc, state)),
    }
}

/// Goes on from a function's exit: back to the caller, or the run has returned.
fn left(
    alloc: Global,
    circuit: &mut Circuit,
    graph: &Graph,
    state: SymState,
    function: &Function,
    answers: &[Word],
) -> Result<SymStep, Memory>
    requires states { AreStates graph.now circuit.old state }
    requires cells { All (All (IsWire circuit.old)) state.store.cells }
    requires own { function_at graph.now state.node ≡ Some function.now }
    requires exit { state.node ≡ function.now.exit }
    requires room { length circuit.old + most_step_wires (operations_weight graph.now state.node) ≤ 2 ^ 30 }
    ensures grows { Grows circuit.old circuit.new (most_step_wires (operations_weight graph.now state.node)) }
    ensures step { IfOk result (λ t. IsStep graph.now circuit.old circuit.new answers.now state (λ input x. next graph.now input x) t) }
{
    graph.well_formed();
    if state.frames.len() == 1 {
        let SymState {
            node: _from,
            frames,
            store,
            taken,
        } = state;
        return Ok(no_way(alloc, true, frames, store, taken));
    }
    match running(&state.frames).call {
        None => Ok(stopped(alloc, state)),
        Some(call) => back(alloc, circuit, graph, state, call, function, answers),
    }
}

/// What comes next of a symbolic state, in all worlds at once. The answers are the words that input functions give in turn,
/// and 0 past them.
///
/// In every world, the answer's literals and the way on are what the rules of steps say of the state there, and where the
/// next answer's word is the input's answer there, the state behind the step is the next one.
///
/// # Errors
///
/// Want of memory alone.
pub fn step(
    circuit: &mut Circuit,
    graph: &Graph,
    state: SymState,
    answers: &[Word],
) -> Result<SymStep, Memory>
    requires states { AreStates graph.now circuit.old state }
    requires cells { All (All (IsWire circuit.old)) state.store.cells }
    requires words { All (All (IsWire circuit.old)) answers.now }
    requires more { state.taken + 1 < 2 ^ 64 }
    requires room { length circuit.old + most_step_wires (operations_weight graph.now state.node) ≤ 2 ^ 30 }
    ensures grows { Grows circuit.old circuit.new (most_step_wires (operations_weight graph.now state.node)) }
    ensures step { IfOk result (λ t. IsStep graph.now circuit.old circuit.new answers.now state (λ input x. next graph.now input x) t) }
{
    graph.well_formed();
    let alloc = state.frames.allocator();
    let function = owner_of(graph, state.node);
    if state.node == function.exit {
        return left(alloc, circuit, graph, state, function, answers);
    }
    onward(alloc, circuit, graph, state, answers)
}
