// The step from a state to the next.
ghost use Rattle.std.specs.Prelude.{◌≡◌, ◌+◌, ◌-◌, ◌^◌, ◌<◌, ◌≤◌, length, take, Some, IsTrue, IfOk, slice_get, slice_set};
ghost use Rattle.std.specs.Option.{IsSomeAnd, option_map};
ghost use Rattle.cfa.specs.Graph.{IsExit, call_fits, dest_fits, result_kind_fits};
ghost use Rattle.cfa.specs.Table.{outgoing_of};
ghost use Rattle.cfa.specs.Rules.{array_fits, expr_fits, place_fits};
ghost use Rattle.cfa.specs.States.{IsState, running_frame, value_in};
ghost use Rattle.c_values.specs.Kind.{IsKind};
ghost use Rattle.c_meaning.specs.Places.{Leaves, dest_in, put_in, storage_of};
ghost use Rattle.c_meaning.specs.Starts.{fitted};
ghost use Rattle.c_meaning.specs.Steps.{unless_trapped, unless_zero, cell_in, start_in, cleared, moved, put, answer_of, answered, called, call_of, operated, along, picked, onward, popped, result_word, returned_from, left, next, stepped, IfMoved};

use crate::cells::{keep_first, push_frame, put_value, put_zeros};
use crate::evaluate::{cell_of, fitted, value_of};
use crate::input::Input;
use crate::state::{edge_of, function_of, input_function_of, owner_of, running_frame, store_of};
use crate::state_values::{answer_of, value_in};
use crate::stepped::Step;
use crate::words::{starts_of, values_of};
use c_values::Kind;
use cfa::{
    ArrayPlace, CellPlace, Edge as GraphEdge, Expr, Frame, Function, Graph, InputFunction,
    Operation, State, Trap,
};
use containers::Vector;
use fq_core::Memory;
use std::alloc::{AllocError, Global};

/// How many frames may stand.
const MOST_FRAMES: usize = 64;

// The run goes to an edge's target.
fn go(state: &mut State, at: u32, edge: &GraphEdge) -> Step
    ensures { stepped result state.new ≡ moved at edge.now state.old state.old.cells }
{
    state.node = edge.target;
    Step::Moved(at)
}

// The run goes to an edge's target with a value in a cell.
fn go_with(state: &mut State, at: u32, edge: &GraphEdge, cell: usize, value: u64) -> Step
    ensures { stepped result state.new ≡ moved at edge.now state.old (slice_set state.old.cells cell value) }
{
    put_value(&mut state.cells, cell, value);
    state.node = edge.target;
    Step::Moved(at)
}

fn assigned(
    graph: &Graph,
    state: &mut State,
    at: u32,
    edge: &GraphEdge,
    place: &CellPlace,
    value: &Expr,
) -> Step
    requires state { IsState graph.now state.old }
    requires place { IsTrue (place_fits (storage_of graph.now state.old).room place.now) }
    requires value { IsTrue (expr_fits (storage_of graph.now state.old).room value.now) }
    ensures { stepped result state.new ≡ unless_trapped (cell_in state.old place.now) (λ cell. unless_trapped (value_in state.old value.now) (λ v. moved at edge.now state.old (slice_set state.old.cells cell v))) }
{
    let store = store_of(graph, state);
    let cell = cell_of(&store, place);
    let value = value_of(&store, value);
    match (cell, value) {
        (Ok(cell), Ok(value)) => go_with(state, at, edge, cell, value),
        (Ok(_cell), Err(trap)) => Step::Trapped(trap),
        (Err(trap), _value) => Step::Trapped(trap),
    }
}

fn array_cleared(
    graph: &Graph,
    state: &mut State,
    at: u32,
    edge: &GraphEdge,
    array: ArrayPlace,
    count: u32,
) -> Step
    requires state { IsState graph.now state.old }
    requires array { IsTrue (array_fits (storage_of graph.now state.old).room array count) }
    ensures { stepped result state.new ≡ moved at edge.now state.old (cleared state.old.cells (start_in state.old array) count) }
{
    let first = store_of(graph, state).array_start(array);
    put_zeros(&mut state.cells, first, count as usize);
    state.node = edge.target;
    Step::Moved(at)
}

// A test that is 0 ends the run.
fn tested(
    graph: &Graph,
    state: &mut State,
    at: u32,
    edge: &GraphEdge,
    test: &Expr,
    stopped: Step,
) -> Step
    requires state { IsState graph.now state.old }
    requires test { IsTrue (expr_fits (storage_of graph.now state.old).room test.now) }
    ensures { stepped result state.new ≡ unless_trapped (value_in state.old test.now) (unless_zero (stepped stopped state.old) (moved at edge.now state.old state.old.cells)) }
{
    match value_in(graph, state, test) {
        Ok(0) => stopped,
        Ok(_value) => go(state, at, edge),
        Err(trap) => Step::Trapped(trap),
    }
}

// The cells with a value in a place, where there is one, or the trap of its index.
fn cell_for(graph: &Graph, state: &State, dest: &Option<CellPlace>) -> Result<Option<usize>, Trap>
    requires state { IsState graph.now state.now }
    requires dest { IsTrue (dest_fits (storage_of graph.now state.now).room dest.now) }
    ensures { result ≡ dest_in state.now dest.now }
{
    match dest {
        None => Ok(None),
        Some(place) => match cell_of(&store_of(graph, state), place) {
            Ok(cell) => Ok(Some(cell)),
            Err(trap) => Err(trap),
        },
    }
}

// The run goes to an edge's target with a value in a cell, where there is one, and so many answers taken.
fn go_on(state: &mut State, edge: &GraphEdge, dest: Option<usize>, value: u64, answers: u64)
    ensures { state.new ≡ record { node = edge.now.target; frames = state.old.frames; cells = put_in state.old.cells dest value; taken = answers } }
{
    if let Some(cell) = dest {
        put_value(&mut state.cells, cell, value);
    }
    state.node = edge.target;
    state.taken = answers;
}

// An answer is taken.
fn answered(
    graph: &Graph,
    input: &Input,
    state: &mut State,
    at: u32,
    edge: &GraphEdge,
    function: &InputFunction,
    dest: &Option<CellPlace>,
) -> Step
    requires state { IsState graph.now state.old }
    requires more { state.old.taken + 1 < 2 ^ 64 }
    requires kind { IsKind function.now.result }
    requires dest { IsTrue (dest_fits (storage_of graph.now state.old).room dest.now) }
    ensures { stepped result state.new ≡ answered input.now state.old at edge.now dest.now (Some function.now) }
{
    match cell_for(graph, state, dest) {
        Err(trap) => Step::Trapped(trap),
        Ok(cell) => {
            let answer = answer_of(input, state.taken, function.result);
            let answers = state.taken + 1;
            go_on(state, edge, cell, answer, answers);
            Step::Moved(at)
        }
    }
}

// A frame is pushed, with the places of the arrays that it is lent and the words.
fn pushed(
    state: &mut State,
    at: u32,
    edge: &GraphEdge,
    starts: Vector<u32>,
    function: &Function,
    words: &[u64],
) -> Result<Step, AllocError>
    requires cells { length state.old.cells < 2 ^ 32 }
    requires words { length words.now < 2 ^ 63 }
    ensures { IfOk result (λ step. stepped step state.new ≡ called state.old at edge.now starts function.now words.now) }
{
    let base = state.cells.len() as u32;
    push_frame(&mut state.cells, words, function.cells)?;
    state.frames.push(Frame {
        call: Some(at),
        base,
        arrays: starts,
    })?;
    state.node = edge.target;
    Ok(Step::Moved(at))
}

// What a call hands over: its words, or the first trap, and the places of its arrays.
fn call(
    alloc: Global,
    graph: &Graph,
    state: &mut State,
    at: u32,
    edge: &GraphEdge,
    words: &[Expr],
    arrays: &[ArrayPlace],
    function: &Function,
) -> Result<Step, AllocError>
    requires state { IsState graph.now state.old }
    requires call { IsTrue (call_fits (storage_of graph.now state.old).room (Some function.now) words.now arrays.now) }
    ensures { IfOk result (λ step. stepped step state.new ≡ call_of state.old at edge.now words.now arrays.now (Some function.now)) }
{
    if state.frames.len() >= MOST_FRAMES {
        return Ok(Step::TooDeep);
    }
    let store = store_of(graph, state);
    let starts = starts_of(alloc, &store, arrays)?;
    match values_of(alloc, &store, words)? {
        Ok(values) => pushed(state, at, edge, starts, function, &values),
        Err(trap) => Ok(Step::Trapped(trap)),
    }
}

// What an edge's operation does, which leaves the state's node and is no return.
fn operated(
    alloc: Global,
    graph: &Graph,
    input: &Input,
    state: &mut State,
    at: u32,
    edge: &GraphEdge,
) -> Result<Step, AllocError>
    requires state { IsState graph.now state.old }
    requires more { state.old.taken + 1 < 2 ^ 64 }
    requires leaves { Leaves graph.now state.old at edge.now }
    ensures { IfOk result (λ step. stepped step state.new ≡ operated graph.now input.now state.old at edge.now edge.now.operation) }
{
    graph.well_formed();
    match &edge.operation {
        Operation::Skip | Operation::Guard { .. } => Ok(go(state, at, edge)),
        Operation::Assign { place, value } => Ok(assigned(graph, state, at, edge, place, value)),
        Operation::Clear { array, length } => {
            Ok(array_cleared(graph, state, at, edge, *array, *length))
        }
        Operation::Call {
            callee,
            words,
            arrays,
        } => {
            let function = function_of(graph, *callee);
            call(alloc, graph, state, at, edge, words, arrays, function)
        }
        Operation::Return { .. } => Ok(Step::Blocked),
        Operation::Answer {
            input: number,
            dest,
        } => {
            let function = input_function_of(graph, *number);
            Ok(answered(graph, input, state, at, edge, function, dest))
        }
        Operation::Assert(test) => {
            let stopped = Step::Trapped(Trap::Assert);
            Ok(tested(graph, state, at, edge, test, stopped))
        }
        Operation::Assume(test) => Ok(tested(graph, state, at, edge, test, Step::Blocked)),
    }
}

// Goes along the edge of a number.
fn along(
    alloc: Global,
    graph: &Graph,
    input: &Input,
    state: &mut State,
    at: u32,
) -> Result<Step, AllocError>
    requires state { IsState graph.now state.old }
    requires more { state.old.taken + 1 < 2 ^ 64 }
    requires leaves { IsSomeAnd (slice_get graph.now.edges at) (λ e. Leaves graph.now state.old at e) }
    ensures { IfOk result (λ step. stepped step state.new ≡ along graph.now input.now state.old at) }
{
    operated(alloc, graph, input, state, at, edge_of(graph, at))
}

// Of two guards, that of truth first, the test's value picks one.
fn picked(
    alloc: Global,
    graph: &Graph,
    input: &Input,
    state: &mut State,
    yes_at: u32,
    no_at: u32,
) -> Result<Step, AllocError>
    requires state { IsState graph.now state.old }
    requires more { state.old.taken + 1 < 2 ^ 64 }
    requires yes_leaves { IsSomeAnd (slice_get graph.now.edges yes_at) (λ e. Leaves graph.now state.old yes_at e) }
    requires no_leaves { IsSomeAnd (slice_get graph.now.edges no_at) (λ e. Leaves graph.now state.old no_at e) }
    ensures { IfOk result (λ step. stepped step state.new ≡ picked graph.now input.now state.old yes_at no_at (slice_get graph.now.edges yes_at)) }
{
    graph.well_formed();
    match &edge_of(graph, yes_at).operation {
        Operation::Guard { test, .. } => match value_in(graph, state, test) {
            Ok(0) => along(alloc, graph, input, state, no_at),
            Ok(_value) => along(alloc, graph, input, state, yes_at),
            Err(trap) => Ok(Step::Trapped(trap)),
        },
        _ => Ok(Step::Blocked),
    }
}

// Goes on from a node that is no exit.
fn onward(
    alloc: Global,
    graph: &Graph,
    input: &Input,
    state: &mut State,
) -> Result<Step, AllocError>
    requires state { IsState graph.now state.old }
    requires more { state.old.taken + 1 < 2 ^ 64 }
    requires inner { ¬ IsExit graph.now state.old.node }
    ensures { IfOk result (λ step. stepped step state.new ≡ onward graph.now input.now state.old (outgoing_of graph.now state.old.node)) }
{
    graph.well_formed();
    match graph.outgoing(state.node) {
        [] => Ok(Step::Blocked),
        [at] => along(alloc, graph, input, state, *at),
        [yes_at, no_at, ..] => picked(alloc, graph, input, state, *yes_at, *no_at),
    }
}

// Removes the last frame.
fn pop_frame(frames: &mut Vector<Frame>)
    ensures { frames.new ≡ take (length frames.old - 1) frames.old }
{
    let _last = frames.pop();
}

// What the cell of the result holds.
fn result_word(state: &State) -> u64
    requires { 1 ≤ length state.now.frames }
    ensures { result ≡ result_word state.now }
{
    let base = running_frame(state).base;
    let cells = state.cells.as_slice();
    cells.get(base as usize).copied().unwrap_or(0)
}

// Removes the frame that runs, with its cells.
fn pop(state: &mut State)
    requires { 1 ≤ length state.old.frames }
    ensures { state.new ≡ popped state.old }
{
    let base = running_frame(state).base;
    pop_frame(&mut state.frames);
    keep_first(&mut state.cells, base as usize);
}

// The frame that ran is removed, and its result is put where the return edge's place is.
fn returned(
    graph: &Graph,
    state: &mut State,
    at: u32,
    edge: &GraphEdge,
    dest: &Option<CellPlace>,
) -> Step
    requires frames { 1 ≤ length state.old.frames }
    requires below { IsState graph.now (record (popped state.old) { node = edge.now.target }) }
    requires dest { IsTrue (dest_fits (storage_of graph.now (record (popped state.old) { node = edge.now.target })).room dest.now) }
    ensures { stepped result state.new ≡ put (popped state.old) dest.now (result_word state.old) (moved at edge.now (popped state.old)) }
{
    let word = result_word(state);
    pop(state);
    state.node = edge.target;
    match cell_for(graph, state, dest) {
        Err(trap) => Step::Trapped(trap),
        Ok(cell) => {
            let answers = state.taken;
            go_on(state, edge, cell, word, answers);
            Step::Moved(at)
        }
    }
}

// What a function gives, of its kind.
fn given(state: &State, function: &Function) -> Option<u64>
    requires frames { 1 ≤ length state.now.frames }
    requires kind { IsTrue (result_kind_fits function.now.result) }
    ensures { result ≡ option_map (λ kind. fitted kind (result_word state.now)) function.now.result }
{
    match function.result {
        Some(kind) => Some(fitted(result_word(state), kind)),
        None => None,
    }
}

// Goes back to the caller, from a call.
fn back(graph: &Graph, state: &mut State, call: u32) -> Result<Step, AllocError>
    requires state { IsState graph.now state.old }
    requires many { length state.old.frames ≡ 1 → ⊥ }
    requires from { (running_frame state.old).call ≡ Some call }
    ensures { IfOk result (λ step. stepped step state.new ≡ returned_from graph.now state.old (Some call)) }
{
    graph.well_formed();
    if call == u32::MAX {
        return Err(AllocError);
    }
    let at = call + 1;
    let edge = edge_of(graph, at);
    match &edge.operation {
        Operation::Return { dest, .. } => Ok(returned(graph, state, at, edge, dest)),
        _ => Ok(Step::Blocked),
    }
}

// Goes on from a function's exit: back to the caller, or the run has returned.
fn left(graph: &Graph, state: &mut State, function: &Function) -> Result<Step, AllocError>
    requires state { IsState graph.now state.old }
    requires kind { IsTrue (result_kind_fits function.now.result) }
    ensures { IfOk result (λ step. stepped step state.new ≡ left graph.now state.old function.now) }
{
    if state.frames.len() == 1 {
        return Ok(Step::Returned {
            value: given(state, function),
        });
    }
    match running_frame(state).call {
        None => Ok(Step::Blocked),
        Some(call) => back(graph, state, call),
    }
}

// What comes next.
fn next(alloc: Global, graph: &Graph, input: &Input, state: &mut State) -> Result<Step, AllocError>
    requires state { IsState graph.now state.old }
    requires more { state.old.taken + 1 < 2 ^ 64 }
    ensures { IfOk result (λ step. stepped step state.new ≡ next graph.now input.now state.old) }
{
    graph.well_formed();
    let function = owner_of(graph, state.node);
    if state.node == function.exit {
        left(graph, state, function)
    } else {
        onward(alloc, graph, input, state)
    }
}

/// Goes from a state to what comes next: along one edge, or to the end of the run. Where it goes along none, or memory is
/// refused, the state is spent. A step that calls nothing takes no memory.
///
/// # Errors
///
/// Want of memory alone.
pub fn step(graph: &Graph, input: &Input, state: &mut State) -> Result<Step, Memory>
    requires state { IsState graph.now state.old }
    requires more { state.old.taken + 1 < 2 ^ 64 }
    // It is what the rules of steps say.
    ensures next { IfOk result (λ step. stepped step state.new ≡ next graph.now input.now state.old) }
    // Where the run goes on, it is in a state of the graph.
    ensures kept { IfOk result (λ step. IfMoved (stepped step state.new) (λ to. IsState graph.now to)) }
{
    graph.well_formed();
    let alloc = state.cells.allocator();
    let step = next(alloc, graph, input, state)?;
    Ok(step)
}
