// What the operation of an edge does to a symbolic state.
ghost use Rattle.std.specs.Prelude.{◌≡◌, ◌⊎◌, ℕ, ◌+◌, ◌*◌, ◌≤◌, ◌<◌, ◌^◌, [], ◌∷◌, Bool, false, true, if◌then◌else◌, All, IfOk, length, sum_by, map, slice_get, slice_index, Some, List};
ghost use Rattle.circuit.specs.Truth.{World};
ghost use Rattle.circuit.specs.Wires.{IsWire};
ghost use Rattle.circuit.specs.declared.lit.Gate.{Gate};
ghost use Rattle.c_values.specs.Kind.{IsKind};
ghost use Rattle.cfa.specs.declared.parts.Operation.TheVariants as operation;
ghost use Rattle.cfa.specs.Kinds.{kind_of};
ghost use Rattle.cfa.specs.declared.expr.ArrayPlace.{ArrayPlace as Array};
ghost use Rattle.cfa.specs.declared.expr.Expr.{Expr as Expression};
ghost use Rattle.cfa.specs.Values.{array_start};
ghost use Rattle.circuit.specs.Sharing.{no_lit};
ghost use Rattle.bit_words.specs.Words.{Grows, word_value};
ghost use Rattle.c_meaning.specs.Places.{Leaves};
ghost use Rattle.c_meaning.specs.Starts.{fitted};
ghost use Rattle.sym_expr.specs.Stores.{cells_in};
ghost use Rattle.sym_expr.specs.Weights.{place_weight, weight_of};
ghost use Rattle.sym_expr.specs.sym_steps.Operated.{IsOperated};
ghost use Rattle.std.specs.Option.{IsSomeAnd};
ghost use Rattle.c_meaning.specs.Steps.{picked};
ghost use Rattle.sym_expr.specs.sym_steps.Steps.{AreStates, IsStep, state_in};
ghost use Rattle.sym_expr.specs.Weights.{dest_weight};

use crate::sym_steps::cells::{with_frame, with_zeros};
use crate::sym_steps::effects::{assign, both_hold, put_to, translate_all};
use crate::sym_steps::state::{SymState, SymStep, Way, running};
use crate::{SymStore, array_start, condition};
use bit_words::gates::{both, inverse};
use bit_words::{Word, constant, extended};
use c_values::Kind;
use cfa::{ArrayPlace, CellPlace, Edge, Expr, Frame, Function, Graph, InputFunction};
use circuit::{Circuit, Lit, Memory};
use containers::Vector;
use std::alloc::{AllocError, Global};

/// How many frames may stand.
const MOST_FRAMES: usize = 64;

/// The step with one way on.
pub(crate) fn one_way(
    alloc: Global,
    at: u32,
    moves: Lit,
    traps: Lit,
    frames: Vector<Frame>,
    store: SymStore,
    taken: u64,
) -> Result<SymStep, AllocError>
    ensures { IfOk result (λ t. t ≡ record { ways = record { edge = at; taken = moves } ∷ []; traps = traps; returns = false; frames = frames; store = store; taken = taken }) }
{
    let mut ways = Vector::new(alloc);
    ways.push(Way {
        edge: at,
        taken: moves,
    })?;
    Ok(SymStep {
        ways,
        traps,
        returns: false,
        frames,
        store,
        taken,
    })
}

/// Nothing changes but the node, along an edge that does nothing or a guard.
pub(crate) fn skip(
    alloc: Global,
    circuit: &Circuit,
    graph: &Graph,
    state: SymState,
    at: u32,
    edge: &Edge,
    answers: &[Word],
) -> Result<SymStep, AllocError>
    requires states { AreStates graph.now circuit.now state }
    requires cells { All (All (IsWire circuit.now)) state.store.cells }
    requires leaves { Leaves graph.now (state_in circuit.now state []) at edge.now }
    requires skips { (edge.now.operation ≡ operation.Skip) ⊎ ((test : Expression) × (truth : Bool) × (edge.now.operation ≡ operation.Guard test truth)) }
    ensures { IfOk result (λ t. IsOperated graph.now circuit.now circuit.now answers.now state at edge.now t) }
{
    graph.well_formed();
    let SymState {
        node: _from,
        frames,
        store,
        taken,
    } = state;
    one_way(alloc, at, Lit::YES, Lit::NO, frames, store, taken)
}

/// An array's cells are set to 0.
pub(crate) fn clear(
    alloc: Global,
    circuit: &Circuit,
    graph: &Graph,
    state: SymState,
    at: u32,
    edge: &Edge,
    array: ArrayPlace,
    count: u32,
    answers: &[Word],
) -> Result<SymStep, AllocError>
    requires states { AreStates graph.now circuit.now state }
    requires cells { All (All (IsWire circuit.now)) state.store.cells }
    requires leaves { Leaves graph.now (state_in circuit.now state []) at edge.now }
    requires clears { edge.now.operation ≡ operation.Clear array count }
    ensures { IfOk result (λ t. IsOperated graph.now circuit.now circuit.now answers.now state at edge.now t) }
{
    graph.well_formed();
    let SymState {
        node: _from,
        frames,
        store,
        taken,
    } = state;
    let first = array_start(array, running(&frames));
    let store = with_zeros(store, first, count as usize)?;
    one_way(alloc, at, Lit::YES, Lit::NO, frames, store, taken)
}

/// A value is put into a place.
pub(crate) fn assigned(
    alloc: Global,
    circuit: &mut Circuit,
    graph: &Graph,
    state: SymState,
    at: u32,
    edge: &Edge,
    place: &CellPlace,
    value: &Expr,
    answers: &[Word],
) -> Result<SymStep, Memory>
    requires states { AreStates graph.now circuit.old state }
    requires cells { All (All (IsWire circuit.old)) state.store.cells }
    requires leaves { Leaves graph.now (state_in circuit.old state []) at edge.now }
    requires assigns { edge.now.operation ≡ operation.Assign place.now value.now }
    requires room { length circuit.old + (31 * (place_weight place.now (kind_of value.now).width + weight_of value.now) + 2) ≤ 2 ^ 30 }
    ensures grows { Grows circuit.old circuit.new (31 * (place_weight place.now (kind_of value.now).width + weight_of value.now) + 2) }
    ensures step { IfOk result (λ t. IsOperated graph.now circuit.old circuit.new answers.now state at edge.now t) }
{
    graph.well_formed();
    let SymState {
        node: _from,
        frames,
        mut store,
        taken,
    } = state;
    let moves = assign(circuit, &mut store, place, value, running(&frames))?;
    let traps = inverse(circuit, moves)?;
    let step = one_way(alloc, at, moves, traps, frames, store, taken)?;
    Ok(step)
}

/// A test that is 0 ends the run: by a trap, or, of an assumption, without one.
pub(crate) fn tested(
    alloc: Global,
    circuit: &mut Circuit,
    graph: &Graph,
    state: SymState,
    at: u32,
    edge: &Edge,
    test: &Expr,
    is_assertion: bool,
    answers: &[Word],
) -> Result<SymStep, Memory>
    requires states { AreStates graph.now circuit.old state }
    requires cells { All (All (IsWire circuit.old)) state.store.cells }
    requires leaves { Leaves graph.now (state_in circuit.old state []) at edge.now }
    requires tests { edge.now.operation ≡ (if is_assertion then operation.Assert test.now else operation.Assume test.now) }
    requires room { length circuit.old + (31 * weight_of test.now + 66) ≤ 2 ^ 30 }
    ensures grows { Grows circuit.old circuit.new (31 * weight_of test.now + 66) }
    ensures step { IfOk result (λ t. IsOperated graph.now circuit.old circuit.new answers.now state at edge.now t) }
{
    graph.well_formed();
    let SymState {
        node: _from,
        frames,
        store,
        taken,
    } = state;
    let (truth, fine) = condition(circuit, test, &store, running(&frames))?;
    let moves = both(circuit, fine, truth)?;
    let goes_on = if is_assertion { moves } else { fine };
    let traps = inverse(circuit, goes_on)?;
    let step = one_way(alloc, at, moves, traps, frames, store, taken)?;
    Ok(step)
}

/// The word of an answer of a number, as a value of a kind: of 0 past the words.
fn answer_word(answers: &[Word], number: u64, kind: Kind) -> Word
    requires { IsKind kind }
    ensures wires { (gates : List Gate) → All (All (IsWire gates)) answers.now → All (IsWire gates) result }
    ensures value { (gates : List Gate) (w : World) → All (All (IsWire gates)) answers.now → word_value gates result w ≡ fitted kind (slice_index (cells_in gates answers.now w) number) }
{
    let mut word = constant(0);
    if let Ok(number) = usize::try_from(number) {
        if number < answers.len() {
            word = answers[number];
        }
    }
    extended(&word, kind)
}

/// The next answer of an input function is put into a place, where there is one.
pub(crate) fn answered(
    alloc: Global,
    circuit: &mut Circuit,
    graph: &Graph,
    state: SymState,
    at: u32,
    edge: &Edge,
    input: u32,
    function: &InputFunction,
    dest: &Option<CellPlace>,
    answers: &[Word],
) -> Result<SymStep, Memory>
    requires states { AreStates graph.now circuit.old state }
    requires cells { All (All (IsWire circuit.old)) state.store.cells }
    requires words { All (All (IsWire circuit.old)) answers.now }
    requires more { state.taken + 1 < 2 ^ 64 }
    requires leaves { Leaves graph.now (state_in circuit.old state []) at edge.now }
    requires takes { edge.now.operation ≡ operation.Answer input dest.now }
    requires function { slice_get graph.now.inputs input ≡ Some function.now }
    requires room { length circuit.old + (31 * dest_weight dest.now (Some function.now.result) + 1) ≤ 2 ^ 30 }
    ensures grows { Grows circuit.old circuit.new (31 * dest_weight dest.now (Some function.now.result) + 1) }
    ensures step { IfOk result (λ t. IsOperated graph.now circuit.old circuit.new answers.now state at edge.now t) }
{
    graph.well_formed();
    let SymState {
        node: _from,
        frames,
        mut store,
        taken,
    } = state;
    let kind = function.result;
    let word = answer_word(answers, taken, kind);
    let moves = put_to(circuit, &mut store, dest, running(&frames), &word, kind)?;
    let traps = inverse(circuit, moves)?;
    let step = one_way(alloc, at, moves, traps, frames, store, taken + 1)?;
    Ok(step)
}

/// The step after which nothing comes: the run has returned, or a call would make too many frames.
pub(crate) fn no_way(
    alloc: Global,
    returns: bool,
    frames: Vector<Frame>,
    store: SymStore,
    taken: u64,
) -> SymStep
    ensures { result ≡ record { ways = []; traps = no_lit; returns = returns; frames = frames; store = store; taken = taken } }
{
    SymStep {
        ways: Vector::new(alloc),
        traps: Lit::NO,
        returns,
        frames,
        store,
        taken,
    }
}

/// The places of the first cells of arrays in order.
fn starts_of(alloc: Global, arrays: &[ArrayPlace], frame: &Frame) -> Result<Vector<u32>, AllocError>
    requires { (k : ℕ) (array : Array) → slice_get arrays.now k ≡ Some array → array_start [] frame.now array < 2 ^ 32 }
    ensures { IfOk result (λ starts. (cells : List ℕ) → starts ≡ map (array_start cells frame.now) arrays.now) }
{
    let mut starts = Vector::new(alloc);
    for array in arrays {
        starts.push(array_start(*array, frame) as u32)?;
    }
    Ok(starts)
}

/// A frame is pushed, with the places of the arrays that it is lent and the words, or 64 stand.
pub(crate) fn called(
    alloc: Global,
    circuit: &mut Circuit,
    graph: &Graph,
    state: SymState,
    at: u32,
    edge: &Edge,
    callee: u32,
    words: &[Expr],
    arrays: &[ArrayPlace],
    function: &Function,
    answers: &[Word],
) -> Result<SymStep, Memory>
    requires states { AreStates graph.now circuit.old state }
    requires cells { All (All (IsWire circuit.old)) state.store.cells }
    requires leaves { Leaves graph.now (state_in circuit.old state []) at edge.now }
    requires calls { edge.now.operation ≡ operation.Call callee words.now arrays.now }
    requires function { slice_get graph.now.functions callee ≡ Some function.now }
    requires room { length circuit.old + (32 * sum_by weight_of words.now + 2) ≤ 2 ^ 30 }
    ensures grows { Grows circuit.old circuit.new (32 * sum_by weight_of words.now + 2) }
    ensures step { IfOk result (λ t. IsOperated graph.now circuit.old circuit.new answers.now state at edge.now t) }
{
    graph.well_formed();
    let SymState {
        node: _from,
        mut frames,
        store,
        taken,
    } = state;
    if frames.len() >= MOST_FRAMES {
        return Ok(no_way(alloc, false, frames, store, taken));
    }
    let starts = starts_of(alloc, arrays, running(&frames))?;
    let (values, fine) = translate_all(alloc, circuit, words, &store, running(&frames))?;
    let traps = inverse(circuit, fine)?;
    let base = store.cells.len() as u32;
    let store = with_frame(store, &values, function.cells)?;
    frames.push(Frame {
        call: Some(at),
        base,
        arrays: starts,
    })?;
    let step = one_way(alloc, at, fine, traps, frames, store, taken)?;
    Ok(step)
}

fn pair(alloc: Global, first: Way, second: Way) -> Result<Vector<Way>, AllocError>
    ensures { IfOk result (λ ways. ways ≡ first ∷ second ∷ []) }
{
    let mut ways = Vector::new(alloc);
    ways.push(first)?;
    ways.push(second)?;
    Ok(ways)
}

/// Of two guards of one test, that of truth first, the test's value picks one.
pub(crate) fn picked(
    alloc: Global,
    circuit: &mut Circuit,
    graph: &Graph,
    state: SymState,
    yes_at: u32,
    no_at: u32,
    test: &Expr,
    answers: &[Word],
) -> Result<SymStep, Memory>
    requires states { AreStates graph.now circuit.old state }
    requires cells { All (All (IsWire circuit.old)) state.store.cells }
    requires yes { IsSomeAnd (slice_get graph.now.edges yes_at) (λ e. Leaves graph.now (state_in circuit.old state []) yes_at e × (e.operation ≡ operation.Guard test.now true)) }
    requires no { IsSomeAnd (slice_get graph.now.edges no_at) (λ e. Leaves graph.now (state_in circuit.old state []) no_at e × (e.operation ≡ operation.Guard test.now false)) }
    requires room { length circuit.old + (31 * weight_of test.now + 68) ≤ 2 ^ 30 }
    ensures grows { Grows circuit.old circuit.new (31 * weight_of test.now + 68) }
    ensures step { IfOk result (λ t. IsStep graph.now circuit.old circuit.new answers.now state (λ input x. picked graph.now input x yes_at no_at (slice_get graph.now.edges yes_at)) t) }
{
    graph.well_formed();
    let SymState {
        node: _from,
        frames,
        store,
        taken,
    } = state;
    let (truth, fine) = condition(circuit, test, &store, running(&frames))?;
    let yes = both(circuit, fine, truth)?;
    let falsehood = inverse(circuit, truth)?;
    let no = both(circuit, fine, falsehood)?;
    let traps = inverse(circuit, fine)?;
    let yes = Way {
        edge: yes_at,
        taken: yes,
    };
    let no = Way {
        edge: no_at,
        taken: no,
    };
    let ways = pair(alloc, yes, no)?;
    Ok(SymStep {
        ways,
        traps,
        returns: false,
        frames,
        store,
        taken,
    })
}
