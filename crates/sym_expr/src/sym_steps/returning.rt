// Going back out of a function.
ghost use Rattle.std.specs.Prelude.{◌≡◌, ◌+◌, ◌-◌, ◌*◌, ◌≤◌, ◌<◌, ◌^◌, [], All, IfOk, IsTrue, Some, length, slice_get, take, unwrap_or};
ghost use Rattle.circuit.specs.Wires.{IsWire};
ghost use Rattle.c_values.specs.Kind.{IsKind, int};
ghost use Rattle.cfa.specs.declared.parts.Operation.TheVariants as operation;
ghost use Rattle.cfa.specs.Graph.{result_kind_fits};
ghost use Rattle.bit_words.specs.Words.{Grows};
ghost use Rattle.c_meaning.specs.Steps.{function_at, next};
ghost use Rattle.sym_expr.specs.sym_steps.Steps.{AreStates, IsStep, running_of};
ghost use Rattle.sym_expr.specs.Weights.{dest_weight};

use crate::sym_steps::cells::{first_cells, word_at};
use crate::sym_steps::effects::put_to;
use crate::sym_steps::operations::one_way;
use crate::sym_steps::state::{SymState, SymStep, running};
use bit_words::Word;
use bit_words::gates::inverse;
use c_values::Kind;
use cfa::{CellPlace, Edge, Frame, Function, Graph};
use circuit::{Circuit, Memory};
use containers::Vector;
use std::alloc::Global;

/// All frames but the last.
fn frames_below(frames: Vector<Frame>) -> Vector<Frame>
    ensures { result ≡ take (length frames - 1) frames }
{
    let mut frames = frames.into_vec();
    frames.truncate(frames.len().saturating_sub(1));
    Vector::from_vec(frames)
}

/// The kind of a function's result, and int for void.
fn kind_given(function: &Function) -> Kind
    requires { IsTrue (result_kind_fits function.now.result) }
    ensures kind { result ≡ unwrap_or function.now.result int }
    ensures is_kind { IsKind result }
{
    match function.result {
        Some(kind) => kind,
        None => Kind::INT,
    }
}

/// The frame that runs is removed, and its result is put where the return edge's place is.
pub(crate) fn returned(
    alloc: Global,
    circuit: &mut Circuit,
    graph: &Graph,
    state: SymState,
    call: u32,
    at: u32,
    edge: &Edge,
    function: &Function,
    dest: &Option<CellPlace>,
    answers: &[Word],
) -> Result<SymStep, Memory>
    requires states { AreStates graph.now circuit.old state }
    requires cells { All (All (IsWire circuit.old)) state.store.cells }
    requires many { length state.frames ≡ 1 → ⊥ }
    requires from { (running_of state.frames).call ≡ Some call }
    requires follows { at ≡ call + 1 }
    requires edge { slice_get graph.now.edges at ≡ Some edge.now }
    requires gives { edge.now.operation ≡ operation.Return call dest.now }
    requires own { function_at graph.now state.node ≡ Some function.now }
    requires exit { state.node ≡ function.now.exit }
    requires room { length circuit.old + (31 * dest_weight dest.now (Some (unwrap_or function.now.result int)) + 1) ≤ 2 ^ 30 }
    ensures grows { Grows circuit.old circuit.new (31 * dest_weight dest.now (Some (unwrap_or function.now.result int)) + 1) }
    ensures step { IfOk result (λ t. IsStep graph.now circuit.old circuit.new answers.now state (λ input x. next graph.now input x) t) }
{
    graph.well_formed();
    let SymState {
        node: _from,
        frames,
        store,
        taken,
    } = state;
    let base = running(&frames).base as usize;
    let word = word_at(&store, base);
    let mut store = first_cells(store, base);
    let frames = frames_below(frames);
    let kind = kind_given(function);
    let moves = put_to(circuit, &mut store, dest, running(&frames), &word, kind)?;
    let traps = inverse(circuit, moves)?;
    let step = one_way(alloc, at, moves, traps, frames, store, taken)?;
    Ok(step)
}
