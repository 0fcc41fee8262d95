// The symbolic state in which runs begin.
ghost use Rattle.std.specs.Prelude.{◌≡◌, ◌<◌, ◌^◌, [], All, IfOk, List, length, slice_get};
ghost use Rattle.std.specs.Option.{IsSomeAnd};
ghost use Rattle.circuit.specs.Truth.{World};
ghost use Rattle.circuit.specs.Wires.{IsWire};
ghost use Rattle.circuit.specs.declared.lit.Gate.{Gate};
ghost use Rattle.c_meaning.specs.declared.input.Input.{Input as GivenInput};
ghost use Rattle.c_meaning.specs.Starts.{first_globals, fitted_words, start_of};
ghost use Rattle.sym_expr.specs.Stores.{cells_in};
ghost use Rattle.sym_expr.specs.sym_steps.Starts.{CanStartWith};
ghost use Rattle.sym_expr.specs.sym_steps.Steps.{AreStates, state_in};

use crate::SymStore;
use crate::sym_steps::cells::with_frame;
use crate::sym_steps::state::SymState;
use crate::sym_steps::stepping::function_of;
use bit_words::{Word, constant};
use cfa::{Frame, Graph};
use circuit::Memory;
use containers::Vector;
use containers::shared_tables::Table;
use std::alloc::{AllocError, Global};

/// The words of values, the same in all worlds.
fn constants(alloc: Global, values: &[u64]) -> Result<Table<Word>, AllocError>
    ensures cells { IfOk result (λ words. (gates : List Gate) (w : World) → cells_in gates words w ≡ values.now) }
    ensures wires { IfOk result (λ words. (gates : List Gate) → All (All (IsWire gates)) words) }
{
    let mut words = Table::new(alloc);
    for value in values {
        words.push(constant(*value))?;
    }
    Ok(words)
}

/// The first values of the globals.
fn first_values(alloc: Global, graph: &Graph) -> Result<Vec<u64>, AllocError>
    ensures { IfOk result (λ values. values.items ≡ first_globals graph.now) }
{
    graph.globals().iter().map(|global| global.1).collect(alloc)
}

/// The symbolic state in which runs of a function begin: at its entry, with one frame whose parameters hold these words, and
/// the globals at their first values.
///
/// In a world in which the words are an input's, each as a value of its parameter's kind, it is the state in which the run
/// of that input begins.
///
/// # Errors
///
/// Want of memory alone.
pub fn start(alloc: Global, graph: &Graph, entry: u32, words: &[Word]) -> Result<SymState, Memory>
    requires { IsSomeAnd (slice_get graph.now.functions entry) (λ f. CanStartWith f words.now) }
    ensures states { IfOk result (λ s. (gates : List Gate) → AreStates graph.now gates s) }
    ensures wires { IfOk result (λ s. (gates : List Gate) → All (All (IsWire gates)) words.now → All (All (IsWire gates)) s.store.cells) }
    ensures start { IfOk result (λ s. IsSomeAnd (slice_get graph.now.functions entry) (λ f. (gates : List Gate) (w : World) (input : GivenInput) → cells_in gates words.now w ≡ fitted_words input.words f.parameters → state_in gates s w ≡ start_of graph.now f input.words)) }
{
    graph.well_formed();
    let function = function_of(graph, entry);
    let globals = constants(alloc, &first_values(alloc, graph)?)?;
    let base = graph.globals().len() as u32;
    let store = with_frame(SymStore { cells: globals }, words, function.cells)?;
    let mut frames = Vector::new(alloc);
    frames.push(Frame {
        call: None,
        base,
        arrays: Vector::new(alloc),
    })?;
    Ok(SymState {
        node: function.entry,
        frames,
        store,
        taken: 0,
    })
}
