// The state in which a run begins.
ghost use Rattle.std.specs.Prelude.{◌≡◌, length, IsTrue, IfOk, slice_get};
ghost use Rattle.std.specs.List.{list_all};
ghost use Rattle.std.specs.Option.{IsSomeAnd};
ghost use Rattle.c_values.specs.Kind.{is_kind};
ghost use Rattle.cfa.specs.States.{IsState};
ghost use Rattle.c_meaning.specs.Starts.{CanStart, first_globals, fitted_words, start_of};

use crate::cells::push_frame;
use crate::evaluate::fitted;
use crate::input::Input;
use crate::state::function_of;
use c_values::Kind;
use cfa::{Frame, Function, Graph, State};
use containers::Vector;
use fq_core::Memory;
use std::alloc::{AllocError, Global};

// The first values of the globals.
fn global_cells(alloc: Global, graph: &Graph) -> Result<Vector<u64>, AllocError>
    ensures { IfOk result (λ cells. cells ≡ first_globals graph.now) }
{
    let values = graph.globals().iter().map(|global| global.1);
    Ok(Vector::from_vec(values.collect(alloc)?))
}

// Each word as a value of its parameter's kind.
fn fitted_to(alloc: Global, words: &[u64], kinds: &[Kind]) -> Result<Vector<u64>, AllocError>
    requires kinds { IsTrue (list_all is_kind kinds.now) }
    requires same { length words.now ≡ length kinds.now }
    ensures { IfOk result (λ values. values ≡ fitted_words words.now kinds.now) }
{
    let mut values = Vector::new(alloc);
    for (at, word) in words.iter().enumerate() {
        values.push(fitted(*word, kinds[at]))?;
    }
    Ok(values)
}

// The state at a function's entry with the input's words.
fn first_state(
    alloc: Global,
    graph: &Graph,
    function: &Function,
    words: &[u64],
) -> Result<State, AllocError>
    requires kinds { IsTrue (list_all is_kind function.now.parameters) }
    requires words { length words.now ≡ length function.now.parameters }
    ensures { IfOk result (λ state. state ≡ start_of graph.now function.now words.now) }
{
    graph.well_formed();
    let values = fitted_to(alloc, words, &function.parameters)?;
    let mut cells = global_cells(alloc, graph)?;
    push_frame(&mut cells, &values, function.cells)?;
    let base = graph.globals().len() as u32;
    let mut frames = Vector::new(alloc);
    frames.push(Frame {
        call: None,
        base,
        arrays: Vector::new(alloc),
    })?;
    Ok(State {
        node: function.entry,
        frames,
        cells,
        taken: 0,
    })
}

/// The state in which a run of a function begins: at its entry, with one frame whose parameters hold the input's words,
/// each as a value of its parameter's kind, and the globals at their first values.
///
/// # Errors
///
/// Want of memory alone.
pub fn start(alloc: Global, graph: &Graph, entry: u32, input: &Input) -> Result<State, Memory>
    requires { IsSomeAnd (slice_get graph.now.functions entry) (λ f. CanStart f input.now.words) }
    // It is what the rules of steps say.
    ensures start { IfOk result (λ state. IsSomeAnd (slice_get graph.now.functions entry) (λ f. state ≡ start_of graph.now f input.now.words)) }
    // It is a state of the graph.
    ensures kept { IfOk result (λ state. IsState graph.now state) }
{
    graph.well_formed();
    let function = function_of(graph, entry);
    let state = first_state(alloc, graph, function, &input.words)?;
    Ok(state)
}
