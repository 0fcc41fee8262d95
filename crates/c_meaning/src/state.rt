// States of a graph, and their parts.
ghost use Rattle.std.specs.Prelude.{◌≡◌, ◌<◌, ◌≤◌, length, Some, slice_get};
ghost use Rattle.cfa.specs.States.{IsState, running_frame};
ghost use Rattle.c_meaning.specs.Places.{storage_of};
ghost use Rattle.c_meaning.specs.Steps.{function_at};
ghost use Rattle.c_meaning.specs.Storage.{HasRoom};

use crate::store::Store;
use cfa::{Edge, Frame, Function, Graph, InputFunction, State};

/// The edge of a number.
pub(crate) fn edge_of(graph: &Graph, at: u32) -> &Edge
    requires { at < length graph.now.edges }
    ensures { slice_get graph.now.edges at ≡ Some result.now }
{
    &graph.edges()[at as usize]
}

/// The defined function of a number.
pub(crate) fn function_of(graph: &Graph, at: u32) -> &Function
    requires { at < length graph.now.functions }
    ensures { slice_get graph.now.functions at ≡ Some result.now }
{
    &graph.functions()[at as usize]
}

/// The input function of a number.
pub(crate) fn input_function_of(graph: &Graph, at: u32) -> &InputFunction
    requires { at < length graph.now.inputs }
    ensures { slice_get graph.now.inputs at ≡ Some result.now }
{
    &graph.inputs()[at as usize]
}

/// The function that a node belongs to.
pub(crate) fn owner_of(graph: &Graph, node: u32) -> &Function
    requires { node < length graph.now.nodes }
    ensures { function_at graph.now node ≡ Some result.now }
{
    graph.well_formed();
    let own = graph.nodes()[node as usize].function;
    &graph.functions()[own as usize]
}

/// The frame that runs.
pub(crate) fn running_frame(state: &State) -> &Frame
    requires { 1 ≤ length state.now.frames }
    ensures { result.now ≡ running_frame state.now }
{
    let last = state.frames.len() - 1;
    &state.frames[last]
}

fn storage_of<'a>(graph: &'a Graph, state: &'a State) -> Store<'a>
    requires { IsState graph.now state.now }
    ensures { result ≡ storage_of graph.now state.now }
{
    Store::new(
        &state.cells,
        running_frame(state),
        graph.globals().len(),
        owner_of(graph, state.node),
    )
}

/// What the expressions of a state are evaluated over.
pub(crate) fn store_of<'a>(graph: &'a Graph, state: &'a State) -> Store<'a>
    requires { IsState graph.now state.now }
    ensures store { result ≡ storage_of graph.now state.now }
    ensures room { HasRoom result }
{
    graph.well_formed();
    storage_of(graph, state)
}
