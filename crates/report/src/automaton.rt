// The text of an automaton.
ghost use Rattle.std.specs.Prelude.{◌≡◌, ◌++◌, IfOk, OnOk};
ghost use Rattle.report.specs.GraphText.{edge_line, function_line, graph_text, input_line, node_line, numbered, sizes_line};

use crate::edges::{function_name, push_edge};
use crate::letters::push_place;
use crate::numbers::push_number;
use cfa::{Function, Graph, InputFunction, Node};
use fq_core::Memory;
use std::alloc::{AllocError, Global};

// The line with how many functions, input functions, nodes and edges there are.
fn push_sizes(text: &mut Vec<u8>, graph: &Graph) -> Result<(), AllocError>
    ensures { OnOk result (text.new.items ≡ text.old.items ++ sizes_line graph.now) }
{
    text.extend_from_slice(b"functions ")?;
    push_number(text, graph.functions().len())?;
    text.extend_from_slice(b" inputs ")?;
    push_number(text, graph.inputs().len())?;
    text.extend_from_slice(b" nodes ")?;
    push_number(text, graph.nodes().len())?;
    text.extend_from_slice(b" edges ")?;
    push_number(text, graph.edges().len())?;
    text.extend_from_slice(b"\n")?;
    Ok(())
}

fn push_function(text: &mut Vec<u8>, number: usize, function: &Function) -> Result<(), AllocError>
    ensures { OnOk result (text.new.items ≡ text.old.items ++ function_line number function.now) }
{
    text.extend_from_slice(b"function ")?;
    push_number(text, number)?;
    text.extend_from_slice(b" ")?;
    text.extend_from_slice(function.name.bytes())?;
    text.extend_from_slice(b" entry ")?;
    push_number(text, function.entry)?;
    text.extend_from_slice(b" exit ")?;
    push_number(text, function.exit)?;
    text.extend_from_slice(b"\n")?;
    Ok(())
}

fn push_functions(text: &mut Vec<u8>, functions: &[Function]) -> Result<(), AllocError>
    ensures { OnOk result (text.new.items ≡ text.old.items ++ numbered function_line 0 functions.now) }
{
    for number in 0..functions.len() {
        push_function(text, number, &functions[number])?;
    }
    Ok(())
}

fn push_input(text: &mut Vec<u8>, number: usize, function: &InputFunction) -> Result<(), AllocError>
    ensures { OnOk result (text.new.items ≡ text.old.items ++ input_line number function.now) }
{
    text.extend_from_slice(b"input ")?;
    push_number(text, number)?;
    text.extend_from_slice(b" ")?;
    text.extend_from_slice(function.name.bytes())?;
    text.extend_from_slice(b"\n")?;
    Ok(())
}

fn push_inputs(text: &mut Vec<u8>, inputs: &[InputFunction]) -> Result<(), AllocError>
    ensures { OnOk result (text.new.items ≡ text.old.items ++ numbered input_line 0 inputs.now) }
{
    for number in 0..inputs.len() {
        push_input(text, number, &inputs[number])?;
    }
    Ok(())
}

fn push_node(
    text: &mut Vec<u8>,
    graph: &Graph,
    number: usize,
    node: &Node,
) -> Result<(), AllocError>
    ensures { OnOk result (text.new.items ≡ text.old.items ++ node_line graph.now number node.now) }
{
    text.extend_from_slice(b"node ")?;
    push_number(text, number)?;
    text.extend_from_slice(b" ")?;
    text.extend_from_slice(function_name(graph.functions(), node.function))?;
    text.extend_from_slice(b" ")?;
    push_place(text, graph.files(), node.file, node.line)?;
    text.extend_from_slice(b" depth ")?;
    push_number(text, node.depth)?;
    text.extend_from_slice(b"\n")?;
    Ok(())
}

fn push_nodes(text: &mut Vec<u8>, graph: &Graph) -> Result<(), AllocError>
    ensures { OnOk result (text.new.items ≡ text.old.items ++ numbered (node_line graph.now) 0 graph.now.nodes) }
{
    let nodes = graph.nodes();
    for number in 0..nodes.len() {
        push_node(text, graph, number, &nodes[number])?;
    }
    Ok(())
}

fn push_edges(text: &mut Vec<u8>, graph: &Graph) -> Result<(), AllocError>
    ensures { OnOk result (text.new.items ≡ text.old.items ++ numbered (edge_line graph.now) 0 graph.now.edges) }
{
    let edges = graph.edges();
    for number in 0..edges.len() {
        push_edge(text, graph, number, &edges[number])?;
    }
    Ok(())
}

/// The automaton: how many functions, input functions, nodes and edges it has; each function with its name, entry and exit;
/// each input function with its name; each node with its function's name, its file and line, and how many loops it lies in;
/// and each edge with the nodes from and to which it leads, the file, line and column (in bytes, from 1) of its first byte,
/// the kind of its statement, what is done along it, and its marks. All of them are numbered from 0.
pub fn graph_text(alloc: Global, graph: &Graph) -> Result<Vec<u8>, Memory>
    ensures { IfOk result (λ text. text.items ≡ graph_text graph.now) }
{
    let mut text = Vec::new(alloc);
    push_sizes(&mut text, graph)?;
    push_functions(&mut text, graph.functions())?;
    push_inputs(&mut text, graph.inputs())?;
    push_nodes(&mut text, graph)?;
    push_edges(&mut text, graph)?;
    Ok(text)
}
