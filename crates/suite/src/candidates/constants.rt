// The constants of a graph.
use cfa::{CellPlace, Edge, Expr, Graph, Operation};
use fq_core::Memory;
use std::alloc::Global;

/// How many constants are looked at.
const MOST: usize = 64;

/// Adds a constant that isn't there, unless there are many.
fn add(constants: &mut Vec<u64>, value: u64) -> Result<(), Memory> {
    if constants.len() < MOST && !constants.contains(&value) {
        constants.push(value)?;
    }
    Ok(())
}

/// Adds the constants of a place.
#[cycle(constants)]
fn add_of_place(place: &CellPlace, constants: &mut Vec<u64>) -> Result<(), Memory> {
    match place {
        CellPlace::Global(_) | CellPlace::Local(_) => Ok(()),
        CellPlace::Element { index, .. } => add_of(index, constants),
    }
}

/// Adds the constants of an expression, from left to right.
#[cycle(constants)]
fn add_of(expr: &Expr, constants: &mut Vec<u64>) -> Result<(), Memory> {
    match expr {
        Expr::Constant(value, _) => add(constants, *value),
        Expr::Load(place, _) => add_of_place(place, constants),
        Expr::Convert(operand, _) | Expr::Unary(_, operand, _) => add_of(operand, constants),
        Expr::Binary(_, left, right, _) => {
            add_of(left, constants)?;
            add_of(right, constants)
        }
    }
}

/// Adds the constants of some expressions.
fn add_of_all(exprs: &[Expr], constants: &mut Vec<u64>) -> Result<(), Memory> {
    for expr in exprs {
        add_of(expr, constants)?;
    }
    Ok(())
}

/// Adds the constants of an edge.
fn add_of_edge(edge: &Edge, constants: &mut Vec<u64>) -> Result<(), Memory> {
    match &edge.operation {
        Operation::Assign { value, .. } => add_of(value, constants),
        Operation::Guard { test, .. } => add_of(test, constants),
        Operation::Call { words, .. } => add_of_all(words.as_slice(), constants),
        Operation::Assert(test) | Operation::Assume(test) => add_of(test, constants),
        _ => Ok(()),
    }
}

/// Adds the constants of the edges of a function, or of those of the others.
fn add_of_function(
    graph: &Graph,
    function: u32,
    is_own: bool,
    constants: &mut Vec<u64>,
) -> Result<(), Memory> {
    for edge in graph.edges() {
        if (edge.function == function) == is_own {
            add_of_edge(edge, constants)?;
        }
    }
    Ok(())
}

/// The first constants of a graph: those of a function, then those of the others, in the order of the edges and each once.
pub(crate) fn constants_of(
    alloc: Global,
    graph: &Graph,
    function: u32,
) -> Result<Vec<u64>, Memory> {
    let mut constants = Vec::new(alloc);
    add_of_function(graph, function, true, &mut constants)?;
    add_of_function(graph, function, false, &mut constants)?;
    Ok(constants)
}
