// What the runs of a function read of an input.
use c_values::Kind;
use cfa::{CellPlace, Edge, Expr, Graph, Operation};
use fq_core::Memory;
use std::alloc::Global;

/// Notes the parameters that a place reads: the one that it is of, or those of its index. A frame has a cell for the result, and
/// then those of the parameters.
#[cycle(reads)]
fn note_of_place(place: &CellPlace, read: &mut [bool]) {
    match place {
        CellPlace::Global(_) => {}
        CellPlace::Local(cell) => {
            let cell = *cell as usize;
            if 0 < cell && cell <= read.len() {
                read[cell - 1] = true;
            }
        }
        CellPlace::Element { index, .. } => note_of(index, read),
    }
}

/// Notes the parameters that an expression reads.
#[cycle(reads)]
fn note_of(expr: &Expr, read: &mut [bool]) {
    match expr {
        Expr::Constant(_, _) => {}
        Expr::Load(place, _) => note_of_place(place, read),
        Expr::Convert(operand, _) | Expr::Unary(_, operand, _) => note_of(operand, read),
        Expr::Binary(_, left, right, _) => {
            note_of(left, read);
            note_of(right, read);
        }
    }
}

/// Notes the parameters that an edge reads.
fn note_of_edge(edge: &Edge, read: &mut [bool]) {
    match &edge.operation {
        Operation::Assign { place, value } => {
            if let CellPlace::Element { index, .. } = place {
                note_of(index, read);
            }
            note_of(value, read);
        }
        Operation::Guard { test, .. } => note_of(test, read),
        Operation::Call { words, .. } => {
            for word in words.as_slice() {
                note_of(word, read);
            }
        }
        Operation::Assert(test) | Operation::Assume(test) => note_of(test, read),
        _ => {}
    }
}

/// By parameter, whether an edge of a function reads it.
pub(crate) fn parameters_read(
    alloc: Global,
    graph: &Graph,
    function: u32,
) -> Result<Vec<bool>, Memory> {
    let count = match graph.functions().get(function as usize) {
        Some(own) => own.parameters.len(),
        None => 0,
    };
    let mut read = vec![in alloc; false; count]?;
    for edge in graph.edges() {
        if edge.function == function {
            note_of_edge(edge, &mut read);
        }
    }
    Ok(read)
}

/// The most answers that a run reads: as many as there are edges that read one, where no edge can be taken twice, and else any
/// number, or none where no edge reads one.
pub(crate) fn most_answers(graph: &Graph) -> u32 {
    let mut count: u32 = 0;
    let mut can_repeat = false;
    for edge in graph.edges() {
        match &edge.operation {
            Operation::Answer { .. } => count = count.saturating_add(1),
            Operation::Call { .. } => can_repeat = true,
            _ => {}
        }
        if edge.back {
            can_repeat = true;
        }
    }
    if can_repeat && count > 0 {
        return u32::MAX;
    }
    count
}

/// The kinds of the input functions, in order.
pub(crate) fn asked_kinds(alloc: Global, graph: &Graph) -> Result<Vec<Kind>, Memory> {
    let mut kinds = Vec::new(alloc);
    for asked in graph.inputs() {
        kinds.push(asked.result)?;
    }
    Ok(kinds)
}
