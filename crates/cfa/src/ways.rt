// The edges that leave each node.
ghost use Rattle.std.specs.Prelude.{◌≡◌, ◌↔◌, ◌<◌, ◌^◌, length, IsTrue, IfOk};
ghost use Rattle.cfa.specs.Each.{Each};
ghost use Rattle.cfa.specs.Graph.{EdgesFit, FunctionFits, IsExit, Continues, edges_from, is_guard};
ghost use Rattle.cfa.specs.Table.{outgoing_of, IsOutgoing, AreGuards, ContinuesAt};

use crate::parts::{GraphParts, Operation};
use crate::rest::is_exit;
use containers::{Same, Vector};
use std::alloc::{AllocError, Global};

// A row for each node, with the numbers of the edges that leave it.
pub(crate) fn outgoing_rows(
    alloc: Global,
    parts: &GraphParts,
) -> Result<Vec<Vector<u32>>, AllocError>
    requires counted { length parts.now.edges < 2 ^ 32 }
    requires edges { EdgesFit parts.now }
    ensures { IfOk result (λ rows. IsOutgoing parts.now rows.items) }
{
    let mut rows: Vec<Vector<u32>> = Vec::new(alloc);
    for _node in parts.nodes.iter() {
        rows.push(Vector::new(alloc))?;
    }
    for (i, edge) in parts.edges.iter().enumerate() {
        let row = &mut rows[edge.source as usize];
        row.push(i as u32)?;
    }
    Ok(rows)
}

fn is_guard(operation: &Operation) -> bool
    ensures { result ≡ is_guard operation.now }
{
    matches!(operation, Operation::Guard { .. })
}

fn are_guards(first: &Operation, second: &Operation) -> bool
    ensures { IsTrue result ↔ AreGuards first.now second.now }
{
    match (first, second) {
        (
            Operation::Guard { test, truth: true },
            Operation::Guard {
                test: other,
                truth: false,
            },
        ) => test.same(other),
        _ => false,
    }
}

fn continues_at(parts: &GraphParts, numbers: &[u32]) -> bool
    ensures { IsTrue result ↔ ContinuesAt parts.now numbers.now }
{
    match numbers {
        [only] => match parts.edges.get(*only as usize) {
            None => false,
            Some(edge) => !is_guard(&edge.operation),
        },
        [first, second] => match parts.edges.get(*first as usize) {
            None => false,
            Some(yes) => match parts.edges.get(*second as usize) {
                None => false,
                Some(no) => are_guards(&yes.operation, &no.operation),
            },
        },
        _ => false,
    }
}

fn goes_on(parts: &GraphParts, node: usize, numbers: &[u32]) -> bool
    requires functions { Each parts.now.functions (FunctionFits parts.now) }
    requires numbers { numbers.now ≡ outgoing_of parts.now node }
    ensures { IsTrue result ↔ (¬ IsExit parts.now node → Continues (edges_from parts.now node)) }
{
    is_exit(parts, node) || continues_at(parts, numbers)
}

pub(crate) fn ways_fit(parts: &GraphParts, rows: &[Vector<u32>]) -> bool
    requires functions { Each parts.now.functions (FunctionFits parts.now) }
    requires rows { IsOutgoing parts.now rows.now }
    ensures { IsTrue result ↔ Each parts.now.nodes (λ i n. ¬ IsExit parts.now i → Continues (edges_from parts.now i)) }
{
    for (i, _node) in parts.nodes.iter().enumerate() {
        if !goes_on(parts, i, &rows[i]) {
            return false;
        }
    }
    true
}
