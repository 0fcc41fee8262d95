// The nodes from which edges of the part lead to the end of a path.
ghost use Rattle.std.specs.Prelude.{◌≡◌, ◌<◌, ◌^◌, ℕ, [], All, Contains, IfOk, OnOk, length, true};
ghost use Rattle.filters.specs.Parts.{is_marked, part_of};
ghost use Rattle.filters_paths.specs.Spreading.{AreIncoming, AreSpread};
ghost use Rattle.filters_paths.specs.Uses.{AreLiving};

use crate::edge_ends::{source_of, target_of};
use cfa::Graph;
use containers::Vector;
use filters::TargetGraph;
use fq_core::Memory;
use std::alloc::Global;

fn no_rows(alloc: Global, count: usize) -> Result<Vec<Vector<u32>>, Memory>
    ensures size { IfOk result (λ rows. length rows.items ≡ count) }
    ensures each { IfOk result (λ rows. All (λ row. row ≡ []) rows.items) }
{
    let mut rows: Vec<Vector<u32>> = Vec::new(alloc);
    for _ in 0..count {
        rows.push(Vector::new(alloc))?;
    }
    Ok(rows)
}

// By node, the edges of the part that lead to it.
fn incoming_rows(
    alloc: Global,
    graph: &Graph,
    target: &TargetGraph,
) -> Result<Vec<Vector<u32>>, Memory>
    requires { length graph.now.edges < 2 ^ 32 }
    ensures { IfOk result (λ rows. AreIncoming graph.now (part_of target.now) rows.items) }
{
    let mut rows = no_rows(alloc, graph.nodes().len())?;
    for edge in 0..graph.edges().len() as u32 {
        if target.has_edge(edge) {
            let node = target_of(graph, edge);
            let row = &mut rows[node as usize];
            row.push(edge)?;
        }
    }
    Ok(rows)
}

// The numbers that are marked.
fn marked_numbers(alloc: Global, marks: &[bool]) -> Result<Vec<u32>, Memory>
    requires { length marks.now < 2 ^ 32 }
    ensures within { IfOk result (λ numbers. All (λ n. n < length marks.now) numbers.items) }
    ensures each { IfOk result (λ numbers. (n : ℕ) → is_marked marks.now n ≡ true → Contains numbers.items n) }
{
    let mut numbers = Vec::new(alloc);
    for (n, mark) in marks.iter().enumerate() {
        if *mark {
            numbers.push(n as u32)?;
        }
    }
    Ok(numbers)
}

// Marks the nodes that these edges leave. Those that weren't marked before wait.
fn mark_sources(
    graph: &Graph,
    row: &[u32],
    marks: &mut Vec<bool>,
    waiting: &mut Vec<u32>,
) -> Result<(), Memory>
    requires row { All (λ k. k < length graph.now.edges) row.now }
    requires size { length marks.old.items ≡ length graph.now.nodes }
    requires waiting { All (λ n. n < length graph.now.nodes) waiting.old.items }
    ensures { OnOk result (AreSpread graph.now row.now marks.old.items waiting.old.items marks.new.items waiting.new.items) }
{
    for edge in row {
        let source = source_of(graph, *edge);
        if !marks[source as usize] {
            marks[source as usize] = true;
            waiting.push(source)?;
        }
    }
    Ok(())
}

/// By node, whether edges of the part lead from it to one of these ends.
pub(crate) fn living_nodes(
    alloc: Global,
    graph: &Graph,
    target: &TargetGraph,
    ends: &[bool],
) -> Result<Vec<bool>, Memory>
    requires edges { length graph.now.edges < 2 ^ 32 }
    requires nodes { length graph.now.nodes < 2 ^ 32 }
    requires ends { length ends.now ≡ length graph.now.nodes }
    ensures size { IfOk result (λ living. length living.items ≡ length graph.now.nodes) }
    ensures living { IfOk result (λ living. AreLiving graph.now (part_of target.now) ends.now living.items) }
{
    let rows = incoming_rows(alloc, graph, target)?;
    let mut marks = Vec::from_slice(alloc, ends)?;
    let mut waiting = marked_numbers(alloc, ends)?;
    for _ in 0..u64::MAX {
        match waiting.pop() {
            None => return Ok(marks),
            Some(node) => mark_sources(graph, &rows[node as usize], &mut marks, &mut waiting)?,
        }
    }
    Err(Memory)
}
