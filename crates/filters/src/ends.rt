// The ends of edges.
ghost use Rattle.std.specs.Prelude.{◌≡◌, ◌<◌, ◌&&◌, ◌||◌, ◌==◌, ℕ, length, IfOk};
ghost use Rattle.filters.specs.Parts.{is_marked, is_end, with_ends, marked, IsFull};

use crate::blocks::ends_at;
use crate::marks::{Marks, none_marked};
use cfa::Graph;
use fq_core::Memory;
use std::alloc::Global;

// Marks a number where it is among others.
fn mark_among(marks: &mut Vec<bool>, others: &[bool], at: u32)
    requires here { at < length marks.old.items }
    requires there { at < length others.now }
    ensures size { length marks.new.items ≡ length marks.old.items }
    ensures each { (n : ℕ) → is_marked marks.new.items n ≡ (is_marked marks.old.items n || (is_marked others.now n && (at == n))) }
{
    let at = at as usize;
    if others[at] {
        marks[at] = true;
    }
}

/// The ends of these edges that are among these nodes.
fn ends_of(
    alloc: Global,
    graph: &Graph,
    nodes: &[bool],
    edges: &[bool],
) -> Result<Vec<bool>, Memory>
    requires nodes { length nodes.now ≡ length graph.now.nodes }
    requires edges { length edges.now ≡ length graph.now.edges }
    ensures size { IfOk result (λ marks. length marks.items ≡ length nodes.now) }
    ensures each { IfOk result (λ marks. (n : ℕ) → is_marked marks.items n ≡ (is_marked nodes.now n && is_end graph.now (is_marked edges.now) n)) }
{
    let mut marks = none_marked(alloc, nodes.len())?;
    for (k, kept) in edges.iter().enumerate() {
        if *kept {
            let (source, target) = ends_at(graph, k);
            mark_among(&mut marks, nodes, source);
            mark_among(&mut marks, nodes, target);
        }
    }
    Ok(marks)
}

/// These edges, and their ends among these nodes.
#[tactic(auto, using(crate::proofs::PartsLaws::part_is))]
pub(crate) fn with_ends(
    alloc: Global,
    graph: &Graph,
    nodes: &[bool],
    edges: Vec<bool>,
) -> Result<Marks, Memory>
    requires nodes { length nodes.now ≡ length graph.now.nodes }
    requires edges { length edges.items ≡ length graph.now.edges }
    ensures full { IfOk result (λ m. IsFull graph.now m) }
    ensures kept { IfOk result (λ m. marked m ≡ with_ends graph.now (is_marked nodes.now) (is_marked edges.items)) }
{
    let nodes = ends_of(alloc, graph, nodes, &edges)?;
    Ok(Marks { nodes, edges })
}
