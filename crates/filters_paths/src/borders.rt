// Where paths begin and end.
ghost use Rattle.std.specs.Prelude.{◌≡◌, ◌<◌, ◌^◌, ◌&&◌, ◌||◌, ◌==◌, ℕ, length, slice_get, IfOk, false, not};
ghost use Rattle.std.specs.List.{list_any};
ghost use Rattle.std.specs.Option.{IsSomeAnd};
ghost use Rattle.filters.specs.Parts.{is_marked, part_of};
ghost use Rattle.filters_paths.specs.Borders.{function_node, outside_node, is_border_node, is_border};
ghost use Rattle.filters_paths.specs.Paths.{some_edge_outside};

use crate::edge_ends::{source_of, target_of};
use cfa::Graph;
use filters::TargetGraph;
use fq_core::Memory;
use std::alloc::Global;

/// Where a path begins, or where it ends.
#[derive(Clone, Copy, Debug, PartialEq, Eq)]
pub(crate) enum Border {
    Start,
    End,
}

fn mark(marks: &mut Vec<bool>, node: u32)
    requires { node < length marks.old.items }
    ensures size { length marks.new.items ≡ length marks.old.items }
    ensures each { (n : ℕ) → is_marked marks.new.items n ≡ (is_marked marks.old.items n || (node == n)) }
{
    marks[node as usize] = true;
}

// The node of a function at which its paths begin or end.
fn function_node(graph: &Graph, border: Border, number: usize) -> u32
    requires { number < length graph.now.functions }
    ensures node { IsSomeAnd (slice_get graph.now.functions number) (λ f. function_node border f ≡ result) }
    ensures within { result < length graph.now.nodes }
{
    graph.well_formed();
    let function = &graph.functions()[number];
    match border {
        Border::Start => function.entry,
        Border::End => function.exit,
    }
}

// The node at which an edge from outside has paths begin or end.
fn outside_node(graph: &Graph, border: Border, edge: u32) -> u32
    requires { edge < length graph.now.edges }
    ensures node { IsSomeAnd (slice_get graph.now.edges edge) (λ e. outside_node border e ≡ result) }
    ensures within { result < length graph.now.nodes }
{
    match border {
        Border::Start => target_of(graph, edge),
        Border::End => source_of(graph, edge),
    }
}

fn function_nodes(alloc: Global, graph: &Graph, border: Border) -> Result<Vec<bool>, Memory>
    ensures size { IfOk result (λ marks. length marks.items ≡ length graph.now.nodes) }
    ensures each { IfOk result (λ marks. (n : ℕ) → is_marked marks.items n ≡ list_any (λ f. function_node border f == n) graph.now.functions) }
{
    let mut marks = vec![in alloc; false; graph.nodes().len()]?;
    for number in 0..graph.functions().len() {
        mark(&mut marks, function_node(graph, border, number));
    }
    Ok(marks)
}

// Marks also the nodes where edges come in or go out that aren't edges of the part.
fn mark_outside(marks: &mut Vec<bool>, graph: &Graph, target: &TargetGraph, border: Border)
    requires size { length marks.old.items ≡ length graph.now.nodes }
    requires few { length graph.now.edges < 2 ^ 32 }
    ensures size { length marks.new.items ≡ length graph.now.nodes }
    ensures each { (n : ℕ) → is_marked marks.new.items n ≡ (is_marked marks.old.items n || some_edge_outside graph.now (part_of target.now) (λ e. outside_node border e == n)) }
{
    for edge in 0..graph.edges().len() as u32 {
        if !target.has_edge(edge) {
            mark(marks, outside_node(graph, border, edge));
        }
    }
}

// Which of the nodes that are marked belong to the part.
fn nodes_in_part(alloc: Global, target: &TargetGraph, marks: &[bool]) -> Result<Vec<bool>, Memory>
    requires { length marks.now < 2 ^ 32 }
    ensures size { IfOk result (λ kept. length kept.items ≡ length marks.now) }
    ensures each { IfOk result (λ kept. (n : ℕ) → n < length marks.now → is_marked kept.items n ≡ ((part_of target.now).node n && is_marked marks.now n)) }
{
    let mut kept = Vec::new(alloc);
    for (n, mark) in marks.iter().enumerate() {
        kept.push(target.has_node(n as u32) && *mark)?;
    }
    Ok(kept)
}

/// By node, whether paths begin or end there.
pub(crate) fn border_nodes(
    alloc: Global,
    graph: &Graph,
    target: &TargetGraph,
    border: Border,
) -> Result<Vec<bool>, Memory>
    requires edges { length graph.now.edges < 2 ^ 32 }
    requires nodes { length graph.now.nodes < 2 ^ 32 }
    ensures size { IfOk result (λ marks. length marks.items ≡ length graph.now.nodes) }
    ensures each { IfOk result (λ marks. (n : ℕ) → n < length graph.now.nodes → is_marked marks.items n ≡ is_border_node graph.now (part_of target.now) border n) }
{
    let mut touched = function_nodes(alloc, graph, border)?;
    mark_outside(&mut touched, graph, target, border);
    let marks = nodes_in_part(alloc, target, &touched)?;
    Ok(marks)
}
