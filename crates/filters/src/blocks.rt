// Where basic blocks begin.
ghost use Rattle.std.specs.Prelude.{◌≡◌, ◌<◌, ℕ, length, slice_get, slice_index_or, ◌==◌, IfOk};
ghost use Rattle.std.specs.List.{filter};
ghost use Rattle.std.specs.Option.{IsSomeAnd};
ghost use Rattle.filters.specs.Incoming.{incoming_of, with_source, begins_by, SourceBelow};
ghost use Rattle.filters.specs.Parts.{is_marked};
ghost use Rattle.filters.specs.Properties.{is_entry, begins_block};

use cfa::{Graph, Node};
use fq_core::Memory;
use std::alloc::Global;

/// The edges that lead into a node, as far as they tell whether a basic block begins there.
#[derive(Clone, Copy, Debug, PartialEq, Eq)]
pub(crate) enum Incoming {
    Nothing,
    /// One edge, which leaves this node.
    One(u32),
    Several,
}

impl Incoming {
    fn with_source(self, source: u32) -> Incoming
        ensures { result ≡ with_source self source }
    {
        match self {
            Incoming::Nothing => Incoming::One(source),
            Incoming::One(_) | Incoming::Several => Incoming::Several,
        }
    }
}

/// The two ends of an edge.
pub(crate) fn ends_at(graph: &Graph, edge: usize) -> (u32, u32)
    requires { edge < length graph.now.edges }
    ensures ends { IsSomeAnd (slice_get graph.now.edges edge) (λ e. (e.source ≡ result.0) × (e.target ≡ result.1)) }
    ensures source { result.0 < length graph.now.nodes }
    ensures target { result.1 < length graph.now.nodes }
{
    graph.well_formed();
    let edge = &graph.edges()[edge];
    (edge.source, edge.target)
}

fn no_edges(alloc: Global, count: usize) -> Result<Vec<Incoming>, Memory>
    ensures size { IfOk result (λ table. length table.items ≡ count) }
    ensures each { IfOk result (λ table. (n : ℕ) → slice_index_or table.items n Incoming.Nothing ≡ Incoming.Nothing) }
{
    let mut table = Vec::new(alloc);
    for _ in 0..count {
        table.push(Incoming::Nothing)?;
    }
    Ok(table)
}

/// By node, the edges that lead into it.
fn incoming_table(alloc: Global, graph: &Graph) -> Result<Vec<Incoming>, Memory>
    ensures size { IfOk result (λ table. length table.items ≡ length graph.now.nodes) }
    ensures below { IfOk result (λ table. (n : ℕ) → SourceBelow (length graph.now.nodes) (slice_index_or table.items n Incoming.Nothing)) }
    ensures each { IfOk result (λ table. (n : ℕ) → n < length graph.now.nodes → slice_index_or table.items n Incoming.Nothing ≡ incoming_of (filter (λ e. e.target == n) graph.now.edges)) }
{
    let mut table = no_edges(alloc, graph.nodes().len())?;
    for edge in 0..graph.edges().len() {
        let (source, target) = ends_at(graph, edge);
        let at = target as usize;
        table[at] = table[at].with_source(source);
    }
    Ok(table)
}

fn begins_by(graph: &Graph, incoming: Incoming) -> bool
    requires { SourceBelow (length graph.now.nodes) incoming }
    ensures { result ≡ begins_by graph.now incoming }
{
    match incoming {
        Incoming::One(source) => graph.outgoing(source).len() > 1,
        Incoming::Nothing | Incoming::Several => true,
    }
}

fn is_entry(graph: &Graph, number: u32, node: &Node) -> bool
    ensures { result ≡ is_entry graph.now number node.now }
{
    match graph.functions().get(node.function as usize) {
        None => false,
        Some(function) => function.entry == number,
    }
}

fn begins_at(graph: &Graph, table: &[Incoming], number: u32) -> bool
    requires size { length table.now ≡ length graph.now.nodes }
    requires below { (n : ℕ) → SourceBelow (length graph.now.nodes) (slice_index_or table.now n Incoming.Nothing) }
    requires each { (n : ℕ) → n < length graph.now.nodes → slice_index_or table.now n Incoming.Nothing ≡ incoming_of (filter (λ e. e.target == n) graph.now.edges) }
    ensures { result ≡ begins_block graph.now number }
{
    match graph.nodes().get(number as usize) {
        None => false,
        Some(node) => { is_entry(graph, number, node) || begins_by(graph, table[number as usize]) }
    }
}

/// By node, whether a basic block begins there.
#[tactic(auto, using(crate::proofs::MarksLaws::each_more, crate::proofs::BlocksLaws::blocks_are))]
pub(crate) fn block_entries(alloc: Global, graph: &Graph) -> Result<Vec<bool>, Memory>
    ensures { IfOk result (λ begins. is_marked begins.items ≡ begins_block graph.now) }
{
    if graph.nodes().len() > u32::MAX as usize {
        return Err(Memory);
    }
    let table = incoming_table(alloc, graph)?;
    let mut begins = Vec::new(alloc);
    for number in 0..graph.nodes().len() {
        begins.push(begins_at(graph, &table, number as u32))?;
    }
    Ok(begins)
}
