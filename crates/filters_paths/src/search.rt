// Searches for a way to the end of a path.
ghost use Rattle.std.specs.Prelude.{◌≡◌, ◌<◌, ◌-◌, ◌^◌, ℕ, Bool, List, All, Contains, IfOk, IsTrue, OnOk, false, true, length, slice_index};
ghost use Rattle.cfa.specs.Table.{outgoing_of};
ghost use Rattle.filters_paths.specs.Searching.{is_way, IsSearch, is_dead, IsBelow, is_past, IsSearching, KeepsPast, KeepsMarks, IsReopened, IsSealed, HaveTables};

use crate::edge_ends::target_of;
use cfa::Graph;
use fq_core::Memory;
use std::alloc::Global;

/// The memory of searches, of which each begins where the one before left it.
///
/// A search that finds no end leaves a layer: the nodes that it met are dead from then on, since all edges with uses left
/// that leave them lead to one another or to nodes of earlier layers. Later searches pass by dead nodes. Where an edge may
/// be taken once more, the layer of its source and the later ones are given up, unless it leads to a dead node too.
#[derive(Drop)]
pub(crate) struct Search {
    /// By node, the number of the search that met it last.
    pub(crate) met: Vec<u64>,
    /// By node, how many layers there were when it was met last.
    pub(crate) levels: Vec<usize>,
    /// The numbers of the searches whose nodes are dead.
    pub(crate) layers: Vec<u64>,
    /// The number of the search, from 1.
    pub(crate) round: u64,
    /// The edges that wait to be followed, the next one last.
    pub(crate) waiting: Vec<u32>,
    /// By node that the search has met, the edge by which it came there.
    pub(crate) via: Vec<u32>,
    /// The way that was found last, its first edge last.
    pub(crate) route: Vec<u32>,
}

// The edges that leave a node and may still be taken wait too, the first of them last.
fn wait(waiting: &mut Vec<u32>, graph: &Graph, left: &[u32], node: u32) -> Result<(), Memory>
    requires node { node < length graph.now.nodes }
    requires left { length left.now ≡ length graph.now.edges }
    requires waiting { All (λ k. k < length graph.now.edges) waiting.old.items }
    ensures waiting { OnOk result (All (λ k. k < length graph.now.edges) waiting.new.items) }
    ensures kept { OnOk result ((k : ℕ) → Contains waiting.old.items k → Contains waiting.new.items k) }
    ensures more { OnOk result ((k : ℕ) → Contains (outgoing_of graph.now node) k → 0 < slice_index left.now k → Contains waiting.new.items k) }
{
    let row = graph.outgoing(node);
    for taken in 0..row.len() {
        let edge = row[row.len() - 1 - taken];
        if left[edge as usize] > 0 {
            waiting.push(edge)?;
        }
    }
    Ok(())
}

impl Search {
    pub(crate) fn new(alloc: Global, graph: &Graph) -> Result<Search, Memory>
        ensures { IfOk result (λ s. (ends : List Bool) → (left : List ℕ) → IsSearch graph.now ends left s) }
    {
        let met = vec![in alloc; 0; graph.nodes().len()]?;
        let levels = vec![in alloc; 0; graph.nodes().len()]?;
        let via = vec![in alloc; 0; graph.nodes().len()]?;
        Ok(Search {
            met,
            levels,
            layers: Vec::new(alloc),
            round: 0,
            waiting: Vec::new(alloc),
            via,
            route: Vec::new(alloc),
        })
    }

    // Whether the way that was found last goes on by this edge, which is taken off it then.
    fn goes_on_by(&mut self, edge: u32) -> bool
        ensures { KeepsMarks self.old self.new }
    {
        if self.route.last() == Some(&edge) {
            let _edge = self.route.pop();
            return true;
        }
        false
    }

    /// Forgets the way that was found last.
    pub(crate) fn forget_route(&mut self)
        ensures { KeepsMarks self.old self.new }
    {
        self.route.clear();
    }

    // Whether a search that found no end met a node, and its layer is still there.
    fn is_dead(&self, node: u32) -> bool
        requires met { node < length self.now.met.items }
        requires levels { node < length self.now.levels.items }
        ensures { result ≡ is_dead self.now node }
    {
        let level = self.levels[node as usize];
        level < self.layers.len() && self.layers[level] == self.met[node as usize]
    }

    // Whether the search needn't go to a node: it has met it, or it is dead.
    fn is_past(&self, node: u32) -> bool
        requires met { node < length self.now.met.items }
        requires levels { node < length self.now.levels.items }
        ensures { result ≡ is_past self.now node }
    {
        self.met[node as usize] == self.round || self.is_dead(node)
    }

    // Whether a node is dead in the layer of another one or in an earlier one.
    fn is_below(&self, node: u32, other: u32) -> bool
        requires node { node < length self.now.levels.items }
        requires met { other < length self.now.met.items }
        requires levels { other < length self.now.levels.items }
        ensures { IsTrue result → IsBelow self.now node other }
    {
        self.is_dead(other) && self.levels[other as usize] <= self.levels[node as usize]
    }

    /// An edge from one node to another may be taken once more. What is dead for want of it isn't from now on.
    pub(crate) fn reopen(&mut self, source: u32, target: u32)
        requires met { (source < length self.old.met.items) × (target < length self.old.met.items) }
        requires levels { length self.old.levels.items ≡ length self.old.met.items }
        ensures { IsReopened self.old source target self.new }
    {
        if self.is_dead(source) && !self.is_below(source, target) {
            let level = self.levels[source as usize];
            self.layers.truncate(level);
        }
    }

    // The nodes that the search met are a layer from now on.
    fn seal(&mut self) -> Result<(), Memory>
        ensures { OnOk result (IsSealed self.old self.new) }
    {
        let round = self.round;
        self.layers.push(round)?;
        Ok(())
    }

    // An edge is followed to a node. The edge is kept with it, if the node wasn't met yet.
    fn come_by(&mut self, node: u32, edge: u32)
        ensures marks { KeepsMarks self.old self.new }
        ensures waiting { self.new.waiting ≡ self.old.waiting }
    {
        let at = node as usize;
        let met = self.met.get(at).copied() == Some(self.round);
        if let Some(via) = self.via.get_mut(at) {
            if !met {
                *via = edge;
            }
        }
    }

    // Keeps the way from a node that ends by an edge.
    fn keep_route(&mut self, graph: &Graph, from: u32, last: u32) -> Result<(), Memory>
        ensures { OnOk result (KeepsMarks self.old self.new) }
    {
        self.route.clear();
        let mut edge = last;
        for _ in 0..graph.edges().len() {
            self.route.push(edge)?;
            let Some(source) = graph.edges().get(edge as usize).map(|edge| edge.source) else {
                return Ok(());
            };
            if source == from {
                return Ok(());
            }
            match self.via.get(source as usize) {
                None => return Ok(()),
                Some(before) => edge = *before,
            }
        }
        Ok(())
    }

    // Whether a node is an end. If it isn't, it is met, and its edges wait, unless it was met before or is dead.
    fn arrive(
        &mut self,
        graph: &Graph,
        ends: &[bool],
        left: &[u32],
        node: u32,
    ) -> Result<bool, Memory>
        requires node { node < length graph.now.nodes }
        requires tables { HaveTables graph.now ends.now left.now }
        requires open { IsSearching graph.now ends.now left.now (λ n. n ≡ node) self.old }
        ensures search { OnOk result (IsSearch graph.now ends.now left.now self.new) }
        ensures kept { OnOk result (KeepsPast self.old self.new) }
        ensures inner { IfOk result (λ at_end. at_end ≡ false → IsSearching graph.now ends.now left.now (λ n. ⊥) self.new × (is_past self.new node ≡ true)) }
    {
        let at = node as usize;
        if self.is_past(node) {
            return Ok(false);
        }
        if ends[at] {
            return Ok(true);
        }
        self.met[at] = self.round;
        self.levels[at] = self.layers.len();
        wait(&mut self.waiting, graph, left, node)?;
        Ok(false)
    }

    /// Whether a way may lead from the node to which an edge leads, by edges with uses left, to an end. `false` says that
    /// none does.
    pub(crate) fn reaches_end(
        &mut self,
        graph: &Graph,
        ends: &[bool],
        left: &[u32],
        by: u32,
        from: u32,
    ) -> Result<bool, Memory>
        requires node { from < length graph.now.nodes }
        requires tables { HaveTables graph.now ends.now left.now }
        requires search { IsSearch graph.now ends.now left.now self.old }
        ensures search { OnOk result (IsSearch graph.now ends.now left.now self.new) }
        ensures none { IfOk result (λ found. found ≡ false → (way : _) → is_way graph.now ends.now left.now from way ≡ false) }
    {
        if self.goes_on_by(by) || self.round == u64::MAX {
            return Ok(true);
        }
        if self.is_dead(from) {
            return Ok(false);
        }
        self.finds_end(graph, ends, left, from)
    }

    // Goes along edges with uses left from a node, until an end is found or none is left. The way there is kept.
    fn finds_end(
        &mut self,
        graph: &Graph,
        ends: &[bool],
        left: &[u32],
        from: u32,
    ) -> Result<bool, Memory>
        requires node { from < length graph.now.nodes }
        requires tables { HaveTables graph.now ends.now left.now }
        requires search { IsSearch graph.now ends.now left.now self.old }
        requires more { self.old.round < 2 ^ 64 - 1 }
        ensures search { OnOk result (IsSearch graph.now ends.now left.now self.new) }
        ensures none { IfOk result (λ found. found ≡ false → (way : _) → is_way graph.now ends.now left.now from way ≡ false) }
    {
        self.round += 1;
        self.waiting.clear();
        if self.arrive(graph, ends, left, from)? {
            return Ok(true);
        }
        for _ in 0..u64::MAX {
            match self.waiting.pop() {
                None => {
                    self.seal()?;
                    return Ok(false);
                }
                Some(edge) => {
                    let node = target_of(graph, edge);
                    self.come_by(node, edge);
                    if self.arrive(graph, ends, left, node)? {
                        self.keep_route(graph, from, edge)?;
                        return Ok(true);
                    }
                }
            }
        }
        Ok(true)
    }
}
