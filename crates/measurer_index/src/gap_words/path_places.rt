// Paths with the places of their edges and nodes, and where gaps begin.
ghost use Rattle.std.specs.Prelude.{◌≡◌, ◌≤◌, ◌<◌, ◌+◌, IfOk, [], length, slice_index, slice_index_or};
ghost use Rattle.patterns.specs.Paths.{IsPath};
ghost use Rattle.measurer_index.specs.occurrences.Places.{IsFirstOrNone};
ghost use Rattle.measurer_index.specs.gap_words.Parts.{AreAllBegins, AreBegins, IsBegin};
ghost use Rattle.measurer_index.specs.gap_words.Placed.{path_of};

use crate::gap_words::gap_sets::GapSets;
use crate::occurrences::Occurrences;
use containers::Vector;
use fq_core::Memory;
use patterns::NumberSet;
use std::alloc::Global;
use std::marker::Model;

/// A recorded path, borrowed, with tables of the places of its edges and nodes, and for each of the sets of edges that gaps
/// go over a table of where gaps begin. Contracts see it as a path beside the sets (`Placed`).
#[derive(Debug, Drop)]
pub struct PathPlaces<'a> {
    nodes: Occurrences<'a>,
    edges: Occurrences<'a>,
    masks: &'a [u64],
    sets: &'a GapSets,
    /// For each set and state the first state from which the set has all edges up to this one.
    begins: Vector<Vector<usize>>,
}

impl<'a> Model for PathPlaces<'a> {
    ghost use Rattle.patterns.specs.Paths.{IsPath};
    ghost use Rattle.measurer_index.specs.gap_words.Parts.{AreAllBegins};
    ghost use Rattle.measurer_index.specs.gap_words.Placed.{Placed};

    ghost Value = { Placed };

    ghost view = { λ it. record { nodes = it.nodes; edges = it.edges; masks = it.masks.now; sets = it.sets.now } };

    ghost invariant = { λ it. IsPath (record { nodes = it.nodes; edges = it.edges; masks = it.masks.now }) × AreAllBegins it.sets.now it.edges it.begins };
}

/// For each state of a path with these edges the first one from which the set has all edges up to it.
fn begins_of(alloc: Global, set: &NumberSet, edges: &[u32]) -> Result<Vector<usize>, Memory>
    ensures { IfOk result (λ begins. AreBegins set.now edges.now begins) }
{
    let mut begins = Vec::with_capacity(alloc, edges.len())?;
    let mut begin = 0usize;
    begins.push(begin)?;
    for (place, edge) in edges.iter().enumerate() {
        if !set.contains(*edge) {
            begin = place + 1;
        }
        begins.push(begin)?;
    }
    Ok(Vector::from_vec(begins))
}

/// The same for each of these sets.
fn all_begins(
    alloc: Global,
    sets: &[NumberSet],
    edges: &[u32],
) -> Result<Vector<Vector<usize>>, Memory>
    ensures { IfOk result (λ begins. AreAllBegins sets.now edges.now begins) }
{
    let mut all = Vector::new(alloc);
    for set in sets {
        all.push(begins_of(alloc, set, edges)?)?;
    }
    Ok(all)
}

impl<'a> PathPlaces<'a> {
    /// The path of these nodes, edges and masks, with its tables, for these sets of edges. There is one more node and mask
    /// than there are edges. It takes time and memory in proportion to the length of the path times one more than there are
    /// sets, and to the greatest of the numbers.
    ///
    /// # Errors
    ///
    /// Want of memory alone.
    pub fn new(
        alloc: Global,
        nodes: &'a [u32],
        edges: &'a [u32],
        masks: &'a [u64],
        sets: &'a GapSets,
    ) -> Result<PathPlaces<'a>, Memory>
        requires { IsPath (record { nodes = nodes.now; edges = edges.now; masks = masks.now }) }
        ensures { IfOk result (λ path. path ≡ record { nodes = nodes.now; edges = edges.now; masks = masks.now; sets = sets.now }) }
    {
        let begins = all_begins(alloc, sets.as_slice(), edges)?;
        let nodes = Occurrences::new(alloc, nodes)?;
        let edges = Occurrences::new(alloc, edges)?;
        Ok(PathPlaces {
            nodes,
            edges,
            masks,
            sets,
            begins,
        })
    }

    /// How many edges the path has.
    pub(crate) fn count(&self) -> usize
        ensures { result ≡ length self.now.edges }
    {
        self.edges.as_slice().len()
    }

    /// The edge out of a state, unless it is the last one.
    pub(crate) fn edge_at(&self, at: usize) -> u32
        requires { at < length self.now.edges }
        ensures { result ≡ slice_index self.now.edges at }
    {
        let edges = self.edges.as_slice();
        edges[at]
    }

    /// The node of a state.
    pub(crate) fn node_at(&self, at: usize) -> u32
        requires { at ≤ length self.now.edges }
        ensures { result ≡ slice_index self.now.nodes at }
    {
        let nodes = self.nodes.as_slice();
        nodes[at]
    }

    /// Which predicates hold at a state.
    pub(crate) fn mask_at(&self, at: usize) -> u64
        ensures { result ≡ slice_index self.now.masks at }
    {
        self.masks.get(at).copied().unwrap_or(0)
    }

    /// The first state from this one on out of which this edge goes.
    pub(crate) fn next_edge(&self, edge: u32, start: usize) -> Option<usize>
        ensures { IsFirstOrNone self.now.edges edge start result }
    {
        self.edges.first_from(edge, start)
    }

    /// The first state from this one on that has this node.
    pub(crate) fn next_node(&self, node: u32, start: usize) -> Option<usize>
        ensures nodes { IsFirstOrNone self.now.nodes node start result }
        ensures path { IsPath (path_of self.now) }
    {
        self.nodes.first_from(node, start)
    }

    /// The first state from which the set at a place has all edges up to this state. Where there is no such set, no edge is
    /// in it.
    pub(crate) fn begin_at(&self, place: usize, state: usize) -> usize
        requires { state ≤ length self.now.edges }
        ensures { IsBegin (slice_index_or self.now.sets place []) self.now.edges state result }
    {
        match self.begins.get(place) {
            None => state,
            Some(begins) => begins.get(state).copied().unwrap_or(0),
        }
    }
}
