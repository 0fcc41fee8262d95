// A depth-first walk over the prefixes of paths.
ghost use Rattle.std.specs.Prelude.{◌≡◌, ◌<◌, ◌≤◌, ◌++◌, ◌∷◌, [], Some, IfOk, OnOk, length, slice_get, if◌then◌else◌};
ghost use Rattle.filters.specs.Parts.{part_of};
ghost use Rattle.filters_paths.specs.Ground.{IsGround, parts_of, part_in};
ghost use Rattle.filters_paths.specs.Walking.{IsWalk, IsAdvanced, ahead, prefix_of, row_of};

use crate::edge_ends::{source_of, target_of};
use crate::ground::Ground;
use crate::search::Search;
use containers::Vector;
use fq_core::Memory;
use std::alloc::Global;

/// An edge of a prefix, and its place in the row of the edges that may follow there.
#[derive(Clone, Copy, Debug)]
pub(crate) struct Step {
    pub(crate) edge: u32,
    pub(crate) place: usize,
}

/// A prefix of paths, and the place at which its row is read on.
#[derive(Drop)]
pub(crate) struct Walk {
    pub(crate) steps: Vec<Step>,
    pub(crate) place: usize,
    /// By edge, how often it may still be taken.
    pub(crate) left: Vec<u32>,
    pub(crate) search: Search,
}

fn edge_at(row: &[u32], place: usize) -> Option<u32>
    ensures { result ≡ slice_get row.now place }
{
    row.get(place).copied()
}

impl Walk {
    /// The walk that hasn't begun.
    pub(crate) fn new(alloc: Global, ground: &Ground) -> Result<Walk, Memory>
        requires { IsGround ground.now }
        ensures walk { IfOk result (λ w. IsWalk ground.now w) }
        ensures first { IfOk result (λ w. (w.steps.items ≡ []) × (w.place ≡ 0)) }
    {
        let left = Vec::from_slice(alloc, &ground.uses)?;
        let search = Search::new(alloc, ground.graph)?;
        Ok(Walk {
            steps: Vec::new(alloc),
            place: 0,
            left,
            search,
        })
    }

    // The edge at the place in the row that is read.
    fn next_edge(&self, ground: &Ground) -> Option<u32>
        requires ground { IsGround ground.now }
        requires walk { IsWalk ground.now self.now }
        ensures { result ≡ slice_get (row_of (parts_of ground.now) (part_in ground.now) (prefix_of self.now)) self.now.place }
    {
        match self.steps.last() {
            None => edge_at(&ground.firsts, self.place),
            Some(step) => {
                let node = target_of(ground.graph, step.edge);
                edge_at(ground.graph.outgoing(node), self.place)
            }
        }
    }

    // Takes an edge: it is the last of the prefix from now on.
    fn push(&mut self, edge: u32) -> Result<(), Memory>
        ensures steps { OnOk result (self.new.steps.items ≡ self.old.steps.items ++ record { edge = edge; place = self.old.place } ∷ []) }
        ensures rest { OnOk result ((self.new.place ≡ 0) × (self.new.left ≡ self.old.left) × (self.new.search ≡ self.old.search)) }
    {
        let place = self.place;
        self.steps.push(Step { edge, place })?;
        self.place = 0;
        Ok(())
    }

    // Goes on by an edge of the row, if it has uses left and a way leads from its target to an end, and passes it over
    // else. Whether the prefix is a path from now on.
    fn follow(&mut self, ground: &Ground, edge: u32) -> Result<bool, Memory>
        requires ground { IsGround ground.now }
        requires walk { IsWalk ground.now self.old }
        requires edge { slice_get (row_of (parts_of ground.now) (part_in ground.now) (prefix_of self.old)) self.old.place ≡ Some edge }
        ensures walk { OnOk result (IsWalk ground.now self.new) }
        ensures next { IfOk result (λ found. ahead ground.now self.old ≡ (if found then prefix_of self.new ∷ ahead ground.now self.new else ahead ground.now self.new)) }
    {
        let at = edge as usize;
        let node = target_of(ground.graph, edge);
        if self.left[at] == 0 {
            self.place += 1;
            return Ok(false);
        }
        self.left[at] -= 1;
        if ground.ends[node as usize] {
            self.search.forget_route();
            self.push(edge)?;
            return Ok(true);
        }
        if self
            .search
            .reaches_end(ground.graph, &ground.ends, &self.left, edge, node)?
        {
            self.push(edge)?;
        } else {
            self.left[at] += 1;
            self.search.reopen(source_of(ground.graph, edge), node);
            self.place += 1;
        }
        Ok(false)
    }

    // Goes back over the last step, at the end of its row. Whether there was one.
    fn go_back(&mut self, ground: &Ground) -> bool
        requires ground { IsGround ground.now }
        requires walk { IsWalk ground.now self.old }
        requires end { length (row_of (parts_of ground.now) (part_in ground.now) (prefix_of self.old)) ≤ self.old.place }
        ensures walk { IsWalk ground.now self.new }
        ensures next { ahead ground.now self.old ≡ (if result then ahead ground.now self.new else []) }
    {
        match self.steps.pop() {
            None => false,
            Some(step) => {
                let source = source_of(ground.graph, step.edge);
                let target = target_of(ground.graph, step.edge);
                self.left[step.edge as usize] += 1;
                self.place = step.place + 1;
                self.search.forget_route();
                self.search.reopen(source, target);
                true
            }
        }
    }

    /// Goes on to the next path in order. Whether there is one.
    pub(crate) fn advance(&mut self, ground: &Ground) -> Result<bool, Memory>
        requires ground { IsGround ground.now }
        requires walk { IsWalk ground.now self.old }
        ensures walk { OnOk result (IsWalk ground.now self.new) }
        ensures next { IfOk result (λ found. IsAdvanced (ahead ground.now self.old) found (prefix_of self.new) (ahead ground.now self.new)) }
    {
        for _ in 0..u64::MAX {
            match self.next_edge(ground) {
                Some(edge) => {
                    if self.follow(ground, edge)? {
                        return Ok(true);
                    }
                }
                None => {
                    if !self.go_back(ground) {
                        return Ok(false);
                    }
                }
            }
        }
        Err(Memory)
    }

    /// The path at which the walk stands.
    pub(crate) fn path(&self, alloc: Global) -> Result<Vector<u32>, Memory>
        ensures { IfOk result (λ p. p ≡ prefix_of self.now) }
    {
        let mut edges = Vector::new(alloc);
        for step in self.steps.iter() {
            edges.push(step.edge)?;
        }
        Ok(edges)
    }
}
