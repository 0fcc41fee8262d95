// The path that a run takes.
ghost use Rattle.std.specs.Prelude.{◌≡◌, [], ◌∷◌, ◌++◌, OnOk};
ghost use Rattle.std.specs.Option.{option_to_list};

use c_meaning::Ends;
use c_values::Kind;
use cfa::Trap;
use containers::Vector;
use std::alloc::{AllocError, Global};

/// How a recorded run ends.
#[derive(Debug, Drop)]
pub enum RunEnd {
    /// It has returned, with a value of the entry's kind where it gives one.
    Returned { value: Option<u64> },
    /// A trap ended it.
    Trapped(Trap),
    /// An assumption didn't hold.
    Blocked,
    /// A call would have made more than 64 frames.
    TooDeep,
    /// It took as many edges as were allowed, and would go on.
    Cut,
}

impl RunEnd {
    ghost use Rattle.path_runner.specs.Counted.{counts_end};

    /// Whether a run that ends so is counted. One that was cut never is.
    pub fn is_counted(&self, ends: Ends) -> bool
        ensures { result ≡ counts_end ends self.now }
    {
        match self {
            RunEnd::Returned { value: _value } => true,
            RunEnd::Trapped(_trap) => ends.counts_traps(),
            RunEnd::Blocked | RunEnd::TooDeep => ends.counts_any(),
            RunEnd::Cut => false,
        }
    }
}

/// The path that a run took, from its first state to its last one.
#[derive(Debug, Drop)]
pub struct PathRecord {
    /// The node of each state: one more than there are edges.
    pub nodes: Vector<u32>,
    /// The edges taken, in order.
    pub edges: Vector<u32>,
    /// For each state which predicates hold there: bit p, counted from 0, is that of predicate p.
    pub masks: Vector<u64>,
    /// Each answer that was read, with its kind and as a value of it, in order.
    pub taken: Vector<(Kind, u64)>,
    pub end: RunEnd,
}

/// A path so far.
#[derive(Drop)]
pub(crate) struct Path {
    nodes: Vector<u32>,
    edges: Vector<u32>,
    masks: Vector<u64>,
    taken: Vector<(Kind, u64)>,
}

impl Path {
    pub(crate) fn new(alloc: Global) -> Path
        ensures { result ≡ record { nodes = []; edges = []; masks = []; taken = [] } }
    {
        Path {
            nodes: Vector::new(alloc),
            edges: Vector::new(alloc),
            masks: Vector::new(alloc),
            taken: Vector::new(alloc),
        }
    }

    /// A state is reached, at a node where the predicates of a mask hold.
    pub(crate) fn visit(&mut self, node: u32, mask: u64) -> Result<(), AllocError>
        ensures { OnOk result (self.new ≡ record self.old { nodes = self.old.nodes ++ node ∷ []; masks = self.old.masks ++ mask ∷ [] }) }
    {
        self.nodes.push(node)?;
        self.masks.push(mask)?;
        Ok(())
    }

    /// An edge is taken, along which an answer may be read.
    pub(crate) fn cross(&mut self, edge: u32, answer: Option<(Kind, u64)>) -> Result<(), AllocError>
        ensures { OnOk result (self.new ≡ record self.old { edges = self.old.edges ++ edge ∷ []; taken = self.old.taken ++ option_to_list answer }) }
    {
        self.edges.push(edge)?;
        if let Some(answer) = answer {
            self.taken.push(answer)?;
        }
        Ok(())
    }

    /// The run ends so.
    pub(crate) fn ended(self, end: RunEnd) -> PathRecord
        ensures { result ≡ record { nodes = self.nodes; edges = self.edges; masks = self.masks; taken = self.taken; end = end } }
    {
        let Path {
            nodes,
            edges,
            masks,
            taken,
        } = self;
        PathRecord {
            nodes,
            edges,
            masks,
            taken,
            end,
        }
    }
}
