// Symbolic states and steps.
ghost use Rattle.std.specs.Prelude.{◌≡◌, ◌≤◌, length};
ghost use Rattle.sym_expr.specs.sym_steps.Steps.{running_of};

use crate::SymStore;
use cfa::Frame;
use circuit::Lit;
use containers::Vector;

/// A state whose cells are words: control, the frames and the number of answers taken are the same in all worlds.
#[derive(Drop)]
pub struct SymState {
    pub node: u32,
    /// The frames, the first one's call outermost; the last is the one that runs.
    pub frames: Vector<Frame>,
    pub store: SymStore,
    /// How many answers were taken.
    pub taken: u64,
}

/// A way on from a symbolic state.
#[derive(Clone, Copy, Debug, PartialEq, Eq)]
pub struct Way {
    /// The number of the edge.
    pub edge: u32,
    /// Holds where the run goes on along the edge.
    pub taken: Lit,
}

/// What comes next of a symbolic state: the ways on, and the state behind the step, which all of them share but for the node.
#[derive(Drop)]
pub struct SymStep {
    /// None, one, or two by the truth of a test.
    pub ways: Vector<Way>,
    /// Holds where a trap ends the run.
    pub traps: Lit,
    /// The run has returned, in every world.
    pub returns: bool,
    pub frames: Vector<Frame>,
    pub store: SymStore,
    pub taken: u64,
}

/// The frame that runs.
pub(crate) fn running(frames: &[Frame]) -> &Frame
    requires { 1 ≤ length frames.now }
    ensures { result.now ≡ running_of frames.now }
{
    &frames[frames.len() - 1]
}
