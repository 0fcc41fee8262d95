// Pairs of node and context.
ghost use Rattle.std.specs.Prelude.{◌≡◌};

use containers::Vector;
use containers::chains::Chain;
use std::marker::Model;

/// A frame of a context: the call that it comes from and the counters of the loops that it is in.
#[derive(Debug, Drop)]
pub struct CallFrame {
    pub(crate) call: Option<u32>,
    pub(crate) counters: Vector<u32>,
}

impl Model for CallFrame {
    ghost use Rattle.cfa.specs.Contexts.{FrameContext};

    ghost Value = { FrameContext };

    ghost view = { λ f. record { call = f.call; counters = f.counters } };
}

impl CallFrame {
    /// The number of the edge of the call that the frame comes from, none for the first frame.
    pub fn call(&self) -> Option<u32>
        ensures { result ≡ self.now.call }
    {
        self.call
    }

    /// The counters of the loops that the frame is in, that of the outermost first.
    pub fn counters(&self) -> &[u32]
        ensures { result.now ≡ self.now.counters }
    {
        &self.counters
    }
}

/// A node with a context. Frames share their callers.
#[derive(Debug, Drop)]
pub struct NodeInContext {
    pub(crate) node: u32,
    pub(crate) frames: Chain<CallFrame>,
    pub(crate) taken: u32,
}

impl Model for NodeInContext {
    ghost use Rattle.cfa.specs.Contexts.{Pair};

    ghost Value = { Pair };

    ghost view = { λ p. record { node = p.node; context = record { frames = p.frames; taken = p.taken } } };
}

impl NodeInContext {
    /// The number of the node.
    pub fn node(&self) -> u32
        ensures { result ≡ self.now.node }
    {
        self.node
    }

    /// The frames, the one that runs first and then each one's caller.
    pub fn frames(&self) -> &Chain<CallFrame>
        ensures { result.now ≡ self.now.context.frames }
    {
        &self.frames
    }

    /// How many answers were taken.
    pub fn taken(&self) -> u32
        ensures { result ≡ self.now.context.taken }
    {
        self.taken
    }
}
