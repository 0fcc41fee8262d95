// Why parts make no graph.
use fq_core::Memory;
use std::alloc::AllocError;

/// Why parts make no graph.
#[derive(Clone, Copy, Debug, PartialEq, Eq)]
pub enum GraphFault {
    /// The first edge that breaks the rules for edges.
    IllNumbered { edge: u32 },
    /// No edge breaks the rules for edges, and another part breaks its own.
    IllPart,
    /// An allocation was refused.
    Memory,
}

impl From<Memory> for GraphFault {
    ghost use Rattle.std.specs.Prelude.{◌≡◌};
    ghost use Rattle.cfa.specs.declared.fault.GraphFault.TheVariants as fault;

    ghost from_gives = { λ _ e. e ≡ fault.Memory };

    fn from(_: Memory) -> Self {
        GraphFault::Memory
    }
}

impl From<AllocError> for GraphFault {
    ghost use Rattle.std.specs.Prelude.{◌≡◌};
    ghost use Rattle.cfa.specs.declared.fault.GraphFault.TheVariants as fault;

    ghost from_gives = { λ _ e. e ≡ fault.Memory };

    fn from(_: AllocError) -> Self {
        GraphFault::Memory
    }
}
