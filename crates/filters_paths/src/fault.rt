// Why paths aren't listed.
use fq_core::Memory;
use std::alloc::AllocError;

/// Why the paths of a target graph aren't listed.
#[derive(Clone, Copy, Debug, PartialEq, Eq)]
pub enum PathFault {
    /// There are more paths than the limit.
    TooManyPaths,
    /// There are not more paths than the limit, but more edges in them all than the limit of edges.
    TooManyEdges,
    /// An allocation was refused.
    Memory,
}

impl From<Memory> for PathFault {
    ghost use Rattle.std.specs.Prelude.{◌≡◌};
    ghost use Rattle.filters_paths.specs.declared.fault.PathFault.TheVariants as fault;

    ghost from_gives = { λ _ e. e ≡ fault.Memory };

    fn from(_: Memory) -> Self {
        PathFault::Memory
    }
}

impl From<AllocError> for PathFault {
    ghost use Rattle.std.specs.Prelude.{◌≡◌};
    ghost use Rattle.filters_paths.specs.declared.fault.PathFault.TheVariants as fault;

    ghost from_gives = { λ _ e. e ≡ fault.Memory };

    fn from(_: AllocError) -> Self {
        PathFault::Memory
    }
}
