// Why a run goes no further.
use cfa::Trap;
use std::alloc::{AllocError, AllocFailed};

/// Why a run goes no further.
#[derive(Clone, Copy, Debug)]
pub(crate) enum Stop {
    /// An allocation was refused.
    Memory,
    /// A trap ended the run.
    Trapped(Trap),
    /// An assumption didn't hold.
    Blocked,
    /// A call would have made more than 64 activations.
    TooDeep,
    /// A turn was wanted, and none was left.
    OutOfTurns,
}

impl From<AllocError> for Stop {
    ghost use Rattle.std.specs.Prelude.{◌≡◌};
    ghost use Rattle.tree_meaning.specs.declared.stop.Stop.TheVariants as stop;

    ghost from_gives = { λ _ s. s ≡ stop.Memory };

    fn from(_: AllocError) -> Self {
        Stop::Memory
    }
}

impl<T: Drop> From<AllocFailed<T>> for Stop {
    ghost use Rattle.std.specs.Prelude.{◌≡◌};
    ghost use Rattle.tree_meaning.specs.declared.stop.Stop.TheVariants as stop;

    ghost from_gives = { λ _ s. s ≡ stop.Memory };

    fn from(_: AllocFailed<T>) -> Self {
        Stop::Memory
    }
}

impl From<Trap> for Stop {
    ghost use Rattle.std.specs.Prelude.{◌≡◌};
    ghost use Rattle.tree_meaning.specs.declared.stop.Stop.TheVariants as stop;

    ghost from_gives = { λ trap s. s ≡ stop.Trapped trap };

    fn from(trap: Trap) -> Self {
        Stop::Trapped(trap)
    }
}
