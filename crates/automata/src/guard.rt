ghost use Rattle.std.specs.Prelude.{◌≡◌, ◌+◌, ◌≤◌, if◌then◌else◌, IfOk, OnErr, IsTrue};
ghost use Rattle.circuit.specs.Truth.{World, Extends, HasRoom};
ghost use Rattle.automata.specs.Guards.{IsGuard};

use circuit::{Memory, Truth};

/// Where a step is taken, and where it isn't.
#[derive(Clone, Copy, Debug, Drop)]
pub struct Guard<B> {
    /// The step is taken.
    pub taken: B,
    /// The step isn't taken.
    pub skipped: B,
}

/// The new bit where the step is taken, and the old one elsewhere.
pub fn choose<T: Truth>(
    truth: &mut T,
    guard: Guard<T::Bit>,
    new: T::Bit,
    old: T::Bit,
) -> Result<T::Bit, Memory>
    requires guard { IsGuard T.is_bit T.holds truth.old guard }
    requires new { T.is_bit truth.old new }
    requires old { T.is_bit truth.old old }
    requires room { HasRoom T.counts_wires (T.wires truth.old + 3) }
    ensures older { Extends T.is_bit T.holds truth.old truth.new }
    ensures grown { T.grows_to truth.old truth.new }
    ensures used { T.wires truth.new ≤ T.wires truth.old + 3 }
    ensures bit { IfOk result (λ c. T.is_bit truth.new c) }
    ensures value { IfOk result (λ c. (w : World) → T.holds truth.new c w ≡ (if T.holds truth.old guard.taken w then T.holds truth.old new w else T.holds truth.old old w)) }
    ensures memory { OnErr result (IsTrue T.may_lack_memory) }
{
    let newer = truth.and(guard.taken, new)?;
    let older = truth.and(guard.skipped, old)?;
    truth.or(newer, older)
}
