ghost use Rattle.std.specs.Prelude.{◌≡◌, ℕ, Bool, true, false, not, ◌&&◌, ◌||◌, ◌+◌, ◌≤◌, IfOk, OnErr, IsTrue};
ghost use Rattle.circuit.specs.Truth.{World, Extends, HasRoom};

use std::alloc::{AllocError, AllocFailed};

/// Memory was refused to a gate.
#[derive(Clone, Copy, Debug, PartialEq, Eq, Drop)]
pub struct Memory;

impl From<AllocError> for Memory {
    fn from(_: AllocError) -> Self {
        Memory
    }
}

impl<T: Drop> From<AllocFailed<T>> for Memory {
    fn from(_: AllocFailed<T>) -> Self {
        Memory
    }
}

/// Bits and gates over them.
///
/// A world is a list of truth values, of any length, and each bit holds in it or not. A gate answers a bit that holds in
/// every world as its parts do. Every older bit stays one of the truth's bits and keeps what it holds, also where the gate
/// answers [`Memory`], which it does only where the truth says that it may. A gate uses at most one wire. Beside what the
/// older bits hold each truth says how gates make it grow, for whoever knows which truth it is.
pub trait Truth {
    /// One truth value.
    type Bit: Copy;

    // The bit is one of this truth's.
    ghost is_bit: { Self → Self.Bit → Type 0 };

    // Whether the bit holds in the world.
    ghost holds: { Self → Self.Bit → World → Bool };

    // How many wires are used.
    ghost wires: { Self → ℕ };

    // The old truth, with more gates.
    ghost grows_to: { Self → Self → Type 0 };

    // Whether wires are counted.
    ghost counts_wires: { Bool };

    // Whether a gate may find no memory.
    ghost may_lack_memory: { Bool };

    /// Whether the bit is known to hold in no world. A no says nothing of the bit.
    fn is_known_no(&self, bit: Self::Bit) -> bool
        requires { is_bit self.now bit }
        ensures { IsTrue result → (w : World) → holds self.now bit w ≡ false }
    {
        let _ = bit;
        false
    }

    /// Whether the bit is known to hold in every world. A no says nothing of the bit.
    fn is_known_yes(&self, bit: Self::Bit) -> bool
        requires { is_bit self.now bit }
        ensures { IsTrue result → (w : World) → holds self.now bit w ≡ true }
    {
        let _ = bit;
        false
    }

    /// The bit that always holds.
    fn yes(&self) -> Self::Bit
        ensures bit { is_bit self.now result }
        ensures value { (w : World) → holds self.now result w ≡ true };

    /// The bit that never holds.
    fn no(&self) -> Self::Bit
        ensures bit { is_bit self.now result }
        ensures value { (w : World) → holds self.now result w ≡ false };

    /// A bit that holds where both hold.
    fn and(&mut self, a: Self::Bit, b: Self::Bit) -> Result<Self::Bit, Memory>
        requires left { is_bit self.old a }
        requires right { is_bit self.old b }
        requires room { HasRoom counts_wires (wires self.old) }
        ensures older { Extends is_bit holds self.old self.new }
        ensures grown { grows_to self.old self.new }
        ensures used { wires self.new ≤ wires self.old + 1 }
        ensures bit { IfOk result (λ c. is_bit self.new c) }
        ensures value { IfOk result (λ c. (w : World) → holds self.new c w ≡ (holds self.old a w && holds self.old b w)) }
        ensures memory { OnErr result (IsTrue may_lack_memory) };

    /// A bit that holds where at least one of them holds.
    fn or(&mut self, a: Self::Bit, b: Self::Bit) -> Result<Self::Bit, Memory>
        requires left { is_bit self.old a }
        requires right { is_bit self.old b }
        requires room { HasRoom counts_wires (wires self.old) }
        ensures older { Extends is_bit holds self.old self.new }
        ensures grown { grows_to self.old self.new }
        ensures used { wires self.new ≤ wires self.old + 1 }
        ensures bit { IfOk result (λ c. is_bit self.new c) }
        ensures value { IfOk result (λ c. (w : World) → holds self.new c w ≡ (holds self.old a w || holds self.old b w)) }
        ensures memory { OnErr result (IsTrue may_lack_memory) };

    /// A bit that holds where this one doesn't.
    fn not(&mut self, a: Self::Bit) -> Result<Self::Bit, Memory>
        requires bit { is_bit self.old a }
        requires room { HasRoom counts_wires (wires self.old) }
        ensures older { Extends is_bit holds self.old self.new }
        ensures grown { grows_to self.old self.new }
        ensures used { wires self.new ≤ wires self.old + 1 }
        ensures bit { IfOk result (λ c. is_bit self.new c) }
        ensures value { IfOk result (λ c. (w : World) → holds self.new c w ≡ not (holds self.old a w)) }
        ensures memory { OnErr result (IsTrue may_lack_memory) };

    // A truth grows to itself.
    ghost grows_to_self: { (t : Self) → grows_to t t };

    // It grows on from where it grew to.
    ghost grows_to_again: { (a b c : Self) → grows_to a b → grows_to b c → grows_to a c };
}
