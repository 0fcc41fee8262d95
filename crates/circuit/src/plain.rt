use crate::truth::{Memory, Truth};

/// Bits that are `bool`. Each holds the same in every world, no wire is used, and no gate answers [`Memory`].
#[derive(Clone, Copy, Debug, Drop)]
pub struct Plain;

impl Truth for Plain {
    type Bit = bool;

    ghost use Rattle.std.specs.Prelude.{false};

    ghost is_bit = { λ t b. Unit {0} };

    ghost holds = { λ t b w. b };

    ghost wires = { λ t. 0 };

    ghost grows_to = { λ s t. Unit {0} };

    ghost counts_wires = { false };

    ghost may_lack_memory = { false };

    ghost grows_to_self = { λ t. tt };

    ghost grows_to_again = { λ s t u h k. tt };

    fn is_known_no(&self, bit: bool) -> bool {
        !bit
    }

    fn is_known_yes(&self, bit: bool) -> bool {
        bit
    }

    fn yes(&self) -> bool {
        true
    }

    fn no(&self) -> bool {
        false
    }

    fn and(&mut self, a: bool, b: bool) -> Result<bool, Memory> {
        Ok(a && b)
    }

    fn or(&mut self, a: bool, b: bool) -> Result<bool, Memory> {
        Ok(a || b)
    }

    fn not(&mut self, a: bool) -> Result<bool, Memory> {
        Ok(!a)
    }
}
