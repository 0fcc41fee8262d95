ghost use Rattle.std.specs.Prelude.{◌≡◌, Bool, IfOk, OnErr, IsTrue};
ghost use Rattle.patterns.specs.declared.letter.Letter.{Letter};
ghost use Rattle.circuit.specs.Truth.{World, Extends};

use circuit::{Memory, Truth};
use patterns::Letter;

/// What one step of a run is: the edge into a state, and the state.
///
/// What it tells of the letters stays so while other gates are made.
pub trait StepMeaning<T: Truth> {
    // The edge into the state is in the letter.
    ghost edge_tells: { Self → Letter → Bool };

    // The state is in the letter, in a world.
    ghost state_tells: { T → Self → Letter → World → Bool };

    // Its bits are bits of this truth.
    ghost fits: { T → Self → Type 0 };

    /// Whether the edge into the state is in the letter.
    fn edge(&self, letter: &Letter) -> bool
        ensures { result ≡ edge_tells self.now letter.now };

    /// A bit that holds where the state is in the letter. It uses no wire.
    fn state(&self, truth: &mut T, letter: &Letter) -> Result<T::Bit, Memory>
        requires { fits truth.old self.now }
        ensures same { truth.new ≡ truth.old }
        ensures bit { IfOk result (λ b. T.is_bit truth.new b) }
        ensures value { IfOk result (λ b. (w : World) → T.holds truth.new b w ≡ state_tells truth.old self.now letter.now w) }
        ensures memory { OnErr result (IsTrue T.may_lack_memory) };

    // Its bits are bits still, and say the same, after more gates.
    ghost fits_still: { (old new : T) (s : Self) → Extends T.is_bit T.holds old new → fits old s → fits new s };

    ghost tells_still: { (old new : T) (s : Self) (l : Letter) (w : World) → Extends T.is_bit T.holds old new → fits old s → state_tells new s l w ≡ state_tells old s l w };
}
