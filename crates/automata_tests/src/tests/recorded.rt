// Steps that were recorded, over any truth.
use automata::StepMeaning;
use circuit::{Memory, Truth};
use patterns::Letter;

// The edge into a state, the state's node, and the predicates that hold there.
#[derive(Clone, Copy, Debug, Drop)]
pub struct Recorded {
    pub edge: u32,
    pub node: u32,
    pub mask: u64,
}

impl<T: Truth> StepMeaning<T> for Recorded {
    ghost use Rattle.patterns.specs.Paths.{edge_in, state_in};
    ghost use Rattle.std.specs.Prelude.{refl};

    ghost edge_tells = { λ s l. edge_in s.edge l };

    ghost state_tells = { λ t s l w. state_in s.node s.mask l };

    ghost fits = { λ t s. Unit {0} };

    fn edge(&self, letter: &Letter) -> bool {
        letter.has_edge(self.edge)
    }

    fn state(&self, truth: &mut T, letter: &Letter) -> Result<T::Bit, Memory> {
        if letter.has_state(self.node, self.mask) {
            Ok(truth.yes())
        } else {
            Ok(truth.no())
        }
    }

    ghost fits_still = { λ old new s e h. tt };

    ghost tells_still = { λ old new s l w e h. refl };
}
