// Steps that were recorded.
use automata::StepMeaning;
use circuit::{Memory, Plain};
use patterns::Letter;

/// The edge into a state, the state's node, and the predicates that hold there.
#[derive(Clone, Copy, Debug, Drop)]
pub(crate) struct RecordedStep {
    pub(crate) edge: u32,
    pub(crate) node: u32,
    pub(crate) mask: u64,
}

impl StepMeaning<Plain> for RecordedStep {
    ghost use Rattle.patterns.specs.Paths.{edge_in, state_in};
    ghost use Rattle.std.specs.Prelude.{refl};

    ghost edge_tells = { λ s l. edge_in s.edge l };

    ghost state_tells = { λ t s l w. state_in s.node s.mask l };

    ghost fits = { λ t s. Unit {0} };

    fn edge(&self, letter: &Letter) -> bool {
        letter.has_edge(self.edge)
    }

    fn state(&self, _truth: &mut Plain, letter: &Letter) -> Result<bool, Memory> {
        Ok(letter.has_state(self.node, self.mask))
    }

    ghost fits_still = { λ old new s e h. tt };

    ghost tells_still = { λ old new s l w e h. refl };
}
