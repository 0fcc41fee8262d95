// Steps of a circuit, whose predicate 0 is a literal.
use automata::StepMeaning;
use circuit::{Circuit, Lit, Memory, Truth};
use patterns::Letter;

// The edge into a state, the state's node, and where predicate 0 holds there.
#[derive(Clone, Copy, Debug, Drop)]
pub struct Described {
    pub edge: u32,
    pub node: u32,
    pub predicate: Lit,
}

impl StepMeaning<Circuit> for Described {
    ghost use Rattle.patterns.specs.Paths.{edge_in};
    ghost use Rattle.circuit.specs.Wires.{IsWire};
    ghost use Rattle.automata_tests.specs.Described.{told_by, stays};

    ghost edge_tells = { λ s l. edge_in s.edge l };

    ghost state_tells = { λ t s l w. told_by t s.node s.predicate l w };

    ghost fits = { λ t s. IsWire t s.predicate };

    fn edge(&self, letter: &Letter) -> bool {
        letter.has_edge(self.edge)
    }

    fn state(&self, truth: &mut Circuit, letter: &Letter) -> Result<Lit, Memory> {
        match letter {
            Letter::Predicate(0) => Ok(self.predicate),
            other => Ok(if other.has_state(self.node, 0) {
                truth.yes()
            } else {
                truth.no()
            }),
        }
    }

    ghost fits_still = { λ old new s e h. e.bit s.predicate h };

    ghost tells_still = { λ old new s l w e h. stays old new s.node s.predicate l w e h };
}
