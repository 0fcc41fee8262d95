// Steps of a path that has edges alone.
use crate::patterns_of::{Alive, Shape, TAIL};
use automata::StepMeaning;
use circuit::{Memory, Plain};
use patterns::Letter;

// The edge into a state. No letter but one of edges holds there.
#[derive(Clone, Copy, Debug, Drop)]
pub struct Edge(pub u32);

impl StepMeaning<Plain> for Edge {
    ghost use Rattle.patterns.specs.Paths.{edge_in};
    ghost use Rattle.std.specs.Prelude.{false, refl};

    ghost edge_tells = { λ s l. edge_in s.0 l };

    ghost state_tells = { λ t s l w. false };

    ghost fits = { λ t s. Unit {0} };

    fn edge(&self, letter: &Letter) -> bool {
        letter.has_edge(self.0)
    }

    fn state(&self, _truth: &mut Plain, _letter: &Letter) -> Result<bool, Memory> {
        Ok(false)
    }

    ghost fits_still = { λ old new s e h. tt };

    ghost tells_still = { λ old new s l w e h. refl };
}

// The edge at a place of the path that keeps so many matches alive.
pub fn edge_at(shape: Shape, alive: Alive, leaves: u32, place: u32) -> Edge {
    match alive {
        Alive::None => Edge(u32::MAX),
        Alive::Beginning => Edge(u32::MAX),
        Alive::All => Edge(0),
        Alive::One => match shape {
            Shape::Choice => Edge(leaves / 2),
            Shape::Arrows => Edge(5),
            _ => {
                if place < leaves.saturating_sub(2) {
                    Edge(place)
                } else {
                    Edge(TAIL)
                }
            }
        },
    }
}
