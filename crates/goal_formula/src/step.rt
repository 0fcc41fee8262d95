// What a state of an unwinding tells of letters.
ghost use Rattle.std.specs.Prelude.{◌≡◌, All, List, slice_index_or};
ghost use Rattle.circuit.specs.Truth.{World};
ghost use Rattle.circuit.specs.Wires.{IsWire, lit_holds};
ghost use Rattle.circuit.specs.declared.lit.Gate.{Gate as OneGate};

use automata::StepMeaning;
use circuit::{Circuit, Lit, Memory};
use patterns::Letter;

/// The edge into a state, the state's node, and literals that hold where a predicate does and where it doesn't.
#[derive(Clone, Copy, Debug, Drop)]
pub(crate) struct EntryStep<'a> {
    pub(crate) edge: Option<u32>,
    pub(crate) node: u32,
    pub(crate) held: &'a [Lit],
    pub(crate) absent: &'a [Lit],
}

/// The literal of a number, or another one past the last.
#[tactic(auto, using(crate::specs::Steps::wire_at))]
fn literal_at(literals: &[Lit], number: u32, other: Lit) -> Lit
    ensures value { result ≡ slice_index_or literals.now number other }
    ensures wire { (gates : List OneGate) → All (IsWire gates) literals.now → IsWire gates other → IsWire gates result }
{
    literals.get(number as usize).copied().unwrap_or(other)
}

/// The literal that holds always, or never.
#[tactic(auto, using(circuit::proofs::Gates::constant_wire))]
fn constant(value: bool) -> Lit
    ensures wire { (gates : List OneGate) → IsWire gates result }
    ensures value { (gates : List OneGate) (w : World) → lit_holds gates result w ≡ value }
{
    if value { Lit::YES } else { Lit::NO }
}

impl<'a> StepMeaning<Circuit> for EntryStep<'a> {
    ghost use Rattle.goal_formula.specs.Steps.{AreWires, tells_edge, tells_state, told_still, wires_stay};

    ghost edge_tells = { λ s l. tells_edge s.edge l };

    ghost state_tells = { λ t s l w. tells_state t s.node s.held.now s.absent.now w l };

    ghost fits = { λ t s. AreWires t s.held.now s.absent.now };

    fn edge(&self, letter: &Letter) -> bool {
        match self.edge {
            None => false,
            Some(edge) => letter.has_edge(edge),
        }
    }

    fn state(&self, _truth: &mut Circuit, letter: &Letter) -> Result<Lit, Memory> {
        Ok(match letter {
            Letter::Nodes(nodes) => constant(nodes.contains(self.node)),
            Letter::Edges(_) => constant(false),
            Letter::Predicate(number) => literal_at(self.held, *number, Lit::NO),
            Letter::Absent(number) => literal_at(self.absent, *number, Lit::YES),
        })
    }

    ghost fits_still = { λ old new s e h. wires_stay old new s.held.now s.absent.now e h };

    ghost tells_still = { λ old new s l w e h. told_still old new s.node s.held.now s.absent.now w l e h };
}
