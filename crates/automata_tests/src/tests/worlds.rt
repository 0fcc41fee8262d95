// Runs of a circuit: three states, whose predicate is an input, and two steps, whose guards are inputs.
ghost use Rattle.std.specs.Prelude.{◌≡◌, ◌+◌, ◌≤◌, IfOk, IfSome, length};
ghost use Rattle.circuit.specs.Wires.{IsWire};
ghost use Rattle.automata.specs.Standing.{gates_of};
ghost use Rattle.automata_tests.specs.Worlds.{AreWires};

use super::described::Described;
use super::runs::guarded;
use automata::{Nfa, build};
use circuit::{Circuit, Lit, Memory};
use patterns::{Letter, Pattern, letters};
use std::alloc::Global;

// The inputs of a run.
#[derive(Clone, Copy, Debug, Drop)]
pub struct Inputs {
    pub predicates: (Lit, Lit, Lit),
    pub guards: (Lit, Lit),
}

// The automaton of a pattern of at most a hundred letters.
pub fn small(
    alloc: Global,
    pattern: &Pattern<Letter>,
    first: bool,
    last: bool,
) -> Result<Option<Nfa<Letter>>, Memory>
    ensures { IfOk result (λ made. IfSome made (λ nfa. gates_of nfa ≤ 100000)) }
{
    if letters(pattern) > 100 {
        return Ok(None);
    }
    Ok(Some(build(alloc, pattern, first, last)?))
}

// Five inputs: three predicates and two guards, in this order.
fn make_inputs(circuit: &mut Circuit) -> Result<Inputs, Memory>
    requires { length circuit.old ≤ 100 }
    ensures wires { IfOk result (λ inputs. AreWires circuit.new inputs.predicates inputs.guards) }
    ensures used { length circuit.new ≤ length circuit.old + 5 }
{
    let here = circuit.input()?;
    let middle = circuit.input()?;
    let end = circuit.input()?;
    let first = circuit.input()?;
    let second = circuit.input()?;
    Ok(Inputs {
        predicates: (here, middle, end),
        guards: (first, second),
    })
}

// Where the run is accepted: from node 0 over edge 0 to node 1, and over edge 1 to node 2.
pub fn accepted_where(
    alloc: Global,
    circuit: &mut Circuit,
    nfa: &Nfa<Letter>,
) -> Result<Lit, Memory>
    requires few { gates_of nfa.now ≤ 100000 }
    requires room { length circuit.old ≤ 100 }
    ensures { IfOk result (λ lit. IsWire circuit.new lit) }
{
    let inputs = make_inputs(circuit)?;
    let start = Described {
        edge: 99,
        node: 0,
        predicate: inputs.predicates.0,
    };
    let middle = Described {
        edge: 0,
        node: 1,
        predicate: inputs.predicates.1,
    };
    let end = Described {
        edge: 1,
        node: 2,
        predicate: inputs.predicates.2,
    };
    let steps = [(middle, inputs.guards.0), (end, inputs.guards.1)];
    guarded(alloc, circuit, nfa, start, &steps)
}
