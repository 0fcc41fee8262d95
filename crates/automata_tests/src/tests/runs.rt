// Paths that are taken step by step.
ghost use Rattle.std.specs.Prelude.{◌≡◌, ◌↔◌, ◌∷◌, [], ◌+◌, ◌≤◌, ◌<◌, ◌^◌, Bool, true, IfOk, length, All};
ghost use Rattle.circuit.specs.Truth.{World, Extends};
ghost use Rattle.circuit.specs.Wires.{IsWire, lit_holds};
ghost use Rattle.patterns.specs.Match.{Form};
ghost use Rattle.patterns.specs.declared.letter.Letter.{Letter};
ghost use Rattle.automata.specs.Reach.{steps_after};
ghost use Rattle.automata.specs.Standing.{IsOf, HasMatch, gates_of};

use super::described::Described;
use super::recorded::Recorded;
use automata::{Nfa, accepted, advance, begin, is_settled};
use circuit::{Circuit, Lit, Memory, Plain};
use patterns::Letter;
use std::alloc::Global;

// Whether some segment of a recorded path that the anchors allow matches, and whether that is settled.
pub fn hits(
    alloc: Global,
    nfa: &Nfa<Letter>,
    start: Recorded,
    steps: &[Recorded],
) -> Result<(bool, bool), Memory> {
    let mut truth = Plain;
    let mut reach = begin(alloc, &mut truth, nfa, &start)?;
    for step in steps {
        advance(&mut truth, nfa, &mut reach, step, true)?;
    }
    let settled = is_settled(&truth, nfa, &reach);
    Ok((accepted(&mut truth, nfa, &reach)?, settled))
}

// Begins in a circuit, and takes each step where its guard holds.
pub fn guarded(
    alloc: Global,
    circuit: &mut Circuit,
    nfa: &Nfa<Letter>,
    start: Described,
    steps: &[(Described, Lit)],
) -> Result<Lit, Memory>
    requires few { gates_of nfa.now ≤ 100000 }
    requires short { length steps.now ≤ 16 }
    requires room { length circuit.old ≤ 1000 }
    requires start { IsWire circuit.old start.predicate }
    requires steps { All (λ s. IsWire circuit.old (s.0).predicate) steps.now }
    requires guards { All (λ s. IsWire circuit.old s.1) steps.now }
    ensures bit { IfOk result (λ lit. IsWire circuit.new lit) }
{
    let mut reach = begin(alloc, circuit, nfa, &start)?;
    for (step, guard) in steps {
        advance(circuit, nfa, &mut reach, step, *guard)?;
    }
    accepted(circuit, nfa, &reach)
}
