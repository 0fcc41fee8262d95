// Pattern automata along the entries of an unwinding.
ghost use Rattle.std.specs.Prelude.{◌≡◌, ◌∷◌, [], ◌+◌, ◌≤◌, ◌<◌, ◌^◌, All, IfOk, OnOk, List, length, map, true};
ghost use Rattle.automata.specs.Reach.{steps_after};
ghost use Rattle.automata.specs.Standing.{IsReach, Stands, gates_of};
ghost use Rattle.bit_words.specs.Words.{Grows};
ghost use Rattle.cfa.specs.Each.{Each};
ghost use Rattle.circuit.specs.Sharing.{inverse};
ghost use Rattle.circuit.specs.Truth.{World};
ghost use Rattle.circuit.specs.Wires.{IsWire, lit_holds};
ghost use Rattle.patterns.specs.Letters.{form};
ghost use Rattle.patterns.specs.Match.{Step as OneStep};
ghost use Rattle.patterns.specs.declared.letter.Letter.{Letter as OneLetter};
ghost use Rattle.goal_formula.specs.Parts.{IsMatchBit, most_match_gates};
ghost use Rattle.goal_formula.specs.Sizes.{pattern_size};
ghost use Rattle.goal_formula.specs.Steps.{HasWires, entry_step};

use crate::step::EntryStep;
use automata::{Nfa, Reach, accepted, advance, begin, build};
use circuit::{Circuit, Lit, Memory, Truth};
use patterns::{Letter, Pattern};
use std::alloc::Global;
use unwinder::Entry;

/// Literals that hold where these don't.
fn negations(alloc: Global, circuit: &mut Circuit, literals: &[Lit]) -> Result<Vec<Lit>, Memory>
    requires wires { All (IsWire circuit.old) literals.now }
    requires room { length circuit.old < 2 ^ 30 }
    ensures same { circuit.new ≡ circuit.old }
    ensures literals { IfOk result (λ made. made.items ≡ map inverse literals.now) }
{
    let mut made = Vec::new(alloc);
    for literal in literals {
        let negation = circuit.not(*literal)?;
        made.push(negation)?;
    }
    Ok(made)
}

/// What an automaton knows of a path after the state of an entry alone.
fn begun(
    alloc: Global,
    circuit: &mut Circuit,
    nfa: &Nfa<Letter>,
    entry: &Entry,
) -> Result<Reach<Circuit>, Memory>
    requires entry { HasWires circuit.old entry.now }
    requires room { length circuit.old + gates_of nfa.now < 2 ^ 30 }
    ensures grows { Grows circuit.old circuit.new (gates_of nfa.now) }
    ensures reach { IfOk result (λ reach. IsReach IsWire lit_holds true circuit.new nfa.now reach) }
    ensures stands { IfOk result (λ reach. Stands lit_holds circuit.new nfa.now reach (λ w. entry_step circuit.old w entry.now ∷ [])) }
{
    let absent = negations(alloc, circuit, &entry.predicates)?;
    let step = EntryStep {
        edge: entry.edge,
        node: entry.node,
        held: entry.predicates.as_slice(),
        absent: absent.as_slice(),
    };
    begin(alloc, circuit, nfa, &step)
}

/// Takes an automaton on by the state of an entry, in the worlds in which the entry's guard holds.
fn advanced(
    alloc: Global,
    circuit: &mut Circuit,
    nfa: &Nfa<Letter>,
    reach: &mut Reach<Circuit>,
    entry: &Entry,
) -> Result<(), Memory>
    requires reach { IsReach IsWire lit_holds true circuit.old nfa.now reach.old }
    requires entry { HasWires circuit.old entry.now }
    requires room { length circuit.old + gates_of nfa.now < 2 ^ 30 }
    ensures grows { Grows circuit.old circuit.new (gates_of nfa.now) }
    ensures reach { IsReach IsWire lit_holds true circuit.new nfa.now reach.new }
    ensures stands { (path : World → List (OneStep OneLetter)) → Stands lit_holds circuit.old nfa.now reach.old path →
        OnOk result (Stands lit_holds circuit.new nfa.now reach.new (λ w. steps_after (lit_holds circuit.old entry.now.guard w) (path w) (entry_step circuit.old w entry.now))) }
{
    let absent = negations(alloc, circuit, &entry.predicates)?;
    let step = EntryStep {
        edge: entry.edge,
        node: entry.node,
        held: entry.predicates.as_slice(),
        absent: absent.as_slice(),
    };
    advance(circuit, nfa, reach, &step, entry.guard)
}

/// A literal that holds where what the entries tell has a match of a pattern with these anchors, in each world in which the
/// first entry holds.
pub(crate) fn matched(
    alloc: Global,
    circuit: &mut Circuit,
    pattern: &Pattern<Letter>,
    first: bool,
    last: bool,
    entries: &[Entry],
) -> Result<Lit, Memory>
    requires entries { Each entries.now (λ k e. HasWires circuit.old e) }
    requires some { 0 < length entries.now }
    requires room { length circuit.old + most_match_gates (pattern_size (form pattern.now)) (length entries.now) < 2 ^ 30 }
    ensures grows { Grows circuit.old circuit.new (most_match_gates (pattern_size (form pattern.now)) (length entries.now)) }
    ensures bit { IfOk result (IsMatchBit circuit.old circuit.new entries.now (form pattern.now) first last) }
{
    let nfa = build(alloc, pattern, first, last)?;
    let mut reach = begun(alloc, circuit, &nfa, &entries[0])?;
    for at in 1..entries.len() {
        advanced(alloc, circuit, &nfa, &mut reach, &entries[at])?;
    }
    accepted(circuit, &nfa, &reach)
}
