// The literal of a goal.
ghost use Rattle.std.specs.Prelude.{◌≡◌, ◌+◌, ◌*◌, ◌<◌, ◌≤◌, ◌^◌, ◌&&◌, IfOk, length};
ghost use Rattle.std.specs.List.{list_any};
ghost use Rattle.bit_words.specs.Words.{Grows};
ghost use Rattle.cfa.specs.Each.{Each};
ghost use Rattle.circuit.specs.Truth.{World};
ghost use Rattle.circuit.specs.Wires.{IsWire, lit_holds};
ghost use Rattle.patterns.specs.Letters.{form};
ghost use Rattle.goal_formula.specs.Parts.{IsHitBit, IsPassingBit, most_hit_gates, most_match_gates};
ghost use Rattle.goal_formula.specs.Sizes.{passing_size};
ghost use Rattle.goal_formula.specs.Steps.{HasWires};

use crate::matching::matched;
use bit_words::gates::{both, either};
use circuit::{Circuit, Lit, Memory};
use goals::{PassingPattern, Plan};
use patterns::{Letter, Pattern};
use std::alloc::Global;
use unwinder::Entry;

/// A literal that holds where at one of the entries that hold the run ends in a way that counts.
fn ended(circuit: &mut Circuit, entries: &[Entry]) -> Result<Lit, Memory>
    requires entries { Each entries.now (λ k e. HasWires circuit.old e) }
    requires room { length circuit.old + 2 * length entries.now ≤ 2 ^ 30 }
    ensures grows { Grows circuit.old circuit.new (2 * length entries.now) }
    ensures wire { IfOk result (λ l. IsWire circuit.new l) }
    ensures value { IfOk result (λ l. (w : World) → lit_holds circuit.new l w ≡ list_any (λ e. lit_holds circuit.old e.guard w && lit_holds circuit.old e.ended w) entries.now) }
{
    let mut some = Lit::NO;
    for entry in entries {
        let here = both(circuit, entry.guard, entry.ended)?;
        some = either(circuit, some, here)?;
    }
    Ok(some)
}

/// A literal that holds where the passing clause is met.
fn passed(
    alloc: Global,
    circuit: &mut Circuit,
    passing: &Option<PassingPattern>,
    entries: &[Entry],
) -> Result<Lit, Memory>
    requires entries { Each entries.now (λ k e. HasWires circuit.old e) }
    requires some { 0 < length entries.now }
    requires room { length circuit.old + most_match_gates (passing_size passing.now) (length entries.now) < 2 ^ 30 }
    ensures grows { Grows circuit.old circuit.new (most_match_gates (passing_size passing.now) (length entries.now)) }
    ensures bit { IfOk result (IsPassingBit circuit.old circuit.new entries.now passing.now) }
{
    match passing {
        None => Ok(Lit::YES),
        Some(passing) => {
            matched(
                alloc,
                circuit,
                &passing.pattern,
                passing.first,
                passing.last,
                entries,
            )
        }
    }
}

/// A literal that holds where the entries hit a goal of this pattern, in each world in which the first entry holds.
pub(crate) fn hit(
    alloc: Global,
    circuit: &mut Circuit,
    plan: &Plan,
    pattern: &Pattern<Letter>,
    entries: &[Entry],
) -> Result<Lit, Memory>
    requires entries { Each entries.now (λ k e. HasWires circuit.old e) }
    requires some { 0 < length entries.now }
    requires room { length circuit.old + most_hit_gates plan.now (form pattern.now) (length entries.now) < 2 ^ 30 }
    ensures grows { Grows circuit.old circuit.new (most_hit_gates plan.now (form pattern.now) (length entries.now)) }
    ensures bit { IfOk result (IsHitBit circuit.old circuit.new entries.now plan.now (form pattern.now)) }
{
    let own = matched(alloc, circuit, pattern, plan.first, plan.last, entries)?;
    let passing = passed(alloc, circuit, &plan.passing, entries)?;
    let end = ended(circuit, entries)?;
    let matches = both(circuit, own, passing)?;
    both(circuit, matches, end)
}
