// The formula of the inputs that leave bounds.
ghost use Rattle.std.specs.Prelude.{◌≡◌, ◌+◌, ◌*◌, ◌≤◌, ◌^◌, ◌&&◌, IfOk, length};
ghost use Rattle.std.specs.List.{list_any};
ghost use Rattle.bit_words.specs.Words.{Grows};
ghost use Rattle.cfa.specs.Each.{Each};
ghost use Rattle.circuit.specs.Truth.{World};
ghost use Rattle.circuit.specs.Wires.{IsWire, lit_holds};
ghost use Rattle.goal_formula.specs.Steps.{HasWires};
ghost use Rattle.bounds_check.specs.Parts.{CanSay, IsOpenBit, SaysOpen};

use bit_words::gates::{both, either, inverse};
use c_values::Kind;
use circuit::{Circuit, Lit, Memory as NoGate};
use fq_core::Memory;
use goal_formula::{GoalFormula, literal_formula};
use std::alloc::Global;
use unwinder::{Entry, Unwound};

/// A literal that holds where at one of the entries that hold the run ends.
fn some_ended(circuit: &mut Circuit, entries: &[Entry]) -> Result<Lit, NoGate>
    requires entries { Each entries.now (λ k e. HasWires circuit.old e) }
    requires room { length circuit.old + 2 * length entries.now ≤ 2 ^ 30 }
    ensures grows { Grows circuit.old circuit.new (2 * length entries.now) }
    ensures wire { IfOk result (λ l. IsWire circuit.new l) }
    ensures value { IfOk result (λ l. (w : World) → lit_holds circuit.new l w ≡ list_any
        (λ e. lit_holds circuit.old e.guard w && lit_holds circuit.old e.ended w) entries.now) }
{
    let mut some = Lit::NO;
    for entry in entries {
        let here = both(circuit, entry.guard, entry.ended)?;
        some = either(circuit, some, here)?;
    }
    Ok(some)
}

/// A literal that holds where no entry that holds has ended.
fn none_ended(circuit: &mut Circuit, entries: &[Entry]) -> Result<Lit, NoGate>
    requires entries { Each entries.now (λ k e. HasWires circuit.old e) }
    requires room { length circuit.old + (2 * length entries.now + 1) ≤ 2 ^ 30 }
    ensures grows { Grows circuit.old circuit.new (2 * length entries.now + 1) }
    ensures bit { IfOk result (IsOpenBit circuit.old circuit.new entries.now) }
{
    let some = some_ended(circuit, entries)?;
    let none = inverse(circuit, some)?;
    Ok(none)
}

/// The formula that says that no entry of an unwinding that holds has ended, over the bits of inputs with these parameters.
pub(crate) fn open_formula(
    alloc: Global,
    unwound: Unwound,
    parameters: &[Kind],
) -> Result<GoalFormula, Memory>
    requires { CanSay parameters.now unwound }
    ensures { IfOk result
        (SaysOpen unwound.circuit unwound.entries parameters.now unwound.bounds.answers) }
{
    let mut circuit = unwound.circuit;
    match none_ended(&mut circuit, &unwound.entries) {
        Err(_) => Err(Memory),
        Ok(root) => literal_formula(alloc, &circuit, root, parameters, unwound.bounds.answers),
    }
}
