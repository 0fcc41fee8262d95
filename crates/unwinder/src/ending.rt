// The ends of runs that count, as literals.
ghost use Rattle.std.specs.Prelude.{◌≡◌, ◌+◌, ◌≤◌, ◌^◌, IfOk, length};
ghost use Rattle.std.specs.List.{list_any};
ghost use Rattle.cfa.specs.Each.{Each};
ghost use Rattle.circuit.specs.Truth.{World};
ghost use Rattle.circuit.specs.Wires.{IsWire, lit_holds};
ghost use Rattle.bit_words.specs.Words.{Grows};
ghost use Rattle.c_meaning.specs.declared.stepped.Stepped.{Stepped};
ghost use Rattle.c_meaning.specs.Runs.{counts};
ghost use Rattle.sym_expr.specs.sym_steps.Steps.{Tells};

use bit_words::gates::{either, inverse};
use c_meaning::Ends;
use circuit::{Circuit, Lit, Memory};
use sym_expr::sym_steps::{SymStep, Way};

/// A literal that holds where the run goes on along one of the ways, of which there are at most two.
fn some_way(circuit: &mut Circuit, ways: &[Way]) -> Result<Lit, Memory>
    requires wires { Each ways.now (λ k way. IsWire circuit.old way.taken) }
    requires few { length ways.now ≤ 2 }
    requires room { length circuit.old + 1 ≤ 2 ^ 30 }
    ensures grows { Grows circuit.old circuit.new 1 }
    ensures wire { IfOk result (λ l. IsWire circuit.new l) }
    ensures value { IfOk result (λ l. (w : World) → lit_holds circuit.new l w ≡ list_any (λ way. lit_holds circuit.old way.taken w) ways.now) }
{
    match ways {
        [] => Ok(Lit::NO),
        [only] => Ok(only.taken),
        [first, second, ..] => either(circuit, first.taken, second.taken),
    }
}

/// A literal that holds where what comes next is an end that counts.
pub(crate) fn ended(circuit: &mut Circuit, ends: Ends, step: &SymStep) -> Result<Lit, Memory>
    requires ways { Each step.now.ways (λ k way. IsWire circuit.old way.taken) }
    requires traps { IsWire circuit.old step.now.traps }
    requires few { length step.now.ways ≤ 2 }
    requires room { length circuit.old + 3 ≤ 2 ^ 30 }
    ensures grows { Grows circuit.old circuit.new 3 }
    ensures wire { IfOk result (λ l. IsWire circuit.new l) }
    ensures value { IfOk result (λ l. (w : World) (next : Stepped) → Tells circuit.old step.now w next → lit_holds circuit.new l w ≡ counts ends next) }
{
    if step.returns {
        return Ok(Lit::YES);
    }
    match ends {
        Ends::Returned => Ok(Lit::NO),
        Ends::Trapped => Ok(step.traps),
        Ends::Any => {
            let onward = some_way(circuit, &step.ways)?;
            inverse(circuit, onward)
        }
    }
}
