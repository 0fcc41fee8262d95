// Circuits of the 32 bits of an int, on the wires 1 to 32, and the formulas of their literals.
ghost use Rattle.std.specs.Prelude.{◌≡◌, ◌∷◌, [], ◌^◌, ◌≤◌};
ghost use Rattle.c_values.specs.declared.kinds.Kind.{Kind as OneKind};
ghost use Rattle.circuit.specs.Wires.{input_count};
ghost use Rattle.goal_formula.specs.Forms.{HasWorlds};
ghost use Rattle.search.specs.Laws.{IsFormula};

use bit_words::Word;
use c_values::Kind;
use circuit::{Circuit, Lit, Truth};
use goal_formula::{GoalFormula, literal_formula};
use std::alloc::Global;
use std::process::Abort;
use unwinder::input_words::inputs;

/// The bits of an int, and nothing else.
pub(crate) fn bits_of_an_int(rt: &impl Abort, alloc: Global) -> (Circuit, Word)
    ensures { input_count result.0 ≡ 32 }
{
    let mut circuit = Circuit::new(alloc);
    let made = inputs(alloc, &mut circuit, &[Kind::INT], 0).expect(rt, "no memory");
    let bits = made.words[0];
    (circuit, bits)
}

/// A gate of two literals.
pub(crate) fn gate(rt: &impl Abort, circuit: &mut Circuit, left: Lit, right: Lit) -> Lit
    ensures { input_count circuit.new ≡ input_count circuit.old }
{
    let wires = circuit.wires();
    assert!(rt; left.wire() <= wires && right.wire() <= wires && wires < 1 << 30);
    circuit.and(left, right).expect(rt, "no memory")
}

/// The literal of the other sign.
pub(crate) fn negation(rt: &impl Abort, circuit: &mut Circuit, lit: Lit) -> Lit
    ensures { input_count circuit.new ≡ input_count circuit.old }
{
    let wires = circuit.wires();
    assert!(rt; lit.wire() <= wires && wires < 1 << 30);
    circuit.not(lit).expect(rt, "no memory")
}

/// The formula that says that a literal holds.
pub(crate) fn formula_of(
    rt: &impl Abort,
    alloc: Global,
    circuit: &Circuit,
    literal: Lit,
) -> GoalFormula
    requires { input_count circuit.now ≡ 32 }
    ensures worlds { HasWorlds circuit.now result }
    ensures formula { IsFormula result.formula }
{
    assert!(rt; literal.wire() <= circuit.wires() && circuit.wires() <= 1 << 30);
    literal_formula(alloc, circuit, literal, &[Kind::INT], 0).expect(rt, "no memory")
}
