// The cone of influence of a literal.
ghost use Rattle.std.specs.Prelude.{◌≡◌, ◌+◌, ◌-◌, ◌≤◌, ◌<◌, ◌&&◌, ◌||◌, ℕ, false, true, length, slice_index_or, Some, IfOk};
ghost use Rattle.circuit.specs.declared.lit.Gate.{Gate};
ghost use Rattle.circuit.specs.Wires.{IsWire};
ghost use Rattle.clause_form.specs.Cone.{gate_on};
ghost use Rattle.clause_form.specs.Parts.{ArePartsBelow, IsGateAt, IsMarkedFrom, is_part};

use circuit::{Circuit, Gate, Lit};
use fq_core::Memory;
use std::alloc::Global;

/// A mark for each wire, from the constant on: whether a literal reaches it through gates. The parts of a gate lie on lower
/// wires, so that a scan from the literal's wire down comes to each wire after all those that reach it.
pub(crate) fn cone(alloc: Global, circuit: &Circuit, root: Lit) -> Result<Vec<bool>, Memory>
    requires { IsWire circuit.now root }
    ensures { IfOk result (λ marks. IsMarkedFrom circuit.now root 0 marks.items) }
{
    let mut marks = vec![in alloc; false; circuit.wires() as usize + 1]?;
    marks[root.wire() as usize] = true;
    for place in (0..root.wire()).rev() {
        visit(circuit, &mut marks, place + 1);
    }
    Ok(marks)
}

// Marks the parts of a wire's gate, where the wire is marked.
fn visit(circuit: &Circuit, marks: &mut [bool], wire: u32)
    requires some { 0 < wire }
    requires within { wire ≤ length circuit.now }
    requires size { length marks.old ≡ length circuit.now + 1 }
    ensures marks { (g : Gate) → gate_on circuit.now wire ≡ Some g →
        (w : ℕ) → slice_index_or marks.new w false ≡ (slice_index_or marks.old w false || (slice_index_or marks.old wire false && is_part w g)) }
    ensures gate { slice_index_or marks.old wire false ≡ true → (g : Gate) → gate_on circuit.now wire ≡ Some g → IsGateAt circuit.now (wire - 1) g }
{
    if marks[wire as usize] {
        mark_parts(marks, circuit.gate(wire));
    }
}

// Marks the parts of a gate.
fn mark_parts(marks: &mut [bool], gate: Gate)
    requires { ArePartsBelow (length marks.old) gate }
    ensures { (w : ℕ) → slice_index_or marks.new w false ≡ (slice_index_or marks.old w false || is_part w gate) }
{
    if let Gate::And { left, right } = gate {
        marks[left.wire() as usize] = true;
        marks[right.wire() as usize] = true;
    }
}
