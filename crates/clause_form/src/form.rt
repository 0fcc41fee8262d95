// The clause form of a literal.
ghost use Rattle.std.specs.Prelude.{◌≡◌, ◌↔◌, ◌+◌, ◌*◌, ◌≤◌, ◌<◌, ◌^◌, ℕ, Bool, true, length, IsSome, IfOk};
ghost use Rattle.std.specs.List.{filter_map, list_all, range_with_len};
ghost use Rattle.circuit.specs.Truth.{World};
ghost use Rattle.circuit.specs.Wires.{IsWire, lit_holds};
ghost use Rattle.cnf.specs.Formulas.{Satisfies};
ghost use Rattle.clause_form.specs.Cone.{IsInCone};
ghost use Rattle.clause_form.specs.Encoding.{cone_clauses, is_over, variable_of};
ghost use Rattle.clause_form.specs.Worlds.{AgreesOnInputs, AgreesOnWires, assignment_of, world_of};

use crate::clauses::{clauses_of_gates, push_root};
use crate::numbers::cone_variables;
use circuit::{Circuit, Lit};
use cnf::Formula;
use containers::Vector;
use fq_core::Memory;
use std::alloc::Global;

/// What says that a literal of a circuit holds, as a formula.
#[derive(Debug, Drop)]
pub struct ClauseForm {
    pub formula: Formula,
    /// The variable of each wire of the circuit, from wire 1 on.
    pub variable: Vector<Option<u32>>,
}

/// The clauses of a literal's cone: an assignment satisfies them exactly where it is what the wires hold in a world in which
/// the literal holds. Want of memory is the only other answer. Takes time and memory in proportion to the cone, and to a
/// table of all wires.
pub fn clause_form(alloc: Global, circuit: &Circuit, root: Lit) -> Result<ClauseForm, Memory>
    requires root { IsWire circuit.now root }
    requires few { length circuit.now ≤ 2 ^ 30 }
    // The wires of the cone have the variables, numbered from 1 in their order.
    ensures wires { IfOk result (λ form. length form.variable ≡ length circuit.now) }
    ensures cone { IfOk result (λ form. (wire : ℕ) → 0 < wire → IsSome (variable_of form.variable wire) ↔ IsInCone circuit.now root wire) }
    ensures numbers { IfOk result (λ form. filter_map (λ v. v) form.variable ≡ range_with_len 1 form.formula.variables) }
    ensures clauses { IfOk result (λ form. form.formula.clauses ≡ cone_clauses circuit.now form.variable root) }
    // An assignment that satisfies the formula is what the wires hold in a world in which the root holds, and each such
    // world gives one.
    ensures world { IfOk result (λ form. (value : ℕ → Bool) → AgreesOnInputs circuit.now form.variable value (world_of circuit.now form.variable value)) }
    ensures sound { IfOk result (λ form. (value : ℕ → Bool) (world : World) → Satisfies value form.formula
        → AgreesOnInputs circuit.now form.variable value world → lit_holds circuit.now root world ≡ true) }
    ensures determined { IfOk result (λ form. (value : ℕ → Bool) (world : World) → Satisfies value form.formula
        → AgreesOnInputs circuit.now form.variable value world → AgreesOnWires circuit.now form.variable value world) }
    ensures assignment { IfOk result (λ form. (world : World) → AgreesOnWires circuit.now form.variable (assignment_of circuit.now form.variable world) world) }
    ensures complete { IfOk result (λ form. (value : ℕ → Bool) (world : World) → lit_holds circuit.now root world ≡ true
        → AgreesOnWires circuit.now form.variable value world → Satisfies value form.formula) }
    // How large it is.
    ensures over { IfOk result (λ form. list_all (list_all (is_over form.formula.variables)) form.formula.clauses ≡ true) }
    ensures few_variables { IfOk result (λ form. form.formula.variables ≤ length circuit.now) }
    ensures few_clauses { IfOk result (λ form. length form.formula.clauses ≤ 3 * form.formula.variables + 1) }
{
    let made = cone_variables(alloc, circuit, root)?;
    let mut clauses = clauses_of_gates(alloc, circuit, &made.variable)?;
    push_root(alloc, &mut clauses, &made.variable, root)?;
    let formula = Formula {
        variables: made.count,
        clauses,
    };
    Ok(ClauseForm {
        formula,
        variable: made.variable,
    })
}
