// The variables of a cone.
ghost use Rattle.std.specs.Prelude.{◌≡◌, ◌↔◌, ◌≤◌, ◌<◌, ◌^◌, ℕ, length, map, IfOk, IsSome};
ghost use Rattle.std.specs.Option.{is_some};
ghost use Rattle.std.specs.List.{filter_map, range_with_len};
ghost use Rattle.circuit.specs.Wires.{IsWire};
ghost use Rattle.clause_form.specs.Cone.{IsInCone};
ghost use Rattle.clause_form.specs.Encoding.{variable_of};
ghost use Rattle.clause_form.specs.Parts.{AreVariables, HasRootVariable};

use crate::cone::cone;
use circuit::{Circuit, Lit};
use containers::Vector;
use fq_core::Memory;
use std::alloc::Global;

/// Variables, numbered in order from 1.
#[derive(Drop)]
pub(crate) struct Variables {
    /// The variable at each place, if it has one.
    pub(crate) variable: Vector<Option<u32>>,
    /// How many there are.
    pub(crate) count: u32,
}

/// The variables of the wires that a literal reaches through gates.
pub(crate) fn cone_variables(
    alloc: Global,
    circuit: &Circuit,
    root: Lit,
) -> Result<Variables, Memory>
    requires root { IsWire circuit.now root }
    requires few { length circuit.now ≤ 2 ^ 30 }
    ensures variables { IfOk result (λ made. AreVariables circuit.now made.variable made.count) }
    ensures cone { IfOk result (λ made. (wire : ℕ) → 0 < wire → IsSome (variable_of made.variable wire) ↔ IsInCone circuit.now root wire) }
    ensures root { IfOk result (λ made. HasRootVariable made.variable root) }
    ensures few { IfOk result (λ made. made.count ≤ length circuit.now) }
{
    let marks = cone(alloc, circuit, root)?;
    let made = numbered(alloc, &marks[1..])?;
    Ok(made)
}

// A variable for each mark.
fn numbered(alloc: Global, marks: &[bool]) -> Result<Variables, Memory>
    requires { length marks.now < 2 ^ 32 }
    ensures marked { IfOk result (λ made. map is_some made.variable ≡ marks.now) }
    ensures numbers { IfOk result (λ made. filter_map (λ v. v) made.variable ≡ range_with_len 1 made.count) }
{
    let mut variable = Vec::with_capacity(alloc, marks.len())?;
    let mut count = 0;
    for marked in marks {
        if *marked {
            count += 1;
            variable.push(Some(count))?;
        } else {
            variable.push(None)?;
        }
    }
    Ok(Variables {
        variable: Vector::from_vec(variable),
        count,
    })
}
