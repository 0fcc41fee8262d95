// The clauses of gates and of the root.
ghost use Rattle.std.specs.Prelude.{◌≡◌, ◌∷◌, [], ◌++◌, ◌≤◌, ◌<◌, ◌^◌, neg_ℤ, length, IfOk, OnOk};
ghost use Rattle.std.specs.List.{flat_map, range_with_len};
ghost use Rattle.cnf.specs.Clauses.{IsClause};
ghost use Rattle.clause_form.specs.Encoding.{disjunction, wire_clauses};
ghost use Rattle.clause_form.specs.Parts.{AreVariables, HasRootVariable, conjunction_clauses, variable_count};

use crate::literals::literal_of;
use circuit::{Circuit, Gate, Lit};
use cnf::{Clause, negation};
use containers::Vector;
use fq_core::Memory;
use std::alloc::Global;

/// The clauses of all gates whose wires have variables, in the order of wires.
pub(crate) fn clauses_of_gates(
    alloc: Global,
    circuit: &Circuit,
    variable: &[Option<u32>],
) -> Result<Vector<Clause>, Memory>
    requires variables { AreVariables circuit.now variable.now (variable_count variable.now) }
    requires few { length circuit.now ≤ 2 ^ 30 }
    ensures { IfOk result (λ clauses. clauses ≡ flat_map (wire_clauses circuit.now variable.now) (range_with_len 1 (length circuit.now))) }
{
    let mut clauses = Vector::new(alloc);
    for place in 0..circuit.wires() {
        push_wire(alloc, &mut clauses, circuit, variable, place + 1)?;
    }
    Ok(clauses)
}

// Appends the clauses of a wire's gate.
fn push_wire(
    alloc: Global,
    clauses: &mut Vector<Clause>,
    circuit: &Circuit,
    variable: &[Option<u32>],
    wire: u32,
) -> Result<(), Memory>
    requires variables { AreVariables circuit.now variable.now (variable_count variable.now) }
    requires few { length circuit.now ≤ 2 ^ 30 }
    requires some { 0 < wire }
    requires within { wire ≤ length circuit.now }
    ensures { OnOk result (clauses.new ≡ clauses.old ++ wire_clauses circuit.now variable.now wire) }
{
    if let Some(number) = variable[wire as usize - 1]
        && let Gate::And { left, right } = circuit.gate(wire)
    {
        let left = literal_of(variable, left);
        let right = literal_of(variable, right);
        push_conjunction(alloc, clauses, number as i32, left, right)?;
    }
    Ok(())
}

// Appends what says that a literal holds exactly where two others do.
fn push_conjunction(
    alloc: Global,
    clauses: &mut Vector<Clause>,
    both: i32,
    left: i32,
    right: i32,
) -> Result<(), Memory>
    requires implies_left { IsClause (left ∷ neg_ℤ both ∷ []) }
    requires implies_right { IsClause (right ∷ neg_ℤ both ∷ []) }
    requires implied { IsClause (neg_ℤ left ∷ neg_ℤ right ∷ both ∷ []) }
    ensures { OnOk result (clauses.new ≡ clauses.old ++ conjunction_clauses both left right) }
{
    let not_both = negation(both);
    push(alloc, clauses, &[left, not_both])?;
    push(alloc, clauses, &[right, not_both])?;
    push(alloc, clauses, &[negation(left), negation(right), both])?;
    Ok(())
}

// Appends a clause.
fn push(alloc: Global, clauses: &mut Vector<Clause>, literals: &[i32]) -> Result<(), Memory>
    requires { IsClause literals.now }
    ensures { OnOk result (clauses.new ≡ clauses.old ++ literals.now ∷ []) }
{
    let clause = Clause::from_rising(alloc, literals)?;
    clauses.push(clause)?;
    Ok(())
}

/// Appends what says that the root holds.
pub(crate) fn push_root(
    alloc: Global,
    clauses: &mut Vector<Clause>,
    variable: &[Option<u32>],
    root: Lit,
) -> Result<(), Memory>
    requires { HasRootVariable variable.now root }
    ensures { OnOk result (clauses.new ≡ clauses.old ++ disjunction variable.now (root ∷ [])) }
{
    if root.wire() > 0 {
        let literal = literal_of(variable, root);
        push(alloc, clauses, &[literal])?;
    } else if root.negated() {
        push(alloc, clauses, &[])?;
    }
    Ok(())
}
