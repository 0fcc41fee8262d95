// The truth of predicates in symbolic states, as literals.
ghost use Rattle.std.specs.Prelude.{◌≡◌, ◌+◌, ◌*◌, ◌≤◌, ◌^◌, All, IfOk, Some, length, map, slice_get, sum_by};
ghost use Rattle.circuit.specs.Truth.{World};
ghost use Rattle.circuit.specs.Wires.{IsWire, lit_holds};
ghost use Rattle.cfa.specs.declared.expr.Expr.{Expr as Expression};
ghost use Rattle.cfa.specs.Each.{Each};
ghost use Rattle.cfa.specs.Predicates.{IsPredicates};
ghost use Rattle.cfa.specs.States.{value_in};
ghost use Rattle.bit_words.specs.Words.{Grows};
ghost use Rattle.path_runner.specs.Masks.{holds, is_nonzero};
ghost use Rattle.sym_expr.specs.Stores.{FitsWithin};
ghost use Rattle.sym_expr.specs.Weights.{weight_of};
ghost use Rattle.sym_expr.specs.sym_steps.Steps.{AreStates, running_of, state_in};
ghost use Rattle.unwinder_reach.specs.unwinding_size.Sizes.{meaning_weight, predicates_weight};
ghost use Rattle.unwinder.specs.Lists.{truths_in};

use bit_words::gates::both;
use cfa::{Expr, Graph, Predicates, SharedExpr};
use circuit::{Circuit, Lit, Memory};
use containers::Vector;
use std::alloc::Global;
use sym_expr::condition;
use sym_expr::sym_steps::SymState;

/// A literal that holds where a condition has a value other than 0 in a state (ISO/IEC 9899:2011, 6.8.4.1p2).
fn held_condition(circuit: &mut Circuit, test: &Expr, state: &SymState) -> Result<Lit, Memory>
    requires cells { All (All (IsWire circuit.old)) state.now.store.cells }
    requires frames { 1 ≤ length state.now.frames }
    requires fits { FitsWithin (length state.now.store.cells) (running_of state.now.frames) test.now }
    requires room { length circuit.old + (31 * weight_of test.now + 65) ≤ 2 ^ 30 }
    ensures grows { Grows circuit.old circuit.new (31 * weight_of test.now + 65) }
    ensures wire { IfOk result (λ l. IsWire circuit.new l) }
    ensures value { IfOk result (λ l. (w : World) → lit_holds circuit.new l w ≡ is_nonzero (value_in (state_in circuit.old state.now w) test.now)) }
{
    let frame = &state.frames[state.frames.len() - 1];
    let (nonzero, fine) = condition(circuit, test, &state.store, frame)?;
    both(circuit, nonzero, fine)
}

/// A literal that holds where a predicate does, by its expressions for each scope.
fn truth(
    circuit: &mut Circuit,
    row: &[Option<SharedExpr>],
    scope: u32,
    state: &SymState,
) -> Result<Lit, Memory>
    requires cells { All (All (IsWire circuit.old)) state.now.store.cells }
    requires frames { 1 ≤ length state.now.frames }
    requires fits { (e : Expression) → slice_get row.now scope ≡ Some (Some e) → FitsWithin (length state.now.store.cells) (running_of state.now.frames) e }
    requires room { length circuit.old + (31 * meaning_weight (slice_get row.now scope) + 65) ≤ 2 ^ 30 }
    ensures grows { Grows circuit.old circuit.new (31 * meaning_weight (slice_get row.now scope) + 65) }
    ensures wire { IfOk result (λ l. IsWire circuit.new l) }
    ensures value { IfOk result (λ l. (w : World) → lit_holds circuit.new l w ≡ holds scope (state_in circuit.old state.now w) row.now) }
{
    match row.get(scope as usize) {
        Some(Some(test)) => held_condition(circuit, test.expr(), state),
        Some(None) => Ok(Lit::NO),
        None => Ok(Lit::NO),
    }
}

/// The truth of each predicate in a scope, as literals.
fn scoped_truths(
    alloc: Global,
    circuit: &mut Circuit,
    rows: &[Vector<Option<SharedExpr>>],
    scope: u32,
    state: &SymState,
) -> Result<Vector<Lit>, Memory>
    requires cells { All (All (IsWire circuit.old)) state.now.store.cells }
    requires frames { 1 ≤ length state.now.frames }
    requires fits { Each rows.now (λ at row. (e : Expression) → slice_get row scope ≡ Some (Some e) → FitsWithin (length state.now.store.cells) (running_of state.now.frames) e) }
    requires room { length circuit.old + (31 * sum_by (λ row. meaning_weight (slice_get row scope)) rows.now + 65 * length rows.now) ≤ 2 ^ 30 }
    ensures grows { Grows circuit.old circuit.new (31 * sum_by (λ row. meaning_weight (slice_get row scope)) rows.now + 65 * length rows.now) }
    ensures wires { IfOk result (λ ls. All (IsWire circuit.new) ls) }
    ensures count { IfOk result (λ ls. length ls ≡ length rows.now) }
    ensures value { IfOk result (λ ls. (w : World) → map (λ l. lit_holds circuit.new l w) ls ≡ map (holds scope (state_in circuit.old state.now w)) rows.now) }
{
    let mut literals = Vector::new(alloc);
    for row in rows {
        let literal = truth(circuit, row, scope, state)?;
        literals.push(literal)?;
    }
    Ok(literals)
}

/// The truth of each predicate where a state is, as literals.
pub(crate) fn truths(
    alloc: Global,
    circuit: &mut Circuit,
    graph: &Graph,
    predicates: &Predicates,
    state: &SymState,
) -> Result<Vector<Lit>, Memory>
    requires states { AreStates graph.now circuit.old state.now }
    requires cells { All (All (IsWire circuit.old)) state.now.store.cells }
    requires predicates { IsPredicates graph.now predicates.now }
    requires room { length circuit.old + (31 * predicates_weight graph.now predicates.now state.now.node + 65 * length predicates.now.meanings) ≤ 2 ^ 30 }
    ensures grows { Grows circuit.old circuit.new (31 * predicates_weight graph.now predicates.now state.now.node + 65 * length predicates.now.meanings) }
    ensures wires { IfOk result (λ ls. All (IsWire circuit.new) ls) }
    ensures count { IfOk result (λ ls. length ls ≡ length predicates.now.meanings) }
    ensures value { IfOk result (λ ls. (w : World) → map (λ l. lit_holds circuit.new l w) ls ≡ truths_in graph.now predicates.now (state_in circuit.old state.now w)) }
{
    graph.well_formed();
    let scope = graph.nodes()[state.node as usize].scope;
    scoped_truths(alloc, circuit, &predicates.meanings, scope, state)
}
