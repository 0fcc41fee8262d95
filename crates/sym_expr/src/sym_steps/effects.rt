// What the operations of edges do to the words of cells.
ghost use Rattle.std.specs.Prelude.{◌≡◌, ℕ, ◌+◌, ◌*◌, ◌≤◌, ◌^◌, ◌&&◌, All, IfOk, OnOk, Some, length, sum_by, slice_get};
ghost use Rattle.std.specs.Result.{result_ok};
ghost use Rattle.circuit.specs.Truth.{World};
ghost use Rattle.circuit.specs.Wires.{IsWire, lit_holds};
ghost use Rattle.c_values.specs.Kind.{IsKind};
ghost use Rattle.cfa.specs.declared.expr.CellPlace.{CellPlace as Place};
ghost use Rattle.cfa.specs.declared.expr.Expr.{Expr as Expression};
ghost use Rattle.cfa.specs.Kinds.{kind_of};
ghost use Rattle.bit_words.specs.Words.{Grows, word_value};
ghost use Rattle.c_meaning.specs.Steps.{values_of};
ghost use Rattle.sym_expr.specs.Stores.{FitsWithin, PlaceFitsWithin, cells_in};
ghost use Rattle.sym_expr.specs.Weights.{place_weight, weight_of};
ghost use Rattle.sym_expr.specs.sym_steps.Effects.{assigned_cells, put_cells, words_in};
ghost use Rattle.sym_expr.specs.Weights.{dest_weight};

use crate::{SymStore, put, translate};
use bit_words::Word;
use bit_words::gates::both;
use c_values::Kind;
use cfa::{CellPlace, Expr, Frame};
use circuit::{Circuit, Lit, Memory};
use containers::Vector;
use std::alloc::Global;

/// Puts the value of an expression into the cell that a place names, and answers a literal that holds where neither traps
/// (ISO/IEC 9899:2011, 6.5.16.1).
pub(crate) fn assign(
    circuit: &mut Circuit,
    store: &mut SymStore,
    place: &CellPlace,
    value: &Expr,
    frame: &Frame,
) -> Result<Lit, Memory>
    requires cells { All (All (IsWire circuit.old)) store.old.cells }
    requires place { PlaceFitsWithin (length store.old.cells) frame.now place.now }
    requires value { FitsWithin (length store.old.cells) frame.now value.now }
    requires room { length circuit.old + (31 * (place_weight place.now (kind_of value.now).width + weight_of value.now) + 1) ≤ 2 ^ 30 }
    ensures grows { Grows circuit.old circuit.new (31 * (place_weight place.now (kind_of value.now).width + weight_of value.now) + 1) }
    ensures cells { OnOk result (All (All (IsWire circuit.new)) store.new.cells) }
    ensures count { OnOk result (length store.new.cells ≡ length store.old.cells) }
    ensures wire { IfOk result (λ c. IsWire circuit.new c) }
    ensures value { IfOk result (λ c. (w : World) → words_in circuit.new store.new.cells c w ≡ assigned_cells (cells_in circuit.old store.old.cells w) frame.now place.now value.now) }
{
    let (word, fine) = translate(circuit, value, store, frame)?;
    let inside = put(circuit, store, place, frame, &word, value.kind())?;
    let done = both(circuit, fine, inside)?;
    Ok(done)
}

/// Puts a word, at a kind, into the cell that a place names, where there is a place, and answers a literal that holds where
/// its index doesn't trap.
pub(crate) fn put_to(
    circuit: &mut Circuit,
    store: &mut SymStore,
    dest: &Option<CellPlace>,
    frame: &Frame,
    word: &Word,
    kind: Kind,
) -> Result<Lit, Memory>
    requires cells { All (All (IsWire circuit.old)) store.old.cells }
    requires dest { (place : Place) → dest.now ≡ Some place → PlaceFitsWithin (length store.old.cells) frame.now place }
    requires word { All (IsWire circuit.old) word.now }
    requires kind { IsKind kind }
    requires room { length circuit.old + 31 * dest_weight dest.now (Some kind) ≤ 2 ^ 30 }
    ensures grows { Grows circuit.old circuit.new (31 * dest_weight dest.now (Some kind)) }
    ensures cells { OnOk result (All (All (IsWire circuit.new)) store.new.cells) }
    ensures count { OnOk result (length store.new.cells ≡ length store.old.cells) }
    ensures wire { IfOk result (λ c. IsWire circuit.new c) }
    ensures value { IfOk result (λ c. (w : World) → words_in circuit.new store.new.cells c w ≡ put_cells (cells_in circuit.old store.old.cells w) frame.now dest.now (word_value circuit.old word.now w)) }
{
    match dest {
        None => Ok(Lit::YES),
        Some(place) => put(circuit, store, place, frame, word, kind),
    }
}

/// A literal that holds where both do. A constant takes no gate.
pub(crate) fn both_hold(circuit: &mut Circuit, a: Lit, b: Lit) -> Result<Lit, Memory>
    requires left { IsWire circuit.old a }
    requires right { IsWire circuit.old b }
    requires room { length circuit.old + 1 ≤ 2 ^ 30 }
    ensures grows { Grows circuit.old circuit.new 1 }
    ensures sure { b.wire ≡ 0 → Grows circuit.old circuit.new 0 }
    ensures wire { IfOk result (λ c. IsWire circuit.new c) }
    ensures value { IfOk result (λ c. (w : World) → lit_holds circuit.new c w ≡ (lit_holds circuit.old a w && lit_holds circuit.old b w)) }
{
    if b.wire() != 0 {
        return both(circuit, a, b);
    }
    if b.negated() { Ok(Lit::NO) } else { Ok(a) }
}

/// The words of expressions in order, and a literal that holds where none of them traps.
pub(crate) fn translate_all(
    alloc: Global,
    circuit: &mut Circuit,
    words: &[Expr],
    store: &SymStore,
    frame: &Frame,
) -> Result<(Vector<Word>, Lit), Memory>
    requires cells { All (All (IsWire circuit.old)) store.now.cells }
    requires fits { (k : ℕ) (word : Expression) → slice_get words.now k ≡ Some word → FitsWithin (length store.now.cells) frame.now word }
    requires room { length circuit.old + (32 * sum_by weight_of words.now + 1) ≤ 2 ^ 30 }
    ensures grows { Grows circuit.old circuit.new (32 * sum_by weight_of words.now + 1) }
    ensures words { IfOk result (λ r. All (All (IsWire circuit.new)) r.0) }
    ensures count { IfOk result (λ r. length r.0 ≡ length words.now) }
    ensures wire { IfOk result (λ r. IsWire circuit.new r.1) }
    ensures value { IfOk result (λ r. (w : World) → words_in circuit.new r.0 r.1 w ≡ result_ok (values_of (cells_in circuit.old store.now.cells w) frame.now words.now)) }
{
    let mut values = Vector::new(alloc);
    let mut fine = Lit::YES;
    for word in words {
        let (value, has_value) = translate(circuit, word, store, frame)?;
        values.push(value)?;
        fine = both_hold(circuit, fine, has_value)?;
    }
    Ok((values, fine))
}
