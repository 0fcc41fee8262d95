// Expressions as words of bits.
ghost use Rattle.std.specs.Prelude.{◌≡◌, ◌+◌, ◌*◌, ◌≤◌, ◌^◌, All, IfOk, length};
ghost use Rattle.std.specs.Result.{result_ok};
ghost use Rattle.circuit.specs.Truth.{World};
ghost use Rattle.circuit.specs.Wires.{IsWire};
ghost use Rattle.c_values.specs.Kind.{IsKind};
ghost use Rattle.cfa.specs.Kinds.{kind_of};
ghost use Rattle.cfa.specs.Values.{value_of};
ghost use Rattle.bit_words.specs.Words.{Grows, IsWord};
ghost use Rattle.sym_expr.specs.Stores.{FitsWithin, PlaceFitsWithin, cells_in, outcome_in};
ghost use Rattle.sym_expr.specs.Weights.{most_expression_wires, place_weight, weight_of};

use crate::elements::{array_start, element, held};
use crate::operators::{operated, unary};
use crate::store::SymStore;
use bit_words::{Word, constant, convert};
use c_values::Kind;
use cfa::{CellPlace, Expr, Frame};
use circuit::{Circuit, Lit, Memory};

/// The word that an expression comes to over the cells of a store, where this frame runs, and a literal that holds where
/// its evaluation doesn't trap.
///
/// In every world, let the cells be what their words are there. Where the literal holds, the word is the expression's
/// value, and where not, its evaluation traps. The word is one of the expression's kind also there. The literal of an
/// expression that weighs nothing is a constant.
#[cycle(translation)]
pub fn translate(
    circuit: &mut Circuit,
    expr: &Expr,
    store: &SymStore,
    frame: &Frame,
) -> Result<(Word, Lit), Memory>
    requires cells { All (All (IsWire circuit.old)) store.now.cells }
    requires fits { FitsWithin (length store.now.cells) frame.now expr.now }
    requires room { length circuit.old + most_expression_wires (weight_of expr.now) ≤ 2 ^ 30 }
    ensures grows { Grows circuit.old circuit.new (most_expression_wires (weight_of expr.now)) }
    ensures word { IfOk result (λ r. IsWord circuit.new (kind_of expr.now) r.0) }
    ensures wire { IfOk result (λ r. IsWire circuit.new r.1) }
    ensures sure { weight_of expr.now ≡ 0 → IfOk result (λ r. r.1.wire ≡ 0) }
    ensures value { IfOk result (λ r. (w : World) → outcome_in circuit.new r w ≡ result_ok (value_of (cells_in circuit.old store.now.cells w) frame.now expr.now)) }
{
    match expr {
        Expr::Constant(value, _kind) => Ok((constant(*value), Lit::YES)),
        Expr::Load(place, kind) => loaded(circuit, place, *kind, store, frame),
        Expr::Convert(operand, kind) => {
            let (number, fine) = translate(circuit, operand, store, frame)?;
            Ok((convert(&number, operand.kind(), *kind), fine))
        }
        Expr::Unary(op, operand, kind) => {
            let (argument, fine) = translate(circuit, operand, store, frame)?;
            let value = unary(circuit, *op, &argument, *kind)?;
            Ok((value, fine))
        }
        Expr::Binary(op, left, right, kind) => {
            let first = translate(circuit, left, store, frame)?;
            let second = translate(circuit, right, store, frame)?;
            operated(circuit, *op, &first, *kind, &second, right.kind())
        }
    }
}

/// What a place holds, as a value of a kind, and a literal that holds where its index doesn't trap and names an element.
#[cycle(translation)]
fn loaded(
    circuit: &mut Circuit,
    place: &CellPlace,
    kind: Kind,
    store: &SymStore,
    frame: &Frame,
) -> Result<(Word, Lit), Memory>
    requires cells { All (All (IsWire circuit.old)) store.now.cells }
    requires fits { PlaceFitsWithin (length store.now.cells) frame.now place.now }
    requires kind { IsKind kind }
    requires room { length circuit.old + most_expression_wires (place_weight place.now kind.width) ≤ 2 ^ 30 }
    ensures grows { Grows circuit.old circuit.new (most_expression_wires (place_weight place.now kind.width)) }
    ensures word { IfOk result (λ r. IsWord circuit.new kind r.0) }
    ensures wire { IfOk result (λ r. IsWire circuit.new r.1) }
    ensures sure { place_weight place.now kind.width ≡ 0 → IfOk result (λ r. r.1.wire ≡ 0) }
    ensures value { IfOk result (λ r. (w : World) → outcome_in circuit.new r w ≡ result_ok (value_of (cells_in circuit.old store.now.cells w) frame.now (Expr.Load place.now kind))) }
{
    match place {
        CellPlace::Global(cell) => Ok(held(store, *cell as usize, kind)),
        CellPlace::Local(cell) => {
            let at = frame.base as usize + *cell as usize;
            Ok(held(store, at, kind))
        }
        CellPlace::Element {
            array,
            index,
            length,
        } => {
            let named = translate(circuit, index, store, frame)?;
            let _count = store.cells.len();
            let start = array_start(*array, frame);
            let end = start + *length as usize;
            let elements = store.cells.range(start, end)?;
            element(circuit, elements.as_slice(), &named, kind)
        }
    }
}
