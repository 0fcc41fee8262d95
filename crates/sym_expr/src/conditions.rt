// Conditions over words of bits.
ghost use Rattle.std.specs.Prelude.{◌≡◌, ◌+◌, ◌≤◌, ◌^◌, ◌==◌, not, All, IfOk, length};
ghost use Rattle.std.specs.Option.{option_map};
ghost use Rattle.std.specs.Result.{result_ok};
ghost use Rattle.circuit.specs.Truth.{World};
ghost use Rattle.circuit.specs.Wires.{IsWire};
ghost use Rattle.cfa.specs.Values.{value_of};
ghost use Rattle.bit_words.specs.Words.{Grows};
ghost use Rattle.sym_expr.specs.Stores.{FitsWithin, cells_in, told_in};
ghost use Rattle.sym_expr.specs.Weights.{most_condition_wires, weight_of};

use crate::store::SymStore;
use crate::translation::translate;
use bit_words::nonzero;
use cfa::{Expr, Frame};
use circuit::{Circuit, Lit, Memory};

/// Whether a condition's value compares unequal to 0 over the cells of a store, where this frame runs (ISO/IEC 9899:2011,
/// 6.8.4.1p2), and a literal that holds where its evaluation doesn't trap.
///
/// In every world, let the cells be what their words are there. Where the second literal holds, the first tells whether
/// the value isn't 0, and where not, the evaluation traps.
pub fn condition(
    circuit: &mut Circuit,
    test: &Expr,
    store: &SymStore,
    frame: &Frame,
) -> Result<(Lit, Lit), Memory>
    requires cells { All (All (IsWire circuit.old)) store.now.cells }
    requires fits { FitsWithin (length store.now.cells) frame.now test.now }
    requires room { length circuit.old + most_condition_wires (weight_of test.now) ≤ 2 ^ 30 }
    ensures grows { Grows circuit.old circuit.new (most_condition_wires (weight_of test.now)) }
    ensures wires { IfOk result (λ r. IsWire circuit.new r.0 × IsWire circuit.new r.1) }
    ensures value { IfOk result (λ r. (w : World) → told_in circuit.new r w ≡ option_map (λ v. not (v == 0)) (result_ok (value_of (cells_in circuit.old store.now.cells w) frame.now test.now))) }
{
    let (word, fine) = translate(circuit, test, store, frame)?;
    let truth = nonzero(circuit, &word)?;
    Ok((truth, fine))
}
