// What cells hold, and the elements that indexes name.
ghost use Rattle.std.specs.Prelude.{◌≡◌, ℕ, ◌==◌, ◌||◌, ◌+◌, ◌*◌, ◌≤◌, ◌<◌, ◌^◌, if◌then◌else◌, nat_lt, pos, All, IfOk, List, Some, None, length, slice_index};
ghost use Rattle.std.specs.Option.{option_and_then};
ghost use Rattle.circuit.specs.Truth.{World};
ghost use Rattle.circuit.specs.Wires.{IsWire, lit_holds};
ghost use Rattle.circuit.specs.declared.lit.Gate.{Gate};
ghost use Rattle.c_values.specs.Kind.{IsKind, wrapped};
ghost use Rattle.cfa.specs.Values.{array_start};
ghost use Rattle.bit_words.specs.Words.{Grows, IsWord, word_value};
ghost use Rattle.sym_expr.specs.Stores.{cells_in, outcome_in};
ghost use Rattle.sym_expr.specs.Weights.{element_weight, most_expression_wires};

use crate::patterns::is_pattern;
use crate::store::SymStore;
use bit_words::gates::{both, either};
use bit_words::{Word, choose, constant, extended};
use c_values::Kind;
use cfa::{ArrayPlace, Frame};
use circuit::{Circuit, Lit, Memory};

/// What a cell holds, as a value of a kind, beside the literal that always holds.
pub(crate) fn held(store: &SymStore, cell: usize, kind: Kind) -> (Word, Lit)
    requires cell { cell < length store.now.cells }
    requires kind { IsKind kind }
    ensures word { (gates : List Gate) → All (All (IsWire gates)) store.now.cells → IsWord gates kind result.0 }
    ensures wire { (gates : List Gate) → IsWire gates result.1 }
    ensures sure { result.1.wire ≡ 0 }
    ensures value { (gates : List Gate) → All (All (IsWire gates)) store.now.cells → (w : World) → outcome_in gates result w ≡ Some (wrapped kind (pos (slice_index (cells_in gates store.now.cells w) cell))) }
{
    (extended(store.cells.at(cell), kind), Lit::YES)
}

/// The place of an array's first cell among all cells.
pub fn array_start(array: ArrayPlace, frame: &Frame) -> usize
    ensures place { (cells : List ℕ) → result ≡ array_start cells frame.now array }
{
    match array {
        ArrayPlace::Global(first) => first as usize,
        ArrayPlace::Local(first) => frame.base as usize + first as usize,
        ArrayPlace::Lent(parameter) => {
            let arrays = frame.arrays.as_slice();
            arrays.get(parameter as usize).copied().unwrap_or(0) as usize
        }
    }
}

/// What an element holds that an index names, as a value of a kind, where the literal beside the index holds. An array's
/// elements lie one after another, and an index names the one at its place, if it is below their number
/// (ISO/IEC 9899:2011, 6.5.2.1p2 and 6.5.6p8).
pub(crate) fn element(
    circuit: &mut Circuit,
    elements: &[Word],
    index: &(Word, Lit),
    kind: Kind,
) -> Result<(Word, Lit), Memory>
    requires elements { All (All (IsWire circuit.old)) elements.now }
    requires index { All (IsWire circuit.old) index.now.0 }
    requires wire { IsWire circuit.old index.now.1 }
    requires kind { IsKind kind }
    requires room { length circuit.old + most_expression_wires (element_weight (length elements.now) kind.width) ≤ 2 ^ 30 }
    ensures grows { Grows circuit.old circuit.new (most_expression_wires (element_weight (length elements.now) kind.width)) }
    ensures word { IfOk result (λ r. IsWord circuit.new kind r.0) }
    ensures wire { IfOk result (λ r. IsWire circuit.new r.1) }
    ensures sure { length elements.now ≡ 0 → IfOk result (λ r. r.1.wire ≡ 0) }
    ensures value { IfOk result (λ r. (w : World) → outcome_in circuit.new r w ≡ option_and_then (λ i. if nat_lt i (length elements.now) then Some (wrapped kind (pos (slice_index (cells_in circuit.old elements.now w) i))) else None) (outcome_in circuit.old index.now w)) }
{
    let count = elements.len();
    if count == 0 {
        return Ok((constant(0), Lit::NO));
    }
    let (word, named) = selection(circuit, elements, &index.0)?;
    let fine = both(circuit, index.1, named)?;
    Ok((extended(&word, kind), fine))
}

/// The word of the element that an index names, and whether it names one: each place is compared with it.
fn selection(circuit: &mut Circuit, elements: &[Word], index: &Word) -> Result<(Word, Lit), Memory>
    requires elements { All (All (IsWire circuit.old)) elements.now }
    requires index { All (IsWire circuit.old) index.now }
    requires room { length circuit.old + 385 * length elements.now ≤ 2 ^ 30 }
    ensures grows { Grows circuit.old circuit.new (385 * length elements.now) }
    ensures wires { IfOk result (λ r. All (IsWire circuit.new) r.0 × IsWire circuit.new r.1) }
    ensures value { IfOk result (λ r. (w : World) → let i = word_value circuit.old index.now w in outcome_in circuit.new r w ≡ (if nat_lt i (length elements.now) then Some (slice_index (cells_in circuit.old elements.now w) i) else None)) }
{
    let mut selected = (constant(0), Lit::NO);
    for k in 0..elements.len() {
        let next = with_element(circuit, index, k as u64, &elements[k], &selected)?;
        selected = next;
    }
    Ok(selected)
}

/// The word of an element where the index is its place, and what was selected before where not.
pub(crate) fn with_element(
    circuit: &mut Circuit,
    index: &Word,
    place: u64,
    element: &Word,
    before: &(Word, Lit),
) -> Result<(Word, Lit), Memory>
    requires index { All (IsWire circuit.old) index.now }
    requires element { All (IsWire circuit.old) element.now }
    requires before { All (IsWire circuit.old) before.now.0 }
    requires wire { IsWire circuit.old before.now.1 }
    requires room { length circuit.old + 385 ≤ 2 ^ 30 }
    ensures grows { Grows circuit.old circuit.new 385 }
    ensures wires { IfOk result (λ r. All (IsWire circuit.new) r.0 × IsWire circuit.new r.1) }
    ensures chosen { IfOk result (λ r. (w : World) → word_value circuit.new r.0 w ≡ (if word_value circuit.old index.now w == place then word_value circuit.old element.now w else word_value circuit.old before.now.0 w)) }
    ensures named { IfOk result (λ r. (w : World) → lit_holds circuit.new r.1 w ≡ ((word_value circuit.old index.now w == place) || lit_holds circuit.old before.now.1 w)) }
    ensures value { IfOk result (λ r. (w : World) → outcome_in circuit.new r w ≡ (if word_value circuit.old index.now w == place then Some (word_value circuit.old element.now w) else outcome_in circuit.old before.now w)) }
{
    let here = is_pattern(circuit, index, place)?;
    let word = choose(circuit, here, element, &before.0)?;
    let named = either(circuit, here, before.1)?;
    Ok((word, named))
}
