// Words put into stores.
ghost use Rattle.std.specs.Prelude.{◌≡◌, ℕ, ◌+◌, ◌*◌, ◌≤◌, ◌<◌, ◌^◌, ◌&&◌, All, IfOk, OnOk, Ok, if◌then◌else◌, nat_lt, length, slice_set};
ghost use Rattle.std.specs.Result.{is_ok};
ghost use Rattle.circuit.specs.Truth.{World};
ghost use Rattle.circuit.specs.Wires.{IsWire, lit_holds};
ghost use Rattle.cfa.specs.Values.{cell_of};
ghost use Rattle.bit_words.specs.Words.{Grows, word_value};
ghost use Rattle.c_values.specs.Kind.{IsKind};
ghost use Rattle.sym_expr.specs.Stores.{PlaceFitsWithin, cells_in};
ghost use Rattle.sym_expr.specs.Weights.{most_expression_wires, place_weight};

use crate::elements::{array_start, with_element};
use crate::store::SymStore;
use crate::translation::translate;
use bit_words::Word;
use bit_words::gates::both;
use c_values::Kind;
use cfa::{CellPlace, Frame};
use circuit::{Circuit, Lit, Memory};

/// Puts a word into the cell that a place names, where this frame runs, and answers a literal that holds where the place's
/// index doesn't trap and names an element. The kind is the one at which the cell is written.
///
/// In every world, let the cells be what their words are there, before and after. Where the place names a cell, the cells
/// after are those before with the word's value in that one (ISO/IEC 9899:2011, 6.5.16p3). Each element of an array
/// chooses between the word and its own, by whether the index is its place. After [`Memory`] some of them may have chosen.
pub fn put(
    circuit: &mut Circuit,
    store: &mut SymStore,
    place: &CellPlace,
    frame: &Frame,
    word: &Word,
    kind: Kind,
) -> Result<Lit, Memory>
    requires cells { All (All (IsWire circuit.old)) store.old.cells }
    requires fits { PlaceFitsWithin (length store.old.cells) frame.now place.now }
    requires word { All (IsWire circuit.old) word.now }
    requires kind { IsKind kind }
    requires room { length circuit.old + most_expression_wires (place_weight place.now kind.width) ≤ 2 ^ 30 }
    ensures grows { Grows circuit.old circuit.new (most_expression_wires (place_weight place.now kind.width)) }
    ensures cells { OnOk result (All (All (IsWire circuit.new)) store.new.cells) }
    ensures count { OnOk result (length store.new.cells ≡ length store.old.cells) }
    ensures wire { IfOk result (λ c. IsWire circuit.new c) }
    ensures inside { IfOk result (λ c. (w : World) → lit_holds circuit.new c w ≡ is_ok (cell_of (cells_in circuit.old store.old.cells w) frame.now place.now)) }
    ensures value { OnOk result ((w : World) (cell : ℕ) → cell_of (cells_in circuit.old store.old.cells w) frame.now place.now ≡ Ok cell
        → cells_in circuit.new store.new.cells w ≡ slice_set (cells_in circuit.old store.old.cells w) cell (word_value circuit.old word.now w)) }
{
    match place {
        CellPlace::Global(cell) => {
            store.set(*cell as usize, word)?;
            Ok(Lit::YES)
        }
        CellPlace::Local(cell) => {
            store.set(frame.base as usize + *cell as usize, word)?;
            Ok(Lit::YES)
        }
        CellPlace::Element {
            array,
            index,
            length,
        } => {
            let named = translate(circuit, index, store, frame)?;
            let start = array_start(*array, frame);
            put_element(circuit, store, start, *length as usize, &named, word)
        }
    }
}

/// Puts a word into the cell that an index names among so many from a place on, and answers whether it names one, where the
/// literal beside the index holds.
fn put_element(
    circuit: &mut Circuit,
    store: &mut SymStore,
    start: usize,
    count: usize,
    index: &(Word, Lit),
    word: &Word,
) -> Result<Lit, Memory>
    requires cells { All (All (IsWire circuit.old)) store.old.cells }
    requires index { All (IsWire circuit.old) index.now.0 }
    requires wire { IsWire circuit.old index.now.1 }
    requires word { All (IsWire circuit.old) word.now }
    requires within { start + count ≤ length store.old.cells }
    requires room { length circuit.old + 386 * count ≤ 2 ^ 30 }
    ensures grows { Grows circuit.old circuit.new (386 * count) }
    ensures cells { OnOk result (All (All (IsWire circuit.new)) store.new.cells) }
    ensures count { OnOk result (length store.new.cells ≡ length store.old.cells) }
    ensures wire { IfOk result (λ c. IsWire circuit.new c) }
    ensures inside { IfOk result (λ c. (w : World) → lit_holds circuit.new c w ≡ (lit_holds circuit.old index.now.1 w && nat_lt (word_value circuit.old index.now.0 w) count)) }
    ensures value { OnOk result ((w : World) → let i = word_value circuit.old index.now.0 w in let cells = cells_in circuit.old store.old.cells w in
        cells_in circuit.new store.new.cells w ≡ (if nat_lt i count then slice_set cells (start + i) (word_value circuit.old word.now w) else cells)) }
{
    if count == 0 {
        return Ok(Lit::NO);
    }
    let inside = put_among(circuit, store, start, count, &index.0, word)?;
    both(circuit, index.1, inside)
}

/// The same, whatever the literal beside the index.
fn put_among(
    circuit: &mut Circuit,
    store: &mut SymStore,
    start: usize,
    count: usize,
    index: &Word,
    word: &Word,
) -> Result<Lit, Memory>
    requires cells { All (All (IsWire circuit.old)) store.old.cells }
    requires index { All (IsWire circuit.old) index.now }
    requires word { All (IsWire circuit.old) word.now }
    requires within { start + count ≤ length store.old.cells }
    requires room { length circuit.old + 385 * count ≤ 2 ^ 30 }
    ensures grows { Grows circuit.old circuit.new (385 * count) }
    ensures cells { OnOk result (All (All (IsWire circuit.new)) store.new.cells) }
    ensures count { OnOk result (length store.new.cells ≡ length store.old.cells) }
    ensures wire { IfOk result (λ c. IsWire circuit.new c) }
    ensures inside { IfOk result (λ c. (w : World) → lit_holds circuit.new c w ≡ nat_lt (word_value circuit.old index.now w) count) }
    ensures value { OnOk result ((w : World) → let i = word_value circuit.old index.now w in let cells = cells_in circuit.old store.old.cells w in
        cells_in circuit.new store.new.cells w ≡ (if nat_lt i count then slice_set cells (start + i) (word_value circuit.old word.now w) else cells)) }
{
    let _cells = store.cells.len();
    let mut inside = Lit::NO;
    for k in 0..count {
        let before = (*store.cells.at(start + k), inside);
        let (chosen, named) = with_element(circuit, index, k as u64, word, &before)?;
        store.set(start + k, &chosen)?;
        inside = named;
    }
    Ok(inside)
}
