// States in which runs come to a place by several ways, as one.
ghost use Rattle.std.specs.Prelude.{◌≡◌, ◌+◌, ◌*◌, ◌<◌, ◌≤◌, ◌^◌, ◌||◌, All, IfOk, OnOk, if◌then◌else◌, length, slice_set};
ghost use Rattle.circuit.specs.Truth.{World};
ghost use Rattle.circuit.specs.Wires.{IsWire, lit_holds};
ghost use Rattle.bit_words.specs.Words.{Grows, word_value};
ghost use Rattle.sym_expr.specs.Stores.{cells_in};

use crate::guards::either_guard;
use bit_words::{Word, choose};
use circuit::{Circuit, Lit, Memory};
use sym_expr::sym_steps::SymState;
use sym_expr::{SymStore, is_same_word};

/// A symbolic state, and a literal that holds in the worlds in which runs come to it.
#[derive(Drop)]
pub(crate) struct Met {
    pub(crate) guard: Lit,
    pub(crate) state: SymState,
}

/// Puts the choice between a word and that of a cell into the cell: the word where a test holds. Equal words are left, so
/// that other stores share them still.
fn choose_cell(
    circuit: &mut Circuit,
    test: Lit,
    yes: &Word,
    store: &mut SymStore,
    cell: usize,
) -> Result<(), Memory>
    requires test { IsWire circuit.old test }
    requires word { All (IsWire circuit.old) yes.now }
    requires cells { All (All (IsWire circuit.old)) store.old.cells }
    requires cell { cell < length store.old.cells }
    requires room { length circuit.old + 256 ≤ 2 ^ 30 }
    ensures grows { Grows circuit.old circuit.new 256 }
    ensures wires { OnOk result (All (All (IsWire circuit.new)) store.new.cells) }
    ensures count { OnOk result (length store.new.cells ≡ length store.old.cells) }
    ensures value { OnOk result ((w : World) → let cells = cells_in circuit.old store.old.cells w in
        cells_in circuit.new store.new.cells w ≡ (if lit_holds circuit.old test w then slice_set cells cell (word_value circuit.old yes.now w) else cells)) }
{
    let no = *store.cells.at(cell);
    if is_same_word(yes, &no) {
        return Ok(());
    }
    let word = choose(circuit, test, yes, &no)?;
    store.cells.set(cell, word)?;
    Ok(())
}

/// The cells of the first store where a test holds, and those of the second where not.
fn chosen(
    circuit: &mut Circuit,
    test: Lit,
    yes: &SymStore,
    mut no: SymStore,
) -> Result<SymStore, Memory>
    requires test { IsWire circuit.old test }
    requires left { All (All (IsWire circuit.old)) yes.now.cells }
    requires right { All (All (IsWire circuit.old)) no.cells }
    requires same { length yes.now.cells ≡ length no.cells }
    requires room { length circuit.old + 256 * length no.cells ≤ 2 ^ 30 }
    ensures grows { Grows circuit.old circuit.new (256 * length no.cells) }
    ensures wires { IfOk result (λ store. All (All (IsWire circuit.new)) store.cells) }
    ensures count { IfOk result (λ store. length store.cells ≡ length no.cells) }
    ensures value { IfOk result (λ store. (w : World) → cells_in circuit.new store.cells w ≡ (if lit_holds circuit.old test w then cells_in circuit.old yes.now.cells w else cells_in circuit.old no.cells w)) }
{
    for i in 0..yes.cells.len() {
        choose_cell(circuit, test, yes.cells.at(i), &mut no, i)?;
    }
    Ok(no)
}

/// One state for two at one pair of node and context: where the second one's guard holds it is that one, and else the first.
pub(crate) fn joined(
    circuit: &mut Circuit,
    met: Met,
    guard: Lit,
    state: &SymState,
) -> Result<Met, Memory>
    requires guards { IsWire circuit.old met.guard × IsWire circuit.old guard }
    requires first { All (All (IsWire circuit.old)) met.state.store.cells }
    requires second { All (All (IsWire circuit.old)) state.now.store.cells }
    requires same { length state.now.store.cells ≡ length met.state.store.cells }
    requires room { length circuit.old + (256 * length met.state.store.cells + 1) ≤ 2 ^ 30 }
    ensures grows { Grows circuit.old circuit.new (256 * length met.state.store.cells + 1) }
    ensures guard { IfOk result (λ m. IsWire circuit.new m.guard) }
    ensures meets { IfOk result (λ m. (w : World) → lit_holds circuit.new m.guard w ≡ (lit_holds circuit.old met.guard w || lit_holds circuit.old guard w)) }
    ensures wires { IfOk result (λ m. All (All (IsWire circuit.new)) m.state.store.cells) }
    ensures count { IfOk result (λ m. length m.state.store.cells ≡ length met.state.store.cells) }
    ensures value { IfOk result (λ m. (w : World) → cells_in circuit.new m.state.store.cells w ≡ (if lit_holds circuit.old guard w then cells_in circuit.old state.now.store.cells w else cells_in circuit.old met.state.store.cells w)) }
    ensures kept { IfOk result (λ m. (m.state.node ≡ met.state.node) × (m.state.frames ≡ met.state.frames)) }
{
    let Met {
        guard: first_guard,
        state: first,
    } = met;
    let SymState {
        node,
        frames,
        store,
        taken,
    } = first;
    let store = chosen(circuit, guard, &state.store, store)?;
    let guard = either_guard(circuit, first_guard, guard)?;
    Ok(Met {
        guard,
        state: SymState {
            node,
            frames,
            store,
            taken,
        },
    })
}
