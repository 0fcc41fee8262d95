// Cells of stores: cleared ones, and those of frames that are pushed and removed.
ghost use Rattle.std.specs.Prelude.{◌≡◌, ◌+◌, ◌-◌, ◌<◌, ◌≤◌, ◌^◌, ◌∷◌, ◌++◌, All, IfOk, List, length, take, drop, replicate, slice_get, Some};
ghost use Rattle.circuit.specs.Truth.{World};
ghost use Rattle.circuit.specs.Wires.{IsWire};
ghost use Rattle.circuit.specs.declared.lit.Gate.{Gate};
ghost use Rattle.c_meaning.specs.Steps.{cleared};
ghost use Rattle.sym_expr.specs.Stores.{cells_in};
ghost use Rattle.sym_expr.specs.sym_steps.Cells.{new_cells};

use crate::SymStore;
use bit_words::{Word, constant};
use containers::shared_tables::Table;
use std::alloc::AllocError;

/// The store with one word in so many cells, from a place on.
fn with_all(
    mut store: SymStore,
    first: usize,
    count: usize,
    word: &Word,
) -> Result<SymStore, AllocError>
    requires { first + count ≤ length store.cells }
    ensures { IfOk result (λ all. all.cells ≡ take first store.cells ++ (replicate count word.now ++ drop (first + count) store.cells)) }
{
    for k in 0..count {
        store.set(first + k, word)?;
    }
    Ok(store)
}

/// The store with so many cells from a place on set to 0.
pub(crate) fn with_zeros(
    store: SymStore,
    first: usize,
    count: usize,
) -> Result<SymStore, AllocError>
    requires { first + count ≤ length store.cells }
    ensures cells { IfOk result (λ all. (gates : List Gate) (w : World) → cells_in gates all.cells w ≡ cleared (cells_in gates store.cells w) first count) }
    ensures wires { IfOk result (λ all. (gates : List Gate) → All (All (IsWire gates)) store.cells → All (All (IsWire gates)) all.cells) }
{
    let zero = constant(0);
    let all = with_all(store, first, count, &zero)?;
    Ok(all)
}

/// The word of a cell.
pub(crate) fn word_at(store: &SymStore, at: usize) -> Word
    requires { at < length store.now.cells }
    ensures { slice_get store.now.cells at ≡ Some result }
{
    *store.cells.at(at)
}

/// The store with its first cells alone, so many.
pub(crate) fn first_cells(store: SymStore, count: usize) -> SymStore
    ensures { result.cells ≡ take count store.cells }
{
    let SymStore { mut cells } = store;
    cells.truncate(count);
    SymStore { cells }
}

/// The cells with those of a new frame behind them: a word, the words, and as often that word that they are so many.
fn with_words(
    mut cells: Table<Word>,
    word: Word,
    words: &[Word],
    count: u32,
) -> Result<Table<Word>, AllocError>
    requires { length words.now < 2 ^ 63 }
    ensures { IfOk result (λ all. all ≡ cells ++ word ∷ (words.now ++ replicate (count - (length words.now + 1)) word)) }
{
    cells.push(word)?;
    cells.extend_from_slice(words)?;
    let more = (count as usize).saturating_sub(words.len() + 1);
    cells.extend_with(word, more)?;
    Ok(cells)
}

/// The store with the cells of a new frame behind the others: the result, the words, and zeros, so many in all.
pub(crate) fn with_frame(
    store: SymStore,
    words: &[Word],
    count: u32,
) -> Result<SymStore, AllocError>
    requires { length words.now < 2 ^ 63 }
    ensures cells { IfOk result (λ all. (gates : List Gate) (w : World) → cells_in gates all.cells w ≡ cells_in gates store.cells w ++ new_cells count (cells_in gates words.now w)) }
    ensures wires { IfOk result (λ all. (gates : List Gate) → All (All (IsWire gates)) store.cells → All (All (IsWire gates)) words.now → All (All (IsWire gates)) all.cells) }
{
    let SymStore { cells } = store;
    let cells = with_words(cells, constant(0), words, count)?;
    Ok(SymStore { cells })
}
