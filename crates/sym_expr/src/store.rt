// The cells of states as words of bits.
ghost use Rattle.std.specs.Prelude.{◌≡◌, ◌<◌, IsTrue, OnOk, length, slice_set};

use bit_words::Word;
use circuit::Lit;
use containers::shared_tables::Table;
use std::alloc::AllocError;

/// The cells of a state as words of bits: those of the globals, and then those of each frame.
#[derive(Drop)]
pub struct SymStore {
    /// The word of each cell, a pattern of 64 bits.
    pub cells: Table<Word>,
}

impl SymStore {
    /// Puts a word into a cell. A word that stands there already is left, so that other stores share it still.
    pub fn set(&mut self, cell: usize, word: &Word) -> Result<(), AllocError>
        requires { cell < length self.old.cells }
        ensures { OnOk result (self.new.cells ≡ slice_set self.old.cells cell word.now) }
    {
        if is_same_word(self.cells.at(cell), word) {
            return Ok(());
        }
        self.cells.set(cell, *word)
    }
}

/// Whether two words have the same literals.
pub fn is_same_word(a: &Word, b: &Word) -> bool
    ensures { IsTrue result → a.now ≡ b.now }
{
    for i in 0..64usize {
        if !is_same_literal(a[i], b[i]) {
            return false;
        }
    }
    true
}

fn is_same_literal(a: Lit, b: Lit) -> bool
    ensures { IsTrue result → a ≡ b }
{
    a.wire() == b.wire() && a.negated() == b.negated()
}
