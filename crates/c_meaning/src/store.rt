// What expressions are evaluated over.
ghost use Rattle.std.specs.Prelude.{◌≡◌, ◌<◌, ◌^◌, ℕ, slice_index, IsTrue};
ghost use Rattle.cfa.specs.Rules.{Room, array_fits};
ghost use Rattle.cfa.specs.Values.{array_start};

use cfa::{ArrayPlace, Frame, Function};
use std::marker::Model;

/// The cells of a state, the frame that runs, and what its function has room for.
#[derive(Drop)]
pub(crate) struct Store<'a> {
    cells: &'a [u64],
    frame: &'a Frame,
    globals: usize,
    function: &'a Function,
}

impl<'a> Model for Store<'a> {
    ghost use Rattle.cfa.specs.Rules.{Room};
    ghost use Rattle.c_meaning.specs.Storage.{Storage};

    ghost Value = { Storage };

    ghost view = { λ s. record { cells = s.cells.now; frame = s.frame.now; room = record { globals = s.globals; cells = s.function.now.cells; arrays = s.function.now.arrays } } };
}

impl<'a> Store<'a> {
    pub(crate) fn new(
        cells: &'a [u64],
        frame: &'a Frame,
        globals: usize,
        function: &'a Function,
    ) -> Store<'a>
        ensures { let room : Room = record { globals = globals; cells = function.now.cells; arrays = function.now.arrays } in result ≡ record { cells = cells.now; frame = frame.now; room = room } }
    {
        Store {
            cells,
            frame,
            globals,
            function,
        }
    }

    /// The place of the first cell of the frame that runs.
    pub(crate) fn base(&self) -> usize
        ensures place { result ≡ self.now.frame.base }
        ensures small { result < 2 ^ 32 }
    {
        self.frame.base as usize
    }

    // The place of the first cell of an array that the frame is lent.
    fn lent(&self, parameter: u32) -> usize
        ensures { result ≡ slice_index self.now.frame.arrays parameter }
    {
        let arrays = self.frame.arrays.as_slice();
        arrays.get(parameter as usize).copied().unwrap_or(0) as usize
    }

    /// The place of an array's first cell among all cells.
    pub(crate) fn array_start(&self, array: ArrayPlace) -> usize
        requires { (length : ℕ) × IsTrue (array_fits self.now.room array length) }
        ensures { result ≡ array_start self.now.cells self.now.frame array }
    {
        match array {
            ArrayPlace::Global(first) => first as usize,
            ArrayPlace::Local(first) => self.base() + first as usize,
            ArrayPlace::Lent(parameter) => self.lent(parameter),
        }
    }

    /// What a cell holds, and 0 past the last one.
    pub(crate) fn at(&self, cell: usize) -> u64
        ensures { result ≡ slice_index self.now.cells cell }
    {
        self.cells.get(cell).copied().unwrap_or(0)
    }
}
