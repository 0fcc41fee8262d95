// What stands while functions run.
ghost use Rattle.std.specs.Prelude.{◌≡◌, ◌<◌, ◌+◌, ◌^◌, ◌∷◌, ◌++◌, suc, drop, length, take, slice_index, OnOk, IfErr};
ghost use Rattle.tree_meaning.specs.Activations.{stored, cleared, first_cells, with_activation, without_activation, zeros_at};
ghost use Rattle.tree_meaning.specs.declared.stop.Stop.TheVariants as stops;

use crate::stop::Stop;
use containers::Vector;
use std::alloc::AllocError;
use std::marker::Model;

/// What the cells hold, the answers that input functions have yet to give, and how many turns are left.
#[derive(Drop)]
pub(crate) struct Store<'a> {
    cells: Vec<u64>,
    answers: &'a [u64],
    turns: u64,
}

impl<'a> Model for Store<'a> {
    ghost use Rattle.tree_meaning.specs.Outcomes.{Store as Standing};

    ghost Value = { Standing };

    ghost view = { λ s. record { cells = s.cells.items; answers = s.answers.now; turns = s.turns } };
}

impl<'a> Store<'a> {
    pub(crate) fn new(cells: Vec<u64>, answers: &'a [u64], turns: u64) -> Store<'a>
        ensures { result ≡ record { cells = cells.items; answers = answers.now; turns = turns } }
    {
        Store {
            cells,
            answers,
            turns,
        }
    }

    /// How many cells there are.
    pub(crate) fn len(&self) -> usize
        ensures { result ≡ length self.now.cells }
    {
        self.cells.len()
    }

    /// What a cell holds, and 0 past the last one.
    pub(crate) fn at(&self, cell: usize) -> u64
        ensures { result ≡ slice_index self.now.cells cell }
    {
        self.cells.get(cell).copied().unwrap_or(0)
    }

    /// Puts a value into a cell, if it is there.
    pub(crate) fn put(&mut self, cell: usize, value: u64)
        ensures { self.new ≡ stored self.old cell value }
    {
        if cell < self.cells.len() {
            self.cells[cell] = value;
        }
    }

    /// How many turns are left.
    pub(crate) fn turns(&self) -> u64
        ensures { result ≡ self.now.turns }
    {
        self.turns
    }

    /// Takes a turn, if one is left.
    pub(crate) fn take_turn(&mut self) -> Result<(), Stop>
        ensures turns { OnOk result (self.old.turns ≡ suc self.new.turns) }
        ensures rest { OnOk result (self.new ≡ record { cells = self.old.cells; answers = self.old.answers; turns = self.new.turns }) }
        ensures none { IfErr result (λ stop. (stop ≡ stops.OutOfTurns) × (self.old.turns ≡ 0)) }
    {
        if self.turns == 0 {
            return Err(Stop::OutOfTurns);
        }
        self.turns -= 1;
        Ok(())
    }

    /// Sets so many cells, from one on, to 0.
    #[tactic(auto, using(crate::proofs::Clears::clear_laws))]
    pub(crate) fn clear(&mut self, first: usize, count: u32)
        requires { first < 2 ^ 33 }
        ensures { self.new ≡ cleared self.old first count }
    {
        for i in 0..count {
            self.put(first + i as usize, 0);
        }
    }

    /// Takes the next answer: 0 behind the last one.
    pub(crate) fn take_answer(&mut self) -> u64
        ensures answer { result ≡ slice_index self.old.answers 0 }
        ensures rest { self.new ≡ record { cells = self.old.cells; answers = drop 1 self.old.answers; turns = self.old.turns } }
    {
        match self.answers.split_first() {
            None => 0,
            Some((first, rest)) => {
                self.answers = rest;
                *first
            }
        }
    }

    /// Puts the cells of an activation behind the others: the result's, those of words, and zeros, so many in all.
    pub(crate) fn enter(&mut self, count: u32, words: &[u64]) -> Result<(), AllocError>
        ensures { OnOk result (self.new ≡ with_activation self.old (first_cells count words.now)) }
    {
        self.cells.push(0)?;
        self.cells.extend_from_slice(words)?;
        let zeros = (count as usize).saturating_sub(words.len().saturating_add(1));
        let all = self.cells.len().saturating_add(zeros);
        self.cells.resize(all, 0)?;
        Ok(())
    }

    /// Removes the cells of an activation, which begin at a place.
    pub(crate) fn leave(&mut self, base: usize)
        ensures { self.new ≡ without_activation base self.old }
    {
        self.cells.truncate(base);
    }
}
