// The row of candidates.
ghost use Rattle.std.specs.Prelude.{◌≤◌, ◌<◌, All, IfOk, length};
ghost use Rattle.std.specs.List.{AllZip};
ghost use Rattle.c_values.specs.Kind.{IsKind, IsValue};
ghost use Rattle.suite.specs.candidates.Row.{IsCandidate};

use crate::candidates::constants::constants_of;
use crate::candidates::ends::word_beside_end;
use crate::candidates::mixing::drawn;
use crate::candidates::progressions::{Progression, progressions_of};
use crate::candidates::reads::{asked_kinds, most_answers, parameters_read};
use crate::candidates::values::values_of;
use c_meaning::Input;
use c_values::{Kind, convert};
use cfa::Graph;
use containers::Vector;
use fq_core::Memory;
use std::alloc::Global;

/// A row of inputs of a function.
///
/// Of eight numbers the first has an input whose words and answers are all one of the values, the second one where they rise
/// from a value or go through the values, and past the end of these both have one where one of them is of a progression. The
/// third to the fifth have one of a grid of small numbers, or of the same numbers times a power of ten. The sixth has one where
/// one place has an end of its kind's range, or the number beside that, and the others a small number. The others, and those
/// past the end of these, have one whose words and answers are drawn: values, small numbers, sums of two values, or any numbers.
#[derive(Drop)]
pub struct Candidates {
    values: Vec<u64>,
    progressions: Vec<Progression>,
    /// By parameter, whether an edge of the function reads it. Those that none reads are 0 in each input.
    read: Vec<bool>,
    /// The most answers that a run reads.
    most_answers: u32,
    /// The kinds of the input functions.
    asked: Vec<Kind>,
}

/// Of how many constants sums, products and progressions are made, two by two.
const PAIRED: usize = 12;

/// What the numbers of the small grid are multiplied by, one after another.
const POWERS: [u64; 4] = [1, 10, 100, 1000];

/// A grid of small numbers: how many there are in each direction, and how many inputs that makes.
#[derive(Clone, Copy)]
struct Grid {
    side: u64,
    count: u64,
}

/// The grids that come first, once for each power of ten, for inputs of so many words and answers.
fn small_grid(slots: u64) -> Grid
    ensures { 0 < result.side }
{
    match slots {
        0 | 1 => Grid {
            side: 64,
            count: 64,
        },
        2 => Grid {
            side: 10,
            count: 100,
        },
        3 => Grid {
            side: 6,
            count: 216,
        },
        _ => Grid { side: 3, count: 81 },
    }
}

/// Those that come then.
fn large_grid(slots: u64) -> Grid
    ensures { 0 < result.side }
{
    match slots {
        0 | 1 => Grid {
            side: 2048,
            count: 2048,
        },
        2 => Grid {
            side: 43,
            count: 1849,
        },
        3 => Grid {
            side: 12,
            count: 1728,
        },
        _ => Grid {
            side: 6,
            count: 1296,
        },
    }
}

/// The word for a place of an input of a grid: a digit of its number in base `side`, of the first four places.
fn digit(index: u64, slot: u64, side: u64) -> u64
    requires { 0 < side }
{
    match slot {
        0 => index % side,
        1 => index / side % side,
        2 => index / side / side % side,
        3 => index / side / side / side % side,
        _ => 0,
    }
}

impl Candidates {
    /// The row for a function of a graph, by its number.
    ///
    /// # Errors
    ///
    /// Want of memory alone.
    pub fn new(alloc: Global, graph: &Graph, function: u32) -> Result<Candidates, Memory> {
        let constants = constants_of(alloc, graph, function)?;
        let first = &constants[..constants.len().min(PAIRED)];
        Ok(Candidates {
            values: values_of(alloc, &constants, first)?,
            progressions: progressions_of(alloc, first)?,
            read: parameters_read(alloc, graph, function)?,
            most_answers: most_answers(graph),
            asked: asked_kinds(alloc, graph)?,
        })
    }

    /// The value of a number; the numbers go round.
    fn value(&self, number: u64) -> u64 {
        let count = self.values.len();
        if count == 0 {
            return number;
        }
        self.values[(number % count as u64) as usize]
    }

    /// A word that is drawn.
    fn drawn_word(&self, number: u64, slot: u64) -> u64 {
        let shared = drawn(number, 0);
        let own = drawn(number, slot.wrapping_add(1));
        // In each fourth input the words are near each other.
        let (from, more) = if shared % 4 == 0 {
            (shared / 4, own % 3)
        } else {
            (own / 4, 0)
        };
        let rest = from / 8;
        let word = match from % 8 {
            0 | 1 => self.value(rest),
            2 => rest % 16,
            3 => rest % 256,
            4 => rest % 4096,
            5 => 0u64.wrapping_sub(rest % 64),
            6 => self.value(rest).wrapping_add(self.value(rest / 4096)),
            _ => drawn(rest, number),
        };
        word.wrapping_add(more)
    }

    /// A word of a grid, or one that is drawn where the grids are at their end.
    fn grid_word(&self, number: u64, index: u64, slot: u64, slots: u64) -> u64 {
        let small = small_grid(slots);
        let mut behind = index;
        for power in &POWERS {
            if behind < small.count {
                return digit(behind, slot, small.side).wrapping_mul(*power);
            }
            behind -= small.count;
        }
        let large = large_grid(slots);
        if behind < large.count {
            return digit(behind, slot, large.side);
        }
        self.drawn_word(number, slot)
    }

    /// A word of an input in which one place, each in turn, has the next number of a progression, each in turn too; or one that
    /// is drawn.
    fn progression_word(&self, number: u64, index: u64, slot: u64, slots: u64) -> u64 {
        let count = self.progressions.len() as u64;
        if count == 0 || slots == 0 || index % slots != slot {
            return self.drawn_word(number, slot);
        }
        let turn = index / slots;
        self.progressions[(turn % count) as usize].at(turn / count)
    }

    /// A word of an input in which one place has an end of its kind's range; or one that is drawn.
    fn end_word(&self, number: u64, index: u64, slot: u64, slots: u64, kind: Kind) -> u64 {
        match word_beside_end(index, slot, slots, kind) {
            Some(word) => word,
            None => self.drawn_word(number, slot),
        }
    }

    /// The word for a place, of a kind, of the input of a number: the places are those of the parameters, and then those of the
    /// answers.
    fn word(&self, number: u64, slot: u64, slots: u64, kind: Kind) -> u64 {
        let index = number / 8;
        let count = self.values.len() as u64;
        match number % 8 {
            0 if index < count => self.value(index),
            0 => self.progression_word(number, 2 * (index - count), slot, slots),
            1 if index < count => self.value(index).wrapping_add(slot),
            1 if index - count < count => self.value(index.wrapping_add(slot)),
            1 => self.progression_word(number, 2 * (index - count - count) + 1, slot, slots),
            2 => self.grid_word(number, 3 * index, slot, slots),
            3 => self.grid_word(number, 3 * index + 1, slot, slots),
            4 => self.grid_word(number, 3 * index + 2, slot, slots),
            5 => self.end_word(number, index, slot, slots, kind),
            _ => self.drawn_word(number, slot),
        }
    }

    /// Whether a parameter is read.
    fn is_read(&self, slot: usize) -> bool {
        match self.read.get(slot) {
            Some(is_read) => *is_read,
            None => true,
        }
    }

    /// The kind that is taken for an answer's: where there are several input functions, in turn that of each.
    fn asked_kind(&self, slot: u32) -> Kind {
        let count = self.asked.len();
        if count == 0 {
            return Kind::INT;
        }
        self.asked[slot as usize % count]
    }

    /// How many of the first parameters are read.
    fn read_count(&self, parameters: usize) -> u64 {
        let mut count: u64 = 0;
        for slot in 0..parameters {
            if self.is_read(slot) {
                count = count.wrapping_add(1);
            }
        }
        count
    }

    /// The word of a parameter of a kind, whose place among those that are read is given: 0 where it isn't read.
    fn word_read(&self, number: u64, slot: usize, place: u64, slots: u64, kind: Kind) -> u64 {
        if self.is_read(slot) {
            self.word(number, place, slots, kind)
        } else {
            0
        }
    }

    /// The input of a number, for parameters of these kinds and with so many answers, or with as many as a run reads at most. The
    /// places of its words and answers are those that are read.
    ///
    /// # Errors
    ///
    /// Want of memory alone.
    pub fn input(
        &self,
        alloc: Global,
        kinds: &[Kind],
        answers: u32,
        number: u64,
    ) -> Result<Input, Memory>
        requires { All IsKind kinds.now }
        ensures { IfOk result (λ input. IsCandidate kinds.now answers input) }
    {
        let answers = answers.min(self.most_answers);
        let read = self.read_count(kinds.len());
        let slots = read.wrapping_add(answers as u64);
        let words = self.words(alloc, kinds, number, slots)?;
        let answers = self.answers(alloc, read, answers, number, slots)?;
        Ok(Input { words, answers })
    }

    /// The words of an input, each as a value of its kind.
    fn words(
        &self,
        alloc: Global,
        kinds: &[Kind],
        number: u64,
        slots: u64,
    ) -> Result<Vector<u64>, Memory>
        requires { All IsKind kinds.now }
        ensures { IfOk result (λ words. AllZip IsValue kinds.now words) }
    {
        let mut words = Vector::new(alloc);
        let mut place: u64 = 0;
        for (slot, kind) in kinds.iter().enumerate() {
            let word = self.word_read(number, slot, place, slots, *kind);
            place = place.wrapping_add(self.is_read(slot) as u64);
            words.push(convert(word, Kind::UNSIGNED_LONG, *kind))?;
        }
        Ok(words)
    }

    /// The answers of an input, whose places begin at a number.
    fn answers(
        &self,
        alloc: Global,
        first: u64,
        count: u32,
        number: u64,
        slots: u64,
    ) -> Result<Vector<u64>, Memory>
        ensures { IfOk result (λ answers. length answers ≤ count) }
    {
        let mut answers = Vector::new(alloc);
        for slot in 0..count {
            let kind = self.asked_kind(slot);
            answers.push(self.word(number, first.wrapping_add(slot as u64), slots, kind))?;
        }
        Ok(answers)
    }
}
