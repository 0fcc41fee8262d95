// Tables of the places of numbers.
ghost use Rattle.std.specs.Prelude.{◌≡◌, ◌↔◌, ◌≤◌, ℕ, List, true, IfOk, length};
ghost use Rattle.measurer_index.specs.occurrences.Places.{AreTables, IsBoundary, IsFirstOrNone, StandsFrom};

use crate::occurrences::tables::groups_of;
use fq_core::Memory;
use std::alloc::Global;
use std::marker::Model;

/// Where each number stands in a list, which is borrowed. Contracts see the list.
#[derive(Debug, Drop)]
pub struct Occurrences<'a> {
    numbers: &'a [u32],
    /// The places of all numbers, one number after the other.
    places: Vec<u32>,
    /// Where the places of each number begin, and at the end where those of the last number end.
    begins: Vec<usize>,
}

impl<'a> Model for Occurrences<'a> {
    ghost use Rattle.std.specs.Prelude.{ℕ, List};
    ghost use Rattle.measurer_index.specs.occurrences.Places.{AreTables};

    ghost Value = { List ℕ };

    ghost view = { λ it. it.numbers.now };

    ghost invariant = { λ it. AreTables it.numbers.now it.places.items it.begins.items };
}

/// The first entry of a part of a list that isn't below the start, where the entries rise, by binary search, or the end of
/// the part.
fn boundary(places: &[u32], begin: usize, end: usize, start: usize) -> usize
    requires forward { begin ≤ end }
    requires within { end ≤ length places.now }
    ensures { IsBoundary places.now begin end start result }
{
    let mut low = begin;
    let mut high = end;
    while low < high {
        let middle = low + (high - low) / 2;
        if (places[middle] as usize) < start {
            low = middle + 1;
        } else {
            high = middle;
        }
    }
    low
}

impl<'a> Occurrences<'a> {
    /// The table of a list. It takes time and memory in proportion to the length of the list and to its greatest number.
    ///
    /// # Errors
    ///
    /// Want of memory alone, which is also the answer for a list of 2^32 - 1 numbers or more.
    pub fn new(alloc: Global, numbers: &'a [u32]) -> Result<Occurrences<'a>, Memory>
        ensures { IfOk result (λ table. table ≡ numbers.now) }
    {
        if numbers.len() >= u32::MAX as usize {
            return Err(Memory);
        }
        let groups = groups_of(alloc, numbers)?;
        Ok(Occurrences {
            numbers,
            places: groups.places,
            begins: groups.begins,
        })
    }

    /// The list.
    pub fn as_slice(&self) -> &[u32]
        ensures { result.now ≡ self.now }
    {
        self.numbers
    }

    /// Whether a number stands at a place from this one on. It takes time in proportion to the logarithm of the number of its
    /// places.
    pub fn stands_from(&self, number: u32, start: usize) -> bool
        ensures { (result ≡ true) ↔ StandsFrom self.now number start }
    {
        self.first_from(number, start).is_some()
    }

    /// The first place of a number from this one on. It takes time in proportion to the logarithm of the number of its
    /// places.
    pub fn first_from(&self, number: u32, start: usize) -> Option<usize>
        ensures { IsFirstOrNone self.now number start result }
    {
        let number = number as usize;
        if number + 1 >= self.begins.len() {
            return None;
        }
        let end = self.begins[number + 1];
        let found = boundary(&self.places, self.begins[number], end, start);
        if found < end {
            Some(self.places[found] as usize)
        } else {
            None
        }
    }
}
